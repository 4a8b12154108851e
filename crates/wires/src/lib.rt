// The wires of a running circuit, passed by value through each gate.
#![tactic(auto)]

ghost use Rattle.std.specs.Prelude.{◌≡◌, ◌^◌, ltb};
ghost use Rattle.model.specs.Meaning.{flipped, state_of};
ghost use Rattle.model.specs.Gates.{exchange, renamed};
ghost use Rattle.wires.specs.StateOfABlock.{state_in, in_state, wires_of, flipped_in};

use limits::BLOCK_LENGTH;

// Wire w is bit (w - 1) mod 8 of byte (w - 1) div 8, counted from 0 and from the lowest bit.
#[derive(Clone, Copy)]
pub struct Wires {
    pub bits: [u8; BLOCK_LENGTH],
    pub data: u8,
    pub ancillas: u8,
}

// Has a word no bit at n or above?
pub fn fits(word: u64, n: u8) -> bool
    ensures { result ≡ ltb word (2 ^ n) }
{
    63 < n || word >> n == 0
}

// The wires at the start of a run: the data word in wires 1 to 64, every other wire 0.
pub fn start(data: u8, ancillas: u8, word: u64) -> Wires
    ensures { result ≡ wires_of «data» ancillas (state_of word) }
{
    let mut bits = [0u8; BLOCK_LENGTH];
    bits[..8].copy_from_slice(&word.to_le_bytes());
    Wires {
        bits,
        data,
        ancillas,
    }
}

// Whether a wire of a block holds 1. Number 0 is no wire and holds 0.
pub fn holds(bits: &[u8; BLOCK_LENGTH], wire: u8) -> bool
    ensures { result ≡ state_in bits.now wire }
{
    let Some(place) = wire.checked_sub(1) else {
        return false;
    };
    let byte = bits[(place / 8) as usize];
    (byte >> (place % 8)) & 1 == 1
}

// The bits to flip in byte i, where one bit of one byte is to be flipped.
fn flipped_in(i: usize, byte: usize, bit: u8) -> u8
    ensures { result ≡ flipped_in i byte bit }
{
    if i == byte { bit } else { 0 }
}

// One wire flipped. Number 0 is no wire and changes nothing. Every byte is stored, so that the block goes on as a whole: copying it right after a store into
// one of its bytes would wait for that store.
pub fn flip(wires: Wires, wire: u8) -> Wires
    ensures { result ≡ in_state (flipped wire (state_in wires.bits)) wires }
{
    let Some(place) = wire.checked_sub(1) else {
        return wires;
    };
    let byte = (place / 8) as usize;
    let bit = 1u8 << (place % 8);
    let mut after = wires;
    for (i, bits) in after.bits.iter_mut().enumerate() {
        *bits ^= flipped_in(i, byte, bit);
    }
    after
}

// Two wires exchanged: where they differ, both are flipped.
pub fn swap(wires: Wires, u: u8, v: u8) -> Wires
    ensures { result ≡ in_state (renamed (exchange u v) (state_in wires.bits)) wires }
{
    if holds(&wires.bits, u) == holds(&wires.bits, v) {
        return wires;
    }
    flip(flip(wires, u), v)
}
