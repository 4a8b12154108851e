// Bytes of a circuit, written into a room: one by one, and its header.
ghost use Rattle.std.specs.Prelude.{◌≡◌, [], ◌∷◌, set};
ghost use Rattle.std.proofs.lemmas.List.Edits.{sets};
ghost use Rattle.circuit.specs.GatesToWrite.{header_bytes};

use limits::CIRCUIT_EDITION;

// A byte at a place, if the room reaches there. (No `get_mut`, which says nothing of what the room ends as.)
pub fn put(room: &mut [u8], at: usize, byte: u8)
    ensures { room.new ≡ set room.old at byte }
{
    if at < room.len() {
        room[at] = byte;
    }
}

// Some bytes from a place on, as far as the room reaches.
#[tactic(auto, using(crate::proofs::GateBytes::stores))]
pub fn put_all(room: &mut [u8], at: usize, bytes: &[u8])
    ensures { room.new ≡ sets room.old at bytes.now }
{
    if room.len() <= at {
        return;
    }
    for (i, byte) in bytes.iter().enumerate() {
        put(room, at + i, *byte);
    }
}

// Two bytes from a place on, as far as the room reaches.
pub fn put_pair(room: &mut [u8], at: usize, first: u8, second: u8)
    ensures { room.new ≡ sets room.old at (first ∷ second ∷ []) }
{
    put_all(room, at, &[first, second]);
}

// "Edition byte 1, n, ancilla byte .., gate count in 4 bytes little-endian", as far as the room reaches.
pub fn put_header(room: &mut [u8], qubits: u8, ancillas: u8, gates: u32)
    ensures { room.new ≡ sets room.old 0 (header_bytes qubits ancillas gates) }
{
    let [a, b, c, d] = gates.to_le_bytes();
    put_all(room, 0, &[CIRCUIT_EDITION, qubits, ancillas, a, b, c, d]);
}
