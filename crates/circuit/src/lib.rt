// "The circuit": a circuit's bytes are read and checked (refusal 14).
#![tactic(auto)]

ghost use Rattle.std.specs.Prelude.{◌≡◌, ◌<◌, [], drop, MatchOption, ⊤};
ghost use Rattle.model.specs.Circuit.{wire_list, read_gate, read_gates, gate_is_well_formed};
ghost use Rattle.model.specs.Reading.{optional, stands};
ghost use Rattle.model.specs.Answers.{circuit_read};
ghost use Rattle.circuit.specs.GatesInBytes.{input_of, settled, fills, list_read, gate_in, gate_read, gate_written};
ghost use Rattle.circuit.specs.GateChecks.{misfits, list_fits, set_of, any_in, placed, own_wires};
ghost use Rattle.circuit.specs.Header.{counts_fit, circuit_after, header_given};
ghost use Rattle.answers.specs.Structs.{header_of, refused_header};
ghost use Rattle.model.specs.Limits.{header_length, not_well_formed};

use answers::CircuitHeader;
use limits::{CIRCUIT_EDITION, MOST_CIRCUIT, MOST_QUBITS, MOST_WIRES, Refusal, WIRE_COUNT};

pub mod write;

// What a circuit's header says: n, ancillas and how many wires that makes, and the gate count.
#[derive(Clone, Copy)]
pub struct Header {
    pub qubits: u8,
    pub ancillas: u8,
    pub wires: u8,
    pub gates: u32,
}

// What a gate does where it fires: it flips its target, or exchanges two wires, the target and a second one.
#[derive(Clone, Copy)]
pub enum Action {
    Not(u8),
    Swap(u8, u8),
}

// A gate: its wires controlled on 1 and on 0, as they stand in the circuit's bytes, and what it does.
#[derive(Clone, Copy)]
pub struct Gate<'a> {
    pub ones: &'a [u8],
    pub zeros: &'a [u8],
    pub action: Action,
}

impl Action {
    // The first and the last of the gate's own wires: a NOT has one.
    pub fn wires(self) -> (u8, u8)
        ensures { result ≡ own_wires self }
    {
        match self {
            Action::Not(target) => (target, target),
            Action::Swap(target, second) => (target, second),
        }
    }
}

// Is a wire at or below the one before it, above `most`, or one of the gate's own wires u and v?
fn misfits(low: u8, wire: u8, most: u8, u: u8, v: u8) -> bool
    ensures { result ≡ misfits low most u v wire }
{
    (wire <= low) | (most < wire) | (u == wire) | (v == wire)
}

// Do the wires of a list ascend from 1 to `most`, without u and v? No test ends the loop: so many wires are tested at once. The wire before is read where it
// stands: a loop that carries it along, or goes over pairs by `zip` or `windows`, takes more than one and a half times as long.
fn list_fits(list: &[u8], most: u8, u: u8, v: u8) -> bool
    ensures { result ≡ list_fits 0 most u v list.now }
{
    let Some((first, rest)) = list.split_first() else {
        return true;
    };
    let mut bad = misfits(0, *first, most, u, v);
    for (i, wire) in rest.iter().enumerate() {
        bad |= misfits(list[i], *wire, most, u, v);
    }
    !bad
}

// The wires of a list as a set: true at the number of each.
fn set_of(list: &[u8]) -> [bool; WIRE_COUNT]
    ensures { result ≡ set_of list.now }
{
    let mut set = [false; WIRE_COUNT];
    for wire in list {
        set[*wire as usize] = true;
    }
    set
}

// Is a wire of the first list in the second? The second becomes a set, in which each wire of the first is looked up.
fn share(first: &[u8], second: &[u8]) -> bool
    ensures { result ≡ any_in (set_of second.now) first.now }
{
    if first.is_empty() || second.is_empty() {
        return false;
    }
    let set = set_of(second);
    let mut shared = false;
    for wire in first {
        shared |= set[*wire as usize];
    }
    shared
}

// Are the gate's own wires 1 to `most`, and a swap's target its lower wire?
fn placed(action: Action, most: u8) -> bool
    ensures { result ≡ placed most action }
{
    match action {
        Action::Not(target) => 1 <= target && target <= most,
        Action::Swap(target, second) => 1 <= target && target < second && second <= most,
    }
}

// "Counts are at least 1, wires ascend, no wire occurs twice in a gate, a swap's target is its lower wire."
fn well_formed(gate: &Gate, most: u8) -> bool
    ensures { result ≡ gate_is_well_formed most (gate_in gate.now) }
{
    let (u, v) = gate.action.wires();
    placed(gate.action, most)
        && list_fits(gate.ones, most, u, v)
        && list_fits(gate.zeros, most, u, v)
        && !share(gate.ones, gate.zeros)
}

// Does bit i stand in a map?
fn stands(i: u8, map: u8) -> bool
    requires { i < 8 }
    ensures { result ≡ stands i map }
{
    (map >> i) & 1 == 1
}

// "count and wires", where the list's bit stands in the map; otherwise no wire. Beside it, the input behind it.
fn read_list(input: &[u8], stands: bool) -> Option<(&[u8], &[u8])>
    ensures { list_read result ≡ settled (optional stands wire_list [] (input_of input.now)) }
{
    if !stands {
        return Some((&[], input));
    }
    let (&count, rest) = input.split_first()?;
    if count == 0 {
        return None;
    }
    rest.split_at_checked(count as usize)
}

// One gate as it is written, and the input behind it. Whether it is well formed is not asked: whoever walks a circuit that was read knows that.
pub fn gate_at(input: &[u8]) -> Option<(Gate<'_>, &[u8])>
    ensures { gate_read result ≡ settled (gate_written (input_of input.now)) }
{
    let [map, target, rest @ ..] = input else {
        return None;
    };
    if 7 < *map {
        return None;
    }
    let (ones, rest) = read_list(rest, stands(0, *map))?;
    let (zeros, rest) = read_list(rest, stands(1, *map))?;
    if !stands(2, *map) {
        let action = Action::Not(*target);
        return Some((
            Gate {
                ones,
                zeros,
                action,
            },
            rest,
        ));
    }
    let (second, rest) = rest.split_first()?;
    let action = Action::Swap(*target, *second);
    Some((
        Gate {
            ones,
            zeros,
            action,
        },
        rest,
    ))
}

// One gate over wires 1 to `most`, if it is well formed, and the input behind it.
#[tactic(auto, using(crate::proofs::GateReading::judged))]
pub fn read_gate(input: &[u8], most: u8) -> Option<(Gate<'_>, &[u8])>
    ensures { gate_read result ≡ settled (read_gate most (input_of input.now)) }
{
    let (gate, rest) = gate_at(input)?;
    if !well_formed(&gate, most) {
        return None;
    }
    Some((gate, rest))
}

// Do `count` gates fill the input?
fn gates_fill(input: &[u8], most: u8, count: u32) -> bool
    ensures { result ≡ fills (read_gates most count (input_of input.now)) }
{
    let mut left = input;
    for _ in 0..count {
        let Some((_, rest)) = read_gate(left, most) else {
            return false;
        };
        left = rest;
    }
    left.is_empty()
}

// "n is 1 to 32", and n plus ancillas "is at most 255"
fn counts_fit(qubits: u8, ancillas: u8) -> bool
    ensures { result ≡ counts_fit qubits ancillas }
{
    1 <= qubits && qubits <= MOST_QUBITS && ancillas <= MOST_WIRES - qubits
}

// A circuit's header, and the gates' bytes behind it: edition byte 1, n of 1 to 32, at most 255 wires, in at most 65,536 bytes. The gates are not looked at.
// Of a circuit that is well formed the promise gives its n, ancillas and gate count. Of one that is not it gives neither answer: `None`, or a header behind
// which no reading of gates gives a circuit. Either way whoever reads on from the answer ends as the definition does, in 14.
#[tactic(auto, using(crate::proofs::CircuitReading::headers))]
pub fn read_header(bytes: &[u8]) -> Option<(Header, &[u8])>
    ensures circuit { circuit_after result ≡ circuit_read bytes.now }
    ensures gates { MatchOption result ⊤ (λ p. p.1.now ≡ drop header_length bytes.now) }
{
    if MOST_CIRCUIT < bytes.len() {
        return None;
    }
    let [edition, qubits, ancillas, a, b, c, d, behind @ ..] = bytes else {
        return None;
    };
    if *edition != CIRCUIT_EDITION {
        return None;
    }
    if !counts_fit(*qubits, *ancillas) {
        return None;
    }
    let header = Header {
        qubits: *qubits,
        ancillas: *ancillas,
        wires: *qubits + *ancillas,
        gates: u32::from_le_bytes([*a, *b, *c, *d]),
    };
    Some((header, behind))
}

// "14 circuit not well formed": "A refusal gives its number and otherwise zeros."
pub fn refused() -> CircuitHeader
    ensures { result ≡ refused_header not_well_formed }
{
    CircuitHeader {
        number: u32::from(Refusal::NotWellFormed),
        qubits: 0,
        ancillas: 0,
        gates: 0,
    }
}

// The header of a circuit that is well formed, and its gates' bytes.
pub fn read_whole(bytes: &[u8]) -> Option<(Header, &[u8])>
    ensures circuit { circuit_after result ≡ circuit_read bytes.now }
    ensures header { header_given result ≡ header_of (circuit_read bytes.now) }
    ensures gates { MatchOption result ⊤ (λ p. p.1.now ≡ drop header_length bytes.now) }
{
    let (header, gates) = read_header(bytes)?;
    if !gates_fill(gates, header.wires, header.gates) {
        return None;
    }
    Some((header, gates))
}

// The circuit reader: n, ancillas and gate count of a circuit that is well formed.
pub fn read_circuit(bytes: &[u8]) -> CircuitHeader
    ensures { result ≡ header_of (circuit_read bytes.now) }
{
    match read_whole(bytes) {
        Some((header, _)) => CircuitHeader {
            number: 0,
            qubits: header.qubits as u32,
            ancillas: header.ancillas as u32,
            gates: header.gates,
        },
        None => refused(),
    }
}
