// The circuit run: the gates of a circuit act in order, each as it is read, on wires that go by value through each gate.
#![tactic(auto)]

ghost use Rattle.std.specs.Prelude.{◌≡◌};
ghost use Rattle.model.specs.Gates.{fires, act};
ghost use Rattle.model.specs.Circuit.{read_gates};
ghost use Rattle.model.specs.Answers.{circuit_run};
ghost use Rattle.wires.specs.StateOfABlock.{state_in, in_state};
ghost use Rattle.circuit.specs.GatesInBytes.{input_of, gate_in, controls_in};
ghost use Rattle.circuit_run.specs.RunAnswers.{all_hold, wires_at_end, ran_of, end_answer};
ghost use Rattle.limits.specs.Refusals.{number_of};
ghost use Rattle.answers.specs.Structs.{refused_block, block_answer};

use answers::CircuitBlock;
use circuit::{Action, Gate};
use limits::{BLOCK_LENGTH, Refusal};
use wires::{Wires, fits};

// Does each wire of a list hold the bit asked for? No test ends the loop.
fn all_hold(list: &[u8], asked: bool, bits: &[u8; BLOCK_LENGTH]) -> bool
    ensures { result ≡ all_hold asked list.now (state_in bits.now) }
{
    let mut wrong = false;
    for wire in list {
        wrong |= wires::holds(bits, *wire) != asked;
    }
    !wrong
}

// "every controlled wire holds the bit asked for"
fn fires(gate: &Gate, wires: &Wires) -> bool
    ensures { result ≡ fires (controls_in gate.now) (state_in wires.now.bits) }
{
    all_hold(gate.ones, true, &wires.bits) && all_hold(gate.zeros, false, &wires.bits)
}

// "a NOT flips its target and a swap exchanges its two wires; otherwise the gate changes nothing"
fn act(gate: &Gate, wires: Wires) -> Wires
    ensures { result ≡ in_state (act (gate_in gate.now) (state_in wires.bits)) wires }
{
    if !fires(gate, &wires) {
        return wires;
    }
    match gate.action {
        Action::Not(target) => wires::flip(wires, target),
        Action::Swap(target, second) => wires::swap(wires, target, second),
    }
}

// Each gate is read, checked and let act, then the next: the wires behind the last one, where the gates fill the input.
fn run_gates(input: &[u8], most: u8, count: u32, wires: Wires) -> Option<Wires>
    ensures { wires_at_end result ≡ ran_of wires (read_gates most count (input_of input.now)) }
{
    let mut current = wires;
    let mut left = input;
    for _ in 0..count {
        let (gate, rest) = circuit::read_gate(left, most)?;
        current = act(&gate, current);
        left = rest;
    }
    left.is_empty().then_some(current)
}

// "A refusal gives its number and otherwise zeros."
fn refused(why: Refusal) -> CircuitBlock
    ensures { result ≡ refused_block (number_of why) }
{
    CircuitBlock {
        number: u32::from(why),
        data: 0,
        ancillas: 0,
        bits: [0u8; BLOCK_LENGTH],
    }
}

// "Reading a circuit gives 14 before 13."
#[tactic(auto, using(crate::proofs::CircuitRunAnswer::answering))]
fn answer(ended: Option<Wires>, word: u64) -> CircuitBlock
    ensures { result ≡ end_answer word (wires_at_end ended) }
{
    match ended {
        None => refused(Refusal::NotWellFormed),
        Some(wires) if fits(word, wires.data) => {
            let bits = wires.bits;
            CircuitBlock {
                number: 0,
                data: wires.data,
                ancillas: wires.ancillas,
                bits,
            }
        }
        Some(_) => refused(Refusal::HighBit),
    }
}

// The circuit run: the whole block of a circuit that is well formed, from a data word and zero ancillas.
pub fn run_circuit(bytes: &[u8], word: u64) -> CircuitBlock
    ensures { result ≡ block_answer (circuit_run bytes.now word) }
{
    let Some((header, gates)) = circuit::read_header(bytes) else {
        return refused(Refusal::NotWellFormed);
    };
    let wires = wires::start(header.qubits, header.ancillas, word);
    answer(run_gates(gates, header.wires, header.gates, wires), word)
}
