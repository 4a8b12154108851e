// The answers that C gets, and the conversions that make them. What each says is `answer_of`, `length_answer`, `header_of`, `block_answer` and `band_answer` in
// specs/Structs.antt.
#![tactic(auto)]

ghost use Rattle.std.specs.Prelude.{◌≡◌};
ghost use Rattle.answers.specs.Structs.{outcome_of, answer_of};

use limits::{BLOCK_LENGTH, Refusal};

// A number, and beside 0 the value: a run's end word, or the length of what was written into a room or a text.
#[repr(C)]
#[derive(Clone, Copy)]
pub struct Answer {
    pub number: u32,
    pub value: u64,
}

// "A refusal gives its number and otherwise zeros."
impl From<Result<u64, Refusal>> for Answer {
    ghost from_gives = { λ given answer. answer ≡ answer_of (outcome_of given) };

    #[tactic(auto, unfolding(crate::specs::Structs::answer_of))]
    fn from(given: Result<u64, Refusal>) -> Answer {
        match given {
            Ok(value) => Answer { number: 0, value },
            Err(why) => Answer {
                number: u32::from(why),
                value: 0,
            },
        }
    }
}

// The same of a length.
impl From<Result<usize, Refusal>> for Answer {
    ghost from_gives = { λ given answer. answer ≡ answer_of (outcome_of given) };

    fn from(given: Result<usize, Refusal>) -> Answer {
        Answer::from(given.map(|length| length as u64))
    }
}

// What the circuit reader answers: the header of a circuit that is well formed, or a refusal's number and zeros.
#[repr(C)]
#[derive(Clone, Copy)]
pub struct CircuitHeader {
    pub number: u32,
    pub qubits: u32,
    pub ancillas: u32,
    pub gates: u32,
}

// The whole block of a circuit that was run, or a refusal's number and zeros.
#[repr(C)]
#[derive(Clone, Copy)]
pub struct CircuitBlock {
    pub number: u32,
    pub data: u8,
    pub ancillas: u8,
    pub bits: [u8; BLOCK_LENGTH],
}

// One band of a circuit's page: its length, and the place where the next band begins, 0 behind the last; or a refusal's number and zeros.
#[repr(C)]
#[derive(Clone, Copy)]
pub struct PageBand {
    pub number: u32,
    pub length: u64,
    pub next: u64,
}
