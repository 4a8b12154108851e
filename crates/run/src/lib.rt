// The run of a word: one walk through the table, along the one path that the word takes.
#![tactic(auto)]

ghost use Rattle.std.specs.Prelude.{cond, ◌≡◌, min};
ghost use Rattle.model.specs.Limits.{most_qubits};
ghost use Rattle.decoded.specs.DecodedTable.{program_at};
ghost use Rattle.sets.specs.Sets.{members_of};
ghost use Rattle.run.specs.RunOnWords.{flipped_word, bit_of, walked, called, ran_word};
ghost use Rattle.answers.specs.Structs.{outcome_of};
ghost use Rattle.model.specs.Answers as model;

use decoded::{Program, Step};
use limits::{LEAST_WORKSPACE, MOST_DEPTH, MOST_QUBITS, Refusal};
use sets::{QubitSet, size};
use step::{all, chosen, remaining, touched};
use verdict::check_table;
use wires::fits;

// The word with the bit of a qubit flipped: qubit q is bit q - 1. Numbers that are no qubit's change nothing.
fn flip(word: u64, q: u8) -> u64
    ensures { result ≡ flipped_word q word }
{
    if q == 0 || MOST_QUBITS < q {
        return word;
    }
    word ^ (1u64 << (q - 1))
}

// The bit of a qubit; no bit of a number that is no qubit's.
fn bit(word: u64, q: u8) -> bool
    ensures { result ≡ bit_of q word }
{
    if q == 0 || MOST_QUBITS < q {
        return false;
    }
    (word >> (q - 1)) & 1 == 1
}

// A qcase goes on as one of its two statements: as `one` where the bit of its qubit is 1, otherwise as `zero`.
fn taken(word: u64, q: u8, zero: u32, one: u32) -> u32
    ensures { result ≡ cond (bit_of q word) one zero }
{
    if bit(word, q) { one } else { zero }
}

// The program stays a parameter here and in crates step, reach and compile: it is what is asked, and with nothing else always.
// What the statement at record i makes of a word, on the whole list of its procedure. It is followed `depth` records down, and its calls
// `fuel` deep. An if, a qcase and the second statement of a sequence go on in place.
#[cycle(walking)]
fn walk(program: &Program, i: u32, depth: u8, list: QubitSet, fuel: u16, word: u64) -> u64
    ensures { result ≡ walked program.now depth i (members_of list) fuel word }
{
    let mut at = i;
    let mut current = word;
    for left in (0..depth).rev() {
        match program.step_at(at) {
            Step::Touches(record) => {
                let q = touched(program, record, list);
                return flip(current, q);
            }
            Step::Sequence(first, second) => {
                current = walk(program, first, left, list, fuel, current);
                at = second;
            }
            Step::Chooses(condition, yes, no) => at = chosen(
                program, condition, yes, no, list, left,
            ),
            Step::Branches(record, zero, one) => {
                let q = touched(program, record, list);
                at = taken(current, q, zero, one);
            }
            Step::Calls(f, record) => return call(
                program,
                f,
                remaining(program, record, list),
                fuel,
                current,
            ),
            Step::Nothing
            | Step::Greater(_)
            | Step::AtLeast(_)
            | Step::Equal(_)
            | Step::Both(_, _)
            | Step::Either(_, _)
            | Step::Negates(_) => return current,
        }
    }
    current
}

// What a call of procedure f makes of a word: its body goes on with the list that the removals left, and with all its depth. No table that was
// read calls a procedure past p.
#[cycle(walking)]
fn call(program: &Program, f: u8, list: QubitSet, fuel: u16, word: u64) -> u64
    ensures { result ≡ called program.now f (members_of list) fuel word }
{
    if fuel == 0 || list == 0 {
        return word;
    }
    if program.procedures() < f {
        return word;
    }
    walk(program, program.root(f), MOST_DEPTH, list, fuel - 1, word)
}

// What main makes of a word on n qubits; past the limit there are no more.
fn end_word(program: &Program, n: u8, word: u64) -> u64
    ensures { result ≡ ran_word (program_at program.now) (min n most_qubits) word }
{
    let list = all(n);
    walk(
        program,
        program.root(0),
        MOST_DEPTH,
        list,
        program.procedures() as u16 + size(list) as u16,
        word,
    )
}

// The run: "9; header 1 .., 2, 3; each record ..; 8; 10 over the whole table, then 11, then 12; 13; 21", then the end word; for a workspace of that length.
pub fn run(table: &[u8], n: u32, word: u64, space: usize) -> Result<u64, Refusal>
    ensures { outcome_of result ≡ model.run table.now n word space }
{
    let mut program = Program::new();
    let qubits = check_table(table, n, &mut program)?;
    if !fits(word, qubits) {
        return Err(Refusal::HighBit);
    }
    if space < LEAST_WORKSPACE {
        return Err(Refusal::ShortWorkspace);
    }
    Ok(end_word(&program, qubits, word))
}
