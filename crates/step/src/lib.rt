// What the step of a record asks of a list of qubits, which is a set: values of numbers, removals, the qubit that is touched, and whether a condition holds.
#![tactic(auto)]

ghost use Rattle.std.specs.Prelude.{cond, ◌≡◌, ◌≤◌, min};
ghost use Rattle.limits.specs.Sizes.{set_length};
ghost use Rattle.model.specs.Limits.{most_qubits};
ghost use Rattle.model.specs.Lists.{qubits, remaining, holds};
ghost use Rattle.sets.specs.Sets.{members_of};
ghost use Rattle.decoded.specs.DecodedTable.{removals_in, test_at};
ghost use Rattle.decoded.specs.Steps.{touched_by};
ghost use Rattle.step.specs.Values.{sum_of, value_of, nothing_removed};

use decoded::{Program, Row, Step};
use limits::{MOST_CONSTANT, MOST_QUBITS};
use records::Number;
use sets::{QubitSet, entry, full, remove, size};

// What a number can add the size of: the procedure's whole list, and what the removals already done in the record have left of it.
#[derive(Drop)]
pub struct Lists {
    pub whole: QubitSet,
    pub left: QubitSet,
}

// Main's list: qubits 1 to n, of as many as there can be.
pub fn all(n: u8) -> QubitSet
    ensures { members_of result ≡ qubits (min n most_qubits) }
{
    full(n.min(MOST_QUBITS))
}

// A constant and a size. No table has a constant above 16 bits; without the test the sum could leave i32.
fn sum(constant: i32, size: u8) -> i32
    ensures { result ≡ sum_of constant size }
{
    if constant > MOST_CONSTANT {
        return 0;
    }
    constant + size as i32
}

// A number's value: its constant, alone or with one of the sizes.
fn value(a: Number, lists: Lists) -> i32
    ensures { result ≡ value_of a lists }
{
    match a {
        Number::Constant(z) => z,
        Number::SizePlus(z) => sum(z, size(lists.whole)),
        Number::LeftPlus(z) => sum(z, size(lists.left)),
    }
}

// What the removals of the record in a row leave of a list, "each from what the last one left"; each number may take the size of what is left just before it.
pub fn remaining(program: &Program, at: Row, list: QubitSet) -> QubitSet
    ensures { members_of result ≡ remaining (removals_in program.now at) (members_of list) }
{
    let mut rest = list;
    for k in 0..program.removal_count(at) {
        // nothing is left to remove
        if rest == 0 {
            break;
        }
        let lists = Lists {
            whole: list,
            left: rest,
        };
        rest = remove(rest, value(program.removal(at, k), lists));
    }
    rest
}

// "NOT and qcase touch the entry at position a of the remaining list"; 0 where they touch nothing.
pub fn touched(program: &Program, at: Row, list: QubitSet) -> u8
    ensures value { result ≡ touched_by program.now at (members_of list) }
    ensures upper_bound { result ≤ set_length }
{
    let rest = remaining(program, at, list);
    let lists = Lists {
        whole: list,
        left: rest,
    };
    entry(rest, value(program.first_number(at), lists))
}

// The value of a number of a comparison: nothing is removed.
fn compared(a: Number, list: QubitSet) -> i32
    ensures { result ≡ value_of a (nothing_removed list) }
{
    let lists = Lists {
        whole: list,
        left: list,
    };
    value(a, lists)
}

// Does the condition at record i hold for its numbers? It is followed `depth` records down; a statement there is no condition and holds.
fn holds(program: &Program, i: u32, list: QubitSet, depth: u8) -> bool
    ensures { result ≡ holds (test_at program.now depth i) (members_of list) }
{
    if depth == 0 {
        return true;
    }
    match program.step_at(i) {
        Step::Greater(at) => {
            compared(program.first_number(at), list) > compared(program.second_number(at), list)
        }
        Step::AtLeast(at) => {
            compared(program.first_number(at), list) >= compared(program.second_number(at), list)
        }
        Step::Equal(at) => {
            compared(program.first_number(at), list) == compared(program.second_number(at), list)
        }
        Step::Both(first, second) => {
            holds(program, first, list, depth - 1) && holds(program, second, list, depth - 1)
        }
        Step::Either(first, second) => {
            holds(program, first, list, depth - 1) || holds(program, second, list, depth - 1)
        }
        Step::Negates(first) => !holds(program, first, list, depth - 1),
        Step::Nothing
        | Step::Touches(_)
        | Step::Sequence(_, _)
        | Step::Chooses(_, _, _)
        | Step::Branches(_, _, _)
        | Step::Calls(_, _) => true,
    }
}

// An if goes on as one of its two statements: as `yes` where the condition at record c holds, otherwise as `no`.
pub fn chosen(program: &Program, c: u32, yes: u32, no: u32, list: QubitSet, depth: u8) -> u32
    ensures { result ≡ cond (holds (test_at program.now depth c) (members_of list)) yes no }
{
    if holds(program, c, list, depth) {
        yes
    } else {
        no
    }
}
