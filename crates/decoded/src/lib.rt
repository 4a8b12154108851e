// A table decoded: every record that was read is put down once, with what check, run and emission ask of it. This crate owns the program: where a record stands,
// what is asked of it and what is put down there. No other crate sees its fields.
#![tactic(auto)]

ghost use Rattle.std.specs.Prelude.{◌≡◌, [], ◌∷◌, ltb, length};
ghost use Rattle.decoded.specs.Layout.{record_count, root_count, removal_room};
ghost use Rattle.decoded.specs.DecodedTable.{
  nothing_read,
  constant_kept,
  kept,
  start_of,
  end_of,
  width_in,
  root_of,
  procedure_count,
  removals_in,
  first_number,
  second_number,
  removal_number,
};
ghost use Rattle.decoded.specs.Steps.{step_at, parts_of, parts_at};

use limits::{MOST_CONSTANT, MOST_RECORDS, MOST_REMOVALS};
use records::{Number, Record};

// Record numbers are below RECORD_COUNT. There are as many roots as a byte has numbers: a procedure's number needs no test.
const RECORD_COUNT: usize = MOST_RECORDS + 1;

const ROOT_COUNT: usize = 256;

const REMOVAL_ROOM: usize = MOST_REMOVALS as usize;

// The removals of a record: so many numbers, the first one first. There is room for the most that a record has: an array and a count, since there is no heap.
// The count is as wide as a number's constant: with no gap before the numbers a program of blank entries is cleared in one go, where a gap has it cleared, filled and
// copied.
#[derive(Clone, Copy)]
struct Removals {
    count: u32,
    numbers: [Number; REMOVAL_ROOM],
}

const NO_REMOVALS: Removals = Removals {
    count: 0,
    numbers: [Number::Constant(0); REMOVAL_ROOM],
};

// What is put down of a record: the record as it was read, its removals, its place in the table, the record behind its subtree, and its width.
#[derive(Clone, Copy)]
struct Entry {
    read: Record,
    removals: Removals,
    place: u16,
    end: u16,
    width: u8,
}

const BLANK: Entry = Entry {
    read: Record::Skip,
    removals: NO_REMOVALS,
    place: 0,
    end: 0,
    width: 0,
};

// How many procedures there are, the root of each body, and what was put down of each record.
#[derive(Clone, Copy)]
pub struct Program {
    procedures: u8,
    roots: [u16; ROOT_COUNT],
    entries: [Entry; RECORD_COUNT],
}

impl Program {
    // Of no table yet.
    pub fn new() -> Self
        ensures { result ≡ nothing_read }
    {
        Program {
            procedures: 0,
            roots: [0; ROOT_COUNT],
            entries: [BLANK; RECORD_COUNT],
        }
    }
}

// A record by its number: a step hands it on. Records name one another so, since there is no heap.
pub type Row = u32;

mod write;

// What a record does, whatever the list. Children go by their numbers, removals and numbers by the record's own.
#[derive(Drop)]
pub enum Step {
    // skip
    Nothing,
    // NOT: its row
    Touches(Row),
    // sequence: first, second
    Sequence(u32, u32),
    // if: condition, yes, no
    Chooses(u32, u32, u32),
    // qcase: its row, zero, one
    Branches(Row, u32, u32),
    // call: the procedure, its row
    Calls(u8, Row),
    // comparisons, greater, at least and equal: their row
    Greater(Row),
    AtLeast(Row),
    Equal(Row),
    // and: first, second
    Both(u32, u32),
    // or: first, second
    Either(u32, u32),
    // not: the one
    Negates(u32),
}

// What a record is for calls: a statement without parts, one of two parts, which come in turn or of which one is chosen, or a call with its row.
#[derive(Drop)]
pub enum Parts {
    Neither,
    Two(u32, u32, bool),
    Call(u8, Row),
}

// Each size is the definition's.
fn layout() -> [usize; 3]
    ensures { result ≡ record_count ∷ root_count ∷ removal_room ∷ [] }
{
    [RECORD_COUNT, ROOT_COUNT, REMOVAL_ROOM]
}

// A constant as it is taken from the program: no table has one above 16 bits, and one that had counts as 0.
fn constant_kept(z: i32) -> i32
    ensures { result ≡ constant_kept z }
{
    if MOST_CONSTANT < z { 0 } else { z }
}

// So a number.
#[tactic(auto, unfolding(crate::specs::DecodedTable::kept))]
fn kept(a: Number) -> Number
    ensures { result ≡ kept a }
{
    match a {
        Number::Constant(z) => Number::Constant(constant_kept(z)),
        Number::SizePlus(z) => Number::SizePlus(constant_kept(z)),
        Number::LeftPlus(z) => Number::LeftPlus(constant_kept(z)),
    }
}

// What a step is for calls.
#[tactic(auto, unfolding(crate::specs::Steps::parts_of))]
fn parts_of(found: Step) -> Parts
    ensures { result ≡ parts_of found }
{
    match found {
        Step::Sequence(first, second) => Parts::Two(first, second, true),
        Step::Chooses(_, yes, no) => Parts::Two(yes, no, false),
        Step::Branches(_, zero, one) => Parts::Two(zero, one, false),
        Step::Calls(g, at) => Parts::Call(g, at),
        _ => Parts::Neither,
    }
}

impl Program {
    // How many procedures has the program?
    pub fn procedures(&self) -> u8
        ensures { result ≡ procedure_count self.now }
    {
        self.procedures
    }

    // The root of the body of f, main at 0.
    pub fn root(&self, f: u8) -> u32
        ensures { result ≡ root_of self.now f }
    {
        self.roots[f as usize] as u32
    }

    // Where record i begins in the table.
    pub fn start(&self, i: u32) -> usize
        ensures { result ≡ start_of self.now i }
    {
        self.entries
            .get(i as usize)
            .map_or(0, |entry| entry.place as usize)
    }

    // Is the statement at record i wide? Is the call there recursive?
    pub fn is_wide(&self, i: u32) -> bool
        ensures { result ≡ ltb 0 (width_in self.now i) }
    {
        self.entries
            .get(i as usize)
            .map_or(false, |entry| 0 < entry.width)
    }

    // The record behind the subtree of record i.
    fn subtree_end(&self, i: u32) -> u32
        ensures { result ≡ end_of self.now i }
    {
        self.entries
            .get(i as usize)
            .map_or(0, |entry| entry.end as u32)
    }

    // Number a of record i.
    #[tactic(auto, unfolding(crate::specs::DecodedTable::number_a, crate::specs::DecodedTable::kept_record))]
    pub fn first_number(&self, at: Row) -> Number
        ensures { result ≡ first_number self.now at }
    {
        let Some(entry) = self.entries.get(at as usize) else {
            return Number::Constant(0);
        };
        match entry.read {
            Record::Not(_, a) | Record::Qcase(_, a) => kept(a),
            Record::Greater(a, _) | Record::AtLeast(a, _) | Record::Equal(a, _) => kept(a),
            _ => Number::Constant(0),
        }
    }

    // Number b of a comparison.
    #[tactic(auto, unfolding(crate::specs::DecodedTable::number_b, crate::specs::DecodedTable::kept_record))]
    pub fn second_number(&self, at: Row) -> Number
        ensures { result ≡ second_number self.now at }
    {
        let Some(entry) = self.entries.get(at as usize) else {
            return Number::Constant(0);
        };
        match entry.read {
            Record::Greater(_, b) | Record::AtLeast(_, b) | Record::Equal(_, b) => kept(b),
            _ => Number::Constant(0),
        }
    }

    // How many removals has record i?
    #[tactic(auto, using(crate::proofs::RecordsOfAProgram::removals_length))]
    pub fn removal_count(&self, at: Row) -> u32
        ensures { result ≡ length (removals_in self.now at) }
    {
        self.entries
            .get(at as usize)
            .map_or(0, |entry| entry.removals.count)
    }

    // One of its removals; the first is number 0.
    #[tactic(auto, unfolding(crate::specs::DecodedTable::kept))]
    pub fn removal(&self, at: Row, k: u32) -> Number
        ensures { result ≡ removal_number self.now at k }
    {
        let Some(entry) = self.entries.get(at as usize) else {
            return Number::Constant(0);
        };
        match entry.removals.numbers.get(k as usize) {
            Some(a) => kept(*a),
            None => Number::Constant(0),
        }
    }

    // What record i does: one match over the kinds. Past the last record there is none.
    #[tactic(auto, unfolding(crate::specs::Steps::step_of, crate::specs::DecodedTable::kept_record))]
    pub fn step_at(&self, i: u32) -> Step
        ensures { result ≡ step_at self.now i }
    {
        let Some(entry) = self.entries.get(i as usize) else {
            return Step::Nothing;
        };
        let first = i + 1;
        match entry.read {
            Record::Skip => Step::Nothing,
            Record::Not(_, _) => Step::Touches(i),
            Record::Sequence => Step::Sequence(first, self.subtree_end(first)),
            Record::If => {
                let second = self.subtree_end(first);
                Step::Chooses(first, second, self.subtree_end(second))
            }
            Record::Qcase(_, _) => Step::Branches(i, first, self.subtree_end(first)),
            Record::Call(_, f) => Step::Calls(f, i),
            Record::Greater(_, _) => Step::Greater(i),
            Record::AtLeast(_, _) => Step::AtLeast(i),
            Record::Equal(_, _) => Step::Equal(i),
            Record::And => Step::Both(first, self.subtree_end(first)),
            Record::Or => Step::Either(first, self.subtree_end(first)),
            Record::Negation => Step::Negates(first),
        }
    }

    // What record i is for calls.
    pub fn parts_at(&self, i: u32) -> Parts
        ensures { result ≡ parts_at self.now i }
    {
        parts_of(self.step_at(i))
    }
}
