// Whole tables: trees in preorder are read with refusals 1 to 8, and every record is put down in the program as it is read.
#![tactic(auto)]

ghost use Rattle.std.specs.Prelude.{◌≡◌, ◌+◌, ◌<◌, true, false};
ghost use Rattle.model.specs.Limits.{most_records};
ghost use Rattle.model.specs.Reading.{read_table};
ghost use Rattle.model.specs.Answers.{outcome};
ghost use Rattle.records.specs.Fields.{kind_number};
ghost use Rattle.table.specs.ReadTable.{outcome_read, PlacedRead};
ghost use Rattle.table.specs.TreeReading.{ran, WantedKind, parts, contents_at, many, children_at, tree_at, bodies_at};

use decoded::Program;
use limits::{MOST_DEPTH, MOST_PROCEDURES, MOST_RECORDS, Refusal, TABLE_EDITION};
use records::{Kind, Record, next_byte, permitted, read_fields, removes};

// A table, with its number of procedures.
#[derive(Clone, Copy)]
struct Source<'a> {
    table: &'a [u8],
    p: u8,
}

// How far reading has come: the place behind what was read, and the number of records so far.
#[derive(Clone, Copy)]
struct Come {
    at: usize,
    records: usize,
}

// The kind of condition, or else of statement, that a byte stands for.
#[tactic(auto, unfolding(crate::specs::TreeReading::wanted))]
fn wanted(tests: bool, byte: u8) -> Result<Kind, Refusal>
    ensures { WantedKind tests byte result }
{
    let kind = Kind::try_from(byte)?;
    if kind.is_condition() != tests {
        return Err(Refusal::WrongKind);
    }
    Ok(kind)
}

// How many conditions, and then how many statements, stand behind a record of this kind.
#[tactic(auto, unfolding(crate::specs::TreeReading::parts))]
fn parts(kind: Kind) -> (u8, u8)
    ensures { result ≡ (parts true (kind_number kind), parts false (kind_number kind)) }
{
    match kind {
        Kind::Skip | Kind::Not | Kind::Call => (0, 0),
        Kind::Greater | Kind::AtLeast | Kind::Equal => (0, 0),
        Kind::Sequence | Kind::Qcase => (0, 2),
        Kind::If => (1, 2),
        Kind::And | Kind::Or => (2, 0),
        Kind::Negation => (1, 0),
    }
}

impl Source<'_> {
    // What comes behind 7 in a record, whose fields stand at `at`: "5, then each field 1 and 6".
    #[tactic(auto, unfolding(crate::specs::TreeReading::contents_at))]
    fn read_contents(self, at: usize, map: u8, kind: Kind) -> Result<(Record, usize), Refusal>
        ensures { result ≡ contents_at self.entry.p map (kind_number kind) self.entry.table.now at }
    {
        let kind = kind as u8;
        if !permitted(kind, map) {
            return Err(Refusal::WrongMap);
        }
        read_fields(self.table, at, kind, removes(map), self.p)
    }

    // A tree of at most `depth` records from its root down: a condition, or else a statement.
    #[cycle(reading)]
    fn read_tree(
        self,
        from: Come,
        depth: u8,
        tests: bool,
        program: &mut Program,
    ) -> Result<Come, Refusal>
        ensures { ran result program.new ≡ tree_at self.entry.p self.entry.table.now depth tests from.at from.records program.old }
    {
        let map = next_byte(self.table, from.at)?;
        let kind = wanted(tests, next_byte(self.table, from.at + 1)?)?;
        if depth == 0 || MOST_RECORDS <= from.records {
            return Err(Refusal::TooDeep);
        }
        let (record, next) = self.read_contents(from.at + 2, map, kind)?;
        program.put_record(self.table, record, from.at, from.records);
        self.read_children(Come { at: next, ..from }, depth - 1, kind, program)
    }

    // The children of a record of this kind, whose fields are read: conditions, then statements. The record behind them is noted.
    #[cycle(reading)]
    fn read_children(
        self,
        from: Come,
        depth: u8,
        kind: Kind,
        program: &mut Program,
    ) -> Result<Come, Refusal>
        requires { from.records < most_records }
        ensures { ran result program.new ≡ children_at (tree_at self.entry.p self.entry.table.now depth) (kind_number kind) from.at from.records program.old }
    {
        let (conditions, statements) = parts(kind);
        let first = Come {
            at: from.at,
            records: from.records + 1,
        };
        if conditions == 0 && statements == 0 {
            program.note_end(from.records, first.records);
            return Ok(first);
        }
        let middle = self.read_many(first, depth, conditions, true, program)?;
        let end = self.read_many(middle, depth, statements, false, program)?;
        program.note_end(from.records, end.records);
        Ok(end)
    }

    // So many trees, one after the other.
    #[cycle(reading)]
    fn read_many(
        self,
        from: Come,
        depth: u8,
        count: u8,
        tests: bool,
        program: &mut Program,
    ) -> Result<Come, Refusal>
        ensures { ran result program.new ≡ many (tree_at self.entry.p self.entry.table.now depth tests) count from.at from.records program.old }
    {
        let mut come = from;
        for _ in 0..count {
            come = self.read_tree(come, depth, tests, program)?;
        }
        Ok(come)
    }

    // The bodies of procedures 0 to p, main at 0: the root of each is noted.
    fn read_bodies(self, program: &mut Program) -> Result<Come, Refusal>
        ensures { ran result program.new ≡ bodies_at self.entry.p self.entry.table.now (self.entry.p + 1) 0 2 0 program.old }
    {
        let mut come = Come { at: 2, records: 0 };
        for f in 0..self.p as usize + 1 {
            program.note_root(f, come.records);
            come = self.read_tree(come, MOST_DEPTH, false, program)?;
        }
        Ok(come)
    }
}

// "header 1 (fewer than two bytes), 2, 3", then the main statement and the bodies of procedures 1 to p, then 8 where bytes are left.
// What the answer says, with the program that is left, is what the model reads, and the program says where in the table each statement stands.
#[tactic(auto, using(crate::proofs::WholeTable::placed_none), unfolding(crate::specs::ReadTable::PlacedRead))]
pub fn read_table(table: &[u8], program: &mut Program) -> Result<(), Refusal>
    ensures program_after { outcome_read result program.new ≡ outcome (read_table table.now) }
    ensures placed_read { PlacedRead result table.now program.new }
{
    let [edition, p, ..] = *table else {
        return Err(Refusal::TableStops);
    };
    if edition != TABLE_EDITION {
        return Err(Refusal::WrongEdition);
    }
    if MOST_PROCEDURES < p {
        return Err(Refusal::ManyProcedures);
    }
    program.put_count(p);
    let end = Source { table, p }.read_bodies(program)?;
    if end.at < table.len() {
        return Err(Refusal::BytesLeft);
    }
    Ok(())
}
