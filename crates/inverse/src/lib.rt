// Document 02, S-5: the inverse of a table, in one walk over the tree that was read. Every record is copied once, as it stands; of a sequence the second
// statement comes before the first.
#![tactic(auto)]

ghost use Rattle.std.specs.Prelude.{◌≡◌, suc, length};
ghost use Rattle.model.specs.Answers.{inverse_table, room_after};
ghost use Rattle.answers.specs.Structs.{outcome_of, given_length};
ghost use Rattle.decoded.specs.DecodedTable.{procedure_count};
ghost use Rattle.table.specs.ReadTable.{piece, body_end};
ghost use Rattle.text.specs.AppendedBytes.{puts};
ghost use Rattle.inverse.specs.TurnedRecords.{turned_at, turned_body, turned_below, turned_table};

use decoded::{Parts, Program};
use limits::{MOST_DEPTH, Refusal};
use text::Writer;
use verdict::check_table;

// The bytes of the table from one place up to another.
#[tactic(auto, using(crate::proofs::CopiedRecords::piece_put))]
fn put_piece(table: &[u8], from: usize, to: usize, writer: &mut Writer)
    ensures { writer.new ≡ puts (piece table.now from to) writer.old }
{
    let end = to.min(table.len());
    writer.put_all(&table[from.min(end)..end]);
}

// Table, program and writer stay parameters: each promise on a struct of them would have to say that two of the three stay.
// The statement at record i, whose bytes stand up to `end`, turned round: what stands before its own statements, and then these.
fn put_turned(table: &[u8], program: &Program, i: u32, end: usize, depth: u8, writer: &mut Writer)
    ensures { writer.new ≡ puts (turned_at table.now program.now depth i end) writer.old }
{
    let from = program.start(i);
    if depth == 0 {
        put_piece(table, from, end, writer);
        return;
    }
    match program.parts_at(i) {
        Parts::Neither | Parts::Call(_, _) => put_piece(table, from, end, writer),
        Parts::Two(first, second, in_turn) => {
            let middle = program.start(second);
            put_piece(table, from, program.start(first), writer);
            if in_turn {
                put_turned(table, program, second, end, depth - 1, writer);
                put_turned(table, program, first, middle, depth - 1, writer);
                return;
            }
            put_turned(table, program, first, middle, depth - 1, writer);
            put_turned(table, program, second, end, depth - 1, writer);
        }
    }
}

// Where the body of f ends: where the next one starts, or with the table.
fn body_end(table: &[u8], program: &Program, f: u8) -> usize
    ensures { result ≡ body_end table.now program.now f }
{
    if f < program.procedures() {
        return program.start(program.root(f + 1));
    }
    table.len()
}

// The body of f, main at 0, turned round.
fn put_body(table: &[u8], program: &Program, f: u8, writer: &mut Writer)
    ensures { writer.new ≡ puts (turned_body table.now program.now f) writer.old }
{
    let end = body_end(table, program, f);
    put_turned(table, program, program.root(f), end, MOST_DEPTH, writer);
}

// The bodies of main and each procedure, one behind the other, each turned round.
fn put_bodies(table: &[u8], program: &Program, writer: &mut Writer)
    ensures { writer.new ≡
        puts (turned_below table.now program.now (suc (procedure_count program.now))) writer.old }
{
    for f in 0..=program.procedures() {
        put_body(table, program, f, writer);
    }
}

// The whole table: edition and p as they stand, then the bodies.
fn put_table(table: &[u8], program: &Program, writer: &mut Writer)
    ensures { writer.new ≡ puts (turned_table table.now program.now) writer.old }
{
    put_piece(table, 0, 2, writer);
    put_bodies(table, program, writer);
}

// "9; header 1 .., 2, 3; each record ..; 8; 10 over the whole table, then 11, then 12", then 24 for a room that is shorter than the table; then the
// inverse's bytes, which are as many as the table's.
pub fn inverse(table: &[u8], n: u32, room: &mut [u8]) -> Result<usize, Refusal>
    ensures value { outcome_of result ≡ given_length (inverse_table table.now n (length room.old)) }
    ensures room_after { room.new ≡ room_after (inverse_table table.now n (length room.old)) room.old }
{
    let mut program = Program::new();
    check_table(table, n, &mut program)?;
    if room.len() < table.len() {
        return Err(Refusal::ShortTableRoom);
    }
    let mut writer = Writer::new(room);
    put_table(table, &program, &mut writer);
    Ok(writer.length())
}
