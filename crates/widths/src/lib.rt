// Widths: refusal 11, and the width of every statement, counted once and kept with the program.
#![tactic(auto)]

ghost use Rattle.std.specs.Prelude.{◌≡◌, suc};
ghost use Rattle.decoded.specs.DecodedTable.{procedure_count};
ghost use Rattle.reach.specs.Matrix.{recursive_in};
ghost use Rattle.widths.specs.KeptWidths.{joined_width, Noted, Judged};

use decoded::{Parts, Program};
use limits::MOST_DEPTH;
use reach::{Matrix, recursive};

// The width of two statements: in turn the sum, of which more than 2 is no more than 2; of which one is chosen the larger.
fn joined(in_turn: bool, first: u8, second: u8) -> u8
    ensures { result ≡ joined_width in_turn first second }
{
    if in_turn {
        first.saturating_add(second).min(2)
    } else {
        first.max(second)
    }
}

// "Width: skip and NOT 0, sequence the sum, if and qcase the larger, recursive call 1, other call 0": of the statement at record i, in the body of f. The widths of
// all statements in it are kept. More than 2 is given as 2.
fn note_widths(program: &mut Program, i: u32, depth: u8, f: u8, matrix: &Matrix) -> u8
    ensures { Noted (recursive_in matrix.now f) depth i program.old result program.new }
{
    if depth == 0 {
        program.note_width(i, 0);
        return 0;
    }
    match program.parts_at(i) {
        Parts::Neither => {
            program.note_width(i, 0);
            0
        }
        Parts::Two(a, b, in_turn) => {
            let first = note_widths(program, a, depth - 1, f, matrix);
            let second = note_widths(program, b, depth - 1, f, matrix);
            let width = joined(in_turn, first, second);
            program.note_width(i, width);
            width
        }
        Parts::Call(g, _) => {
            let width = u8::from(recursive(matrix, f, g));
            program.note_width(i, width);
            width
        }
    }
}

// Refusal 11: is one of the bodies too wide? Up to the first that is, the widths of all their statements are kept; where none is, all of them.
pub fn any_too_wide(program: &mut Program, matrix: &Matrix) -> bool
    ensures { Judged matrix.now program.old (suc (procedure_count program.old)) result program.new }
{
    for f in 0..=program.procedures() {
        let top = program.root(f);
        if 1 < note_widths(program, top, MOST_DEPTH, f, matrix) {
            return true;
        }
    }
    false
}
