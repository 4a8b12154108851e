// Which procedure reaches which, and refusal 10: a recursive call without removal.
#![tactic(auto)]

ghost use Rattle.std.specs.Prelude.{◌≡◌, suc};
ghost use Rattle.model.specs.Reach.{lacks_removal, any_below};
ghost use Rattle.decoded.specs.DecodedTable.{statement_at, body_at};
ghost use Rattle.reach.specs.Matrix.{row_in, has, recursive_in, mark, joined, through, closed};
ghost use Rattle.reach.specs.CallsInATable.{marked, marked_below, reach_at, lacks_in, any_lacks_in};

use decoded::{Parts, Program};
use limits::{BODY_COUNT, MOST_DEPTH, MOST_PROCEDURES};

// Which procedure reaches which: a row for each body, main at 0, in which bit g stands where the body reaches g.
pub type Matrix = [u32; BODY_COUNT];

// Does a row have g?
fn has(row: u32, g: u8) -> bool
    ensures { result ≡ has row g }
{
    g <= MOST_PROCEDURES && (row >> g) & 1 == 1
}

// The row of f; past the last body there is none.
fn row_at(matrix: &Matrix, f: u8) -> u32
    ensures { result ≡ row_in matrix.now f }
{
    matrix.get(f as usize).copied().unwrap_or(0)
}

// "A call from f to g is recursive if g also reaches f"
pub fn recursive(matrix: &Matrix, f: u8, g: u8) -> bool
    ensures { result ≡ recursive_in matrix.now f g }
{
    has(row_at(matrix, g), f)
}

// A mark at row f, column g.
fn mark(matrix: &mut Matrix, f: u8, g: u8)
    ensures { matrix.new ≡ mark f g matrix.old }
{
    if f <= MOST_PROCEDURES && g <= MOST_PROCEDURES {
        matrix[f as usize] |= 1u32 << g;
    }
}

// What reaches v reaches what v reaches.
fn joined(v: u8, of_v: u32, row: u32) -> u32
    ensures { result ≡ joined v of_v row }
{
    if has(row, v) { row | of_v } else { row }
}

// All rows go through v.
fn go_through(matrix: &mut Matrix, v: u8)
    ensures { matrix.new ≡ through v matrix.old }
{
    let of_v = row_at(matrix, v);
    for row in matrix.iter_mut() {
        *row = joined(v, of_v, *row);
    }
}

// All rows go through main and each procedure, one after the other.
fn close(matrix: &mut Matrix, p: u8)
    ensures { matrix.new ≡ closed (suc p) matrix.old }
{
    for v in 0..=p {
        go_through(matrix, v);
    }
}

// Row f is marked for every call in the statement at record i, of at most `depth` records from its root down.
fn mark_calls(program: &Program, i: u32, depth: u8, f: u8, matrix: &mut Matrix)
    ensures { matrix.new ≡ marked f (statement_at program.now depth i) matrix.old }
{
    if depth == 0 {
        return;
    }
    match program.parts_at(i) {
        Parts::Neither => {}
        Parts::Two(a, b, _) => {
            mark_calls(program, a, depth - 1, f, matrix);
            mark_calls(program, b, depth - 1, f, matrix);
        }
        Parts::Call(g, _) => mark(matrix, f, g),
    }
}

// Row f is marked for every call in the body of f.
fn mark_body(program: &Program, f: u8, matrix: &mut Matrix)
    ensures { matrix.new ≡ marked f (body_at program.now f) matrix.old }
{
    mark_calls(program, program.root(f), MOST_DEPTH, f, matrix);
}

// The rows of main and procedures 1 to p are marked, each for every call in its body.
fn mark_bodies(program: &Program, p: u8, matrix: &mut Matrix)
    ensures { matrix.new ≡ marked_below (body_at program.now) (suc p) matrix.old }
{
    for f in 0..=p {
        mark_body(program, f, matrix);
    }
}

// Which procedure reaches which, in the program of a table with p procedures. Of more than a table can have, nothing is marked.
pub fn fill_reach(program: &Program, matrix: &mut Matrix)
    ensures { matrix.new ≡ reach_at program.now }
{
    *matrix = [0; BODY_COUNT];
    let p = program.procedures();
    if MOST_PROCEDURES < p {
        return;
    }
    mark_bodies(program, p, matrix);
    close(matrix, p);
}

// Does a recursive call in the statement at record i, in the body of f, lack a removal?
fn lacks_removal(program: &Program, i: u32, depth: u8, f: u8, matrix: &Matrix) -> bool
    ensures { result ≡ lacks_removal (recursive_in matrix.now f) (statement_at program.now depth i) }
{
    if depth == 0 {
        return false;
    }
    match program.parts_at(i) {
        Parts::Neither => false,
        Parts::Two(a, b, _) => {
            lacks_removal(program, a, depth - 1, f, matrix)
                || lacks_removal(program, b, depth - 1, f, matrix)
        }
        Parts::Call(g, at) => program.removal_count(at) == 0 && recursive(matrix, f, g),
    }
}

// Does a recursive call in the body of f lack a removal?
fn body_lacks_removal(program: &Program, f: u8, matrix: &Matrix) -> bool
    ensures { result ≡ lacks_in matrix.now program.now f }
{
    lacks_removal(program, program.root(f), MOST_DEPTH, f, matrix)
}

// Refusal 10: does a recursive call in one of the bodies lack a removal? A loop: of `any` over a range std says nothing that a proof can use.
pub fn any_lacks_removal(program: &Program, matrix: &Matrix) -> bool
    ensures { result ≡ any_lacks_in matrix.now program.now }
{
    for f in 0..=program.procedures() {
        if body_lacks_removal(program, f, matrix) {
            return true;
        }
    }
    false
}
