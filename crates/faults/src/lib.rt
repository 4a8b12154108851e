// Refusal 12 in polynomial time: the positions that each body touches of a list of each length, in one table, filled by length and rank. Lengths
// that no call can lead to are left out.
#![tactic(auto)]

ghost use Rattle.std.specs.Prelude.{◌≡◌, min, suc};
ghost use Rattle.model.specs.Limits.{most_qubits};
ghost use Rattle.model.specs.Meaning.{digit};
ghost use Rattle.decoded.specs.DecodedTable.{statement_at, procedure_count};
ghost use Rattle.sets.specs.Sets.{members_of};
ghost use Rattle.faults.specs.TouchedPositions.{call_touches, touches};
ghost use Rattle.faults.specs.Rows.{row_of, row_is, marked, closed_row, place, known_row, known_touches, stored};
ghost use Rattle.faults.specs.CallLengths.{removal_counts, counts_below, sums_below, sums_in};
ghost use Rattle.faults.specs.RowTable.{from_in, rank_in, ranks_in, rank_at};
ghost use Rattle.faults.specs.RowTable.{filled_row, filled_if, filled_rank, filled_length, filled_asked, filled, faults_at};

use decoded::{Parts, Program, Step};
use limits::{BODIES, BODY_COUNT, LENGTH_COUNT, MOST_DEPTH, MOST_QUBITS, ROW_COUNT};
use reach::{Matrix, recursive};
use sets::{QubitSet, carried, size};
use step::{all, chosen, remaining, touched};

// A set of numbers below 64 is a word, whose bit t says whether t is in it. A row is the set of the positions touched, counted from 1; 0 is in it
// for a fault inside.

// The set with one number more; none past 63.
fn mark(word: u64, t: u32) -> u64
    ensures { result ≡ marked word t }
{
    word | 1u64.checked_shl(t).unwrap_or(0)
}

// Is a number in the set?
fn contains(word: u64, t: u8) -> bool
    ensures { result ≡ row_is word t }
{
    t < 64 && (word >> t) & 1 == 1
}

// "Inside its two branches a qcase closes its qubit": where they touch it, at position q, that is a fault.
fn closes(q: u8, row: u64) -> u64
    ensures { result ≡ closed_row q row }
{
    let closed = mark(row, q as u32);
    if contains(row, q) {
        mark(closed, 0)
    } else {
        closed
    }
}

// Where the row of procedure f on lists of length m stands. The rows are one array and not an array for each procedure: the definitions' table is one
// list, and both forms ask for the two numbers wherever a row is meant.
fn place(f: u8, m: u8) -> usize
    ensures { result ≡ place f m }
{
    f as usize * LENGTH_COUNT + m as usize
}

// What procedure f touches of a list of length m, by the table.
fn row_at(known: &[u64; ROW_COUNT], f: u8, m: u8) -> u64
    ensures { result ≡ known_row known.now f m }
{
    known.get(place(f, m)).copied().unwrap_or(0)
}

// What a call of f with a list touches: the positions of the callee's list are the caller's that stand there, and a fault stays one. "A call with
// an empty list does nothing."
fn called(known: &[u64; ROW_COUNT], f: u8, list: QubitSet) -> u64
    ensures { result ≡ row_of (call_touches (known_touches known.now) f (members_of list)) }
{
    if list == 0 {
        return 0;
    }
    let callee = row_at(known, f, size(list));
    (carried(callee >> 1, list) << 1) | (callee & 1)
}

// What the statement at record i touches of a list of m entries, of as many as a list can have, by their positions: both branches of a qcase, the
// chosen branch of an if.
fn touches(program: &Program, i: u32, depth: u8, m: u8, known: &[u64; ROW_COUNT]) -> u64
    ensures { result ≡ row_of (touches (known_touches known.now) (statement_at program.now depth i) (min m most_qubits)) }
{
    if depth == 0 {
        return 0;
    }
    let list = all(m);
    match program.step_at(i) {
        Step::Nothing => 0,
        Step::Touches(at) => mark(0, touched(program, at, list) as u32),
        Step::Sequence(first, second) => {
            touches(program, first, depth - 1, m, known)
                | touches(program, second, depth - 1, m, known)
        }
        Step::Chooses(test, yes, no) => {
            let part = chosen(program, test, yes, no, list, depth - 1);
            touches(program, part, depth - 1, m, known)
        }
        Step::Branches(at, zero, one) => {
            let q = touched(program, at, list);
            let a = touches(program, zero, depth - 1, m, known);
            let b = touches(program, one, depth - 1, m, known);
            closes(q, a | b)
        }
        Step::Calls(f, at) => called(known, f, remaining(program, at, list)),
        Step::Greater(_)
        | Step::AtLeast(_)
        | Step::Equal(_)
        | Step::Both(_, _)
        | Step::Either(_, _)
        | Step::Negates(_) => 0,
    }
}

// A removal takes one entry away or empties the list. So a call leaves as many entries less as it carries removals, or none, and from main's list
// calls lead to lists that are shorter by a sum of such numbers.

// How many removals the calls in the statement at record i carry, as a set.
fn counts(program: &Program, i: u32, depth: u8) -> u64
    ensures { result ≡ row_of (removal_counts (statement_at program.now depth i)) }
{
    if depth == 0 {
        return 0;
    }
    match program.parts_at(i) {
        Parts::Neither => 0,
        Parts::Two(a, b, _) => counts(program, a, depth - 1) | counts(program, b, depth - 1),
        Parts::Call(_, at) => mark(0, program.removal_count(at)),
    }
}

// The same for all bodies.
fn all_counts(program: &Program) -> u64
    ensures { result ≡ counts_below program.now (suc (procedure_count program.now)) }
{
    let p = program.procedures();
    let mut all = 0;
    for f in 0..=p {
        all |= counts(program, program.root(f), MOST_DEPTH);
    }
    all
}

// 0, and the sums of numbers of a set: all of them up to the longest list.
fn sums_of(counts: u64) -> u64
    ensures { result ≡ sums_below counts most_qubits }
{
    let mut sums = 1;
    for j in 0..MOST_QUBITS {
        if contains(sums, j) {
            sums |= counts << j;
        }
    }
    sums
}

// 1 where f reaches x or is x, otherwise 0.
fn reached(matrix: &Matrix, f: u8, x: u8) -> usize
    ensures { result ≡ digit (from_in matrix.now f x) }
{
    usize::from(x == f || recursive(matrix, x, f))
}

// How many of the bodies 0 to p f reaches, itself among them. The rank falls at each call that is not recursive.
fn rank(matrix: &Matrix, f: u8, p: u8) -> usize
    ensures { result ≡ rank_in matrix.now f p }
{
    let mut n: usize = 0;
    for x in 0..=p {
        n += reached(matrix, f, x);
    }
    n
}

// The ranks of all bodies.
fn all_ranks(matrix: &Matrix, p: u8) -> [usize; BODY_COUNT]
    ensures { result ≡ ranks_in matrix.now p }
{
    let mut all = [0; BODY_COUNT];
    for f in 0..BODIES {
        all[f as usize] = rank(matrix, f, p);
    }
    all
}

// The rank of procedure f; 0, which none has, past the last body.
fn rank_at(ranks: &[usize; BODY_COUNT], f: u8) -> usize
    ensures { result ≡ rank_at ranks.now f }
{
    ranks.get(f as usize).copied().unwrap_or(0)
}

// The row of procedure f on lists of length m is written.
fn store(known: &mut [u64; ROW_COUNT], f: u8, m: u8, row: u64)
    ensures { known.new ≡ stored f m row known.old }
{
    let at = place(f, m);
    // no `get_mut`: of an array that is lent it leaves no equation for what the array is afterwards
    if at < ROW_COUNT {
        known[at] = row;
    }
}

// The row of procedure f on lists of length m: what its body touches, by the table so far.
fn fill_row(program: &Program, f: u8, m: u8, known: &mut [u64; ROW_COUNT])
    ensures { known.new ≡ filled_row program.now f m known.old }
{
    let row = touches(program, program.root(f), MOST_DEPTH, m, known);
    store(known, f, m, row);
}

// All procedures of rank k, on lists of length m. Program, ranks and rows stay parameters: each contract on a struct of them would have to say that all but
// the rows stays as it is.
fn fill_rank(
    program: &Program,
    k: usize,
    m: u8,
    ranks: &[usize; BODY_COUNT],
    known: &mut [u64; ROW_COUNT],
)
    ensures { known.new ≡ filled_rank program.now ranks.now (procedure_count program.now) k m known.old }
{
    for f in 1..=program.procedures() {
        if rank_at(ranks, f) == k {
            fill_row(program, f, m, known);
        }
    }
}

// All procedures, on lists of length m: by rank, so that what a body calls on lists of the same length is there before it.
fn fill_length(program: &Program, m: u8, ranks: &[usize; BODY_COUNT], known: &mut [u64; ROW_COUNT])
    ensures { known.new ≡ filled_length program.now ranks.now (procedure_count program.now) m known.old }
{
    for k in 1..=program.procedures() as usize {
        fill_rank(program, k, m, ranks, known);
    }
}

// All procedures, on lists of the lengths 1 to n that calls can lead to, the shortest first: of main's n entries they have removed the others.
fn fill(program: &Program, n: u8, matrix: &Matrix, known: &mut [u64; ROW_COUNT])
    ensures { known.new ≡ filled program.now (ranks_in matrix.now (procedure_count program.now))
        (sums_in program.now) n n known.old }
{
    let ranks = all_ranks(matrix, program.procedures());
    let sums = sums_of(all_counts(program));
    for m in 1..=n {
        if contains(sums, n - m) {
            fill_length(program, m, &ranks, known);
        }
    }
}

// Refusal 12: does main fault on n qubits? `matrix` says which procedure reaches which.
pub fn faults(program: &Program, n: u8, matrix: &Matrix) -> bool
    ensures { result ≡ faults_at program.now matrix.now n }
{
    let mut known = [0; ROW_COUNT];
    fill(program, n, matrix, &mut known);
    contains(touches(program, program.root(0), MOST_DEPTH, n, &known), 0)
}
