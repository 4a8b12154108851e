// Document 02, S-3, counted: for the lists that cost most on 32 qubits, the program prints a line for each length m: m, the swaps, the entries of the lookup that
// were read and written for them, and 4 × n + 8 × m.
#![tactic(auto)]

use limits::MOST_QUBITS;
use lookup::plan_swaps;
use sets::{QubitSet, full};
use std::io;

fn print_plan(rt: &impl Print, first: QubitSet, later: QubitSet, m: u8) -> io::Result<()> {
    let plan = plan_swaps(MOST_QUBITS, first, later);
    let (swaps, touched) = (plan.pairs().len(), plan.touched);
    let bound = 4 * MOST_QUBITS as u64 + 8 * m as u64;
    println!(rt; "{m} {swaps} {touched} {bound}")
}

// The later list is one wire further than the first, so that no qubit of it is where it goes to: every k swaps. A list of all 32 qubits is the only one of its
// length: there is nothing to swap.
fn main(rt: HostRuntime) -> io::Result<()> {
    for m in 1..MOST_QUBITS {
        print_plan(&rt, full(m), full(m) << 1, m)?;
    }
    print_plan(&rt, full(MOST_QUBITS), full(MOST_QUBITS), MOST_QUBITS)
}
