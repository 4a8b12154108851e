// Document 02, S-3: the swaps of an entry, planned. A lookup says for each qubit which wire holds it, and for each wire which qubit it holds. It is built before
// the loop over k and updated at each swap, so no list is searched; and every entry of it that is read or written is counted.
#![tactic(auto)]

ghost use Rattle.std.specs.Prelude.{◌≡◌, ◌+◌, ◌*◌, ◌≤◌, ◌<◌, length};
ghost use Rattle.limits.specs.Sizes.{set_length};
ghost use Rattle.sets.specs.Sets.{members_of};
ghost use Rattle.lookup.specs.Entries.{counted, wire_at, qubit_at, touched, kept, empty, built, moved, tracked, accesses};
ghost use Rattle.lookup.specs.Plans.{pairs_of, swap_count, entries_touched, PlansSwap, PlansSwaps};

use limits::WIRE_COUNT;
use sets::{QubitSet, members_of};

mod plan;

pub use plan::Plan;

// The lookup: for each qubit the wire that holds it, and for each wire the qubit that it holds. `count` is how many of these entries were read and written, in 16
// bits, and no further. The first three functions are the only ones that touch an entry, and each counts what it touches.
#[derive(Drop)]
struct Lookup {
    wires: [u8; WIRE_COUNT],
    qubits: [u8; WIRE_COUNT],
    count: u16,
}

impl Lookup {
    // The wire that holds qubit q.
    #[tactic(auto, using(crate::proofs::CountedEntries::counts_one))]
    fn wire_of(&mut self, q: u8) -> u8
        ensures value { result ≡ wire_at self.old q }
        ensures after { self.new ≡ touched self.old 1 }
    {
        self.count = self.count.saturating_add(1);
        self.wires[q as usize]
    }

    // The qubit that wire w holds.
    #[tactic(auto, using(crate::proofs::CountedEntries::counts_one))]
    fn qubit_on(&mut self, w: u8) -> u8
        ensures value { result ≡ qubit_at self.old w }
        ensures after { self.new ≡ touched self.old 1 }
    {
        self.count = self.count.saturating_add(1);
        self.qubits[w as usize]
    }

    // Qubit q is on wire w now: an entry in each direction.
    fn keep(&mut self, q: u8, w: u8)
        ensures { self.new ≡ kept self.old q w }
    {
        self.count = self.count.saturating_add(2);
        self.wires[q as usize] = w;
        self.qubits[w as usize] = q;
    }

    // Each qubit up to the last on its own wire: q + 1, since a range that ends with its last number has a second way out to prove. The entries of 0, which is no qubit and no wire, are 0 as they are.
    fn build(last: u8) -> Self
        ensures { result ≡ built empty last }
    {
        let mut lookup = Lookup {
            wires: [0; WIRE_COUNT],
            qubits: [0; WIRE_COUNT],
            count: 0,
        };
        for q in 0..last {
            lookup.keep(q + 1, q + 1);
        }
        lookup
    }

    // For one k: unless qubit q is on the wire `to`, it goes there, and the qubit that it pushes away goes where q was. Given is the wire where q was, if it goes.
    fn track(&mut self, q: u8, to: u8) -> Option<u8>
        ensures value { result ≡ moved self.old q to }
        ensures after { self.new ≡ tracked self.old q to }
    {
        let from = self.wire_of(q);
        if from == to {
            return None;
        }
        let other = self.qubit_on(to);
        self.keep(q, to);
        self.keep(other, from);
        Some(from)
    }

    // One k: qubit q, the k-th of the later list, goes to the wire that it has in the first. The pair is planned unless equal.
    // "Build that lookup before the loop and update it at each swap: before each k it names exactly the wire that holds each qubit."
    fn plan_swap(&mut self, plan: &mut Plan, q: u8, wire: u8)
        requires { length (pairs_of plan.old) < set_length }
        ensures plans_swap { PlansSwap q wire self.old (pairs_of plan.old) self.new (pairs_of plan.new) }
        ensures pairs_after { length (pairs_of plan.new) ≡ length (pairs_of plan.old) + swap_count (wire_at self.old q) wire }
        ensures count_after { self.new.count ≡ counted self.old.count (accesses self.old q wire) }
        ensures fits { plan.new.len ≤ set_length }
    {
        if let Some(from) = self.track(q, wire) {
            plan.push(from, wire);
        }
    }
}

// "for k = 1 up to the length, swap, under the entry ancilla, the wire now holding the k-th qubit of the later list with the k-th wire of the first list,
// unless equal": the pairs of wires, for lists of qubits 1 to n. The lookup covers exactly these. No more are planned than a plan has room for.
pub fn plan_swaps(n: u8, first: QubitSet, later: QubitSet) -> Plan
    ensures plans_swaps { PlansSwaps n (members_of first) (members_of later) result }
    ensures touched_value { result.touched ≡ entries_touched n (members_of first) (members_of later) (length (pairs_of result)) }
    ensures touched_bound { result.touched ≤ 4 * n + 8 * length (members_of later) }
    ensures fits { result.len ≤ set_length }
{
    let mut lookup = Lookup::build(n);
    let mut plan = Plan::new();
    for (q, wire) in members_of(later).zip(members_of(first)) {
        lookup.plan_swap(&mut plan, q, wire);
    }
    plan.touched = lookup.count;
    plan
}
