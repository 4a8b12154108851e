// Sets of qubits 1 to 64 as words: qubit q is in the set where bit q - 1 stands.
#![tactic(auto)]

ghost use Rattle.std.specs.Prelude.{◌≡◌, min, ◌+◌, ◌-◌, length, take, drop};
ghost use Rattle.model.specs.Lists.{qubits, entry, remove, position};
ghost use Rattle.sets.specs.Sets.{members_of, entries_at};
ghost use Rattle.std.specs.Iterator.{YieldsFirst, YieldsLast, item_count};

use std::marker::Model;

// A set of qubits, by its word.
pub type QubitSet = u64;

// How many members?
pub fn size(set: QubitSet) -> u8
    ensures { result ≡ length (members_of set) }
{
    set.count_ones() as u8
}

// Qubits 1 to n. (A shift of all ones to the right would be by 64 for n = 0, which is no shift.)
pub fn full(n: u8) -> QubitSet
    ensures { members_of result ≡ qubits (min n 64) }
{
    if n < 64 { (1u64 << n) - 1 } else { u64::MAX }
}

// Each end has its own two functions: a form for both ends would take the end and switch on it in every line.
// The lowest member, 0 where there is none: `entry` of the definitions, on which all crates stand, gives 0, which is no qubit, and no Option.
pub fn next_member(set: QubitSet) -> u8
    ensures { result ≡ entry (members_of set) 1 }
{
    if set == 0 {
        return 0;
    }
    set.trailing_zeros() as u8 + 1
}

// The set without its lowest member.
pub fn without_lowest(set: QubitSet) -> QubitSet
    ensures { members_of result ≡ drop 1 (members_of set) }
{
    if set == 0 {
        return 0;
    }
    set & (set - 1)
}

// The highest member, 0 where there is none.
pub fn last_member(set: QubitSet) -> u8
    ensures { result ≡ entry (members_of set) (length (members_of set)) }
{
    64 - set.leading_zeros() as u8
}

// The set without its highest member.
pub fn without_highest(set: QubitSet) -> QubitSet
    ensures { members_of result ≡ take (length (members_of set) - 1) (members_of set) }
{
    if set == 0 {
        return 0;
    }
    set ^ (1u64 << (63 - set.leading_zeros()))
}

// The members of a set that are still to come, from its lowest on or from its highest down.
#[derive(Drop)]
pub struct Qubits {
    rest: QubitSet,
}

impl Model for Qubits {
    ghost use Rattle.std.specs.Prelude.{ℕ, List};
    ghost use Rattle.sets.specs.Sets.{members_of};

    ghost Value = { List ℕ };

    ghost view = { λ a. members_of a.rest };
}

// The members of a set, lowest first.
pub fn members_of(set: QubitSet) -> Qubits
    ensures { result ≡ members_of set }
{
    Qubits { rest: set }
}

impl Iterator for Qubits {
    type Item = u8;

    ghost next_gives = { YieldsFirst (λ s. s) };

    ghost remaining = { item_count (λ s. s) };

    fn next(&mut self) -> Option<u8> {
        if self.rest == 0 {
            return None;
        }
        let lowest = next_member(self.rest);
        self.rest = without_lowest(self.rest);
        Some(lowest)
    }
}

impl DoubleEndedIterator for Qubits {
    ghost next_back_gives = { YieldsLast (λ s. s) };

    fn next_back(&mut self) -> Option<u8> {
        if self.rest == 0 {
            return None;
        }
        let highest = last_member(self.rest);
        self.rest = without_highest(self.rest);
        Some(highest)
    }
}

// The member that so many others are below, reached from the lowest; 0 where there is none.
fn from_lowest(set: QubitSet, below: u8) -> u8
    ensures { result ≡ entry (members_of set) (below + 1) }
{
    members_of(set).nth(below as usize).unwrap_or(0)
}

// The member that so many others are above, reached from the highest; 0 where there is none.
fn from_highest(set: QubitSet, above: u8) -> u8
    ensures { result ≡ entry (members_of set) (length (members_of set) - above) }
{
    members_of(set).nth_back(above as usize).unwrap_or(0)
}

// The member at a position, 0 where there is none. The first four are reached from the lowest, and the set is not counted. Of the others, in qubits 1 to n
// each stands at its own position; in other sets it is reached from the nearer end.
pub fn entry(set: QubitSet, k: i32) -> u8
    ensures { result ≡ entry (members_of set) (position k) }
{
    let Ok(k @ 1..) = u8::try_from(k) else {
        return 0;
    };
    if k < 5 {
        return from_lowest(set, k - 1);
    }
    let n = size(set);
    if n < k {
        return 0;
    }
    if set == full(n) {
        return k;
    }
    let above = n - k;
    if k <= above {
        from_lowest(set, k - 1)
    } else {
        from_highest(set, above)
    }
}

// The set without its member at a position; it is empty where there is none.
pub fn remove(set: QubitSet, k: i32) -> QubitSet
    ensures { members_of result ≡ remove (position k) (members_of set) }
{
    let q = entry(set, k);
    if q == 0 {
        return 0;
    }
    set ^ (1u64 << (q - 1))
}

// The members of a list, itself a set, at the positions that are in a row, position t as bit t - 1: member by member.
fn deposited(row: u64, list: QubitSet) -> QubitSet
    ensures { members_of result ≡ entries_at row (members_of list) }
{
    let mut found = 0;
    let mut left = row;
    for q in members_of(list) {
        if left == 0 {
            break;
        }
        found |= (left & 1) << (q - 1);
        left >>= 1;
    }
    found
}

// Positions of a callee's list carried to the caller. In qubits 1 to n each position is its own qubit, and in a list of neighbours all are as far from it.
pub fn carried(row: u64, list: QubitSet) -> QubitSet
    ensures { members_of result ≡ entries_at row (members_of list) }
{
    if list == 0 {
        return 0;
    }
    let below = list.trailing_zeros();
    let run = list >> below;
    if run == full(size(list)) {
        return (row & run) << below;
    }
    deposited(row, list)
}
