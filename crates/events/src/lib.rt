// The events of an emission: an ancilla taken, a gate placed, ancillas given back; and the runs of them that ask no table: swaps, the gates of an entry,
// the two ends of a call. Where an emission is (`State`) and the slots in which ancillas keep their invocations are lent; the next body is sought in the slots.
#![tactic(auto)]

ghost use Rattle.std.specs.Prelude.{◌≡◌, cond, [], ◌∷◌, reverse, ◌+◌, ◌-◌, ◌*◌, ◌%◌, ◌≤◌, length, leb, replicate, MatchOption};
ghost use Rattle.model.specs.Gates.{flip, swap_of};
ghost use Rattle.model.specs.Emission as model;
ghost use Rattle.model.specs.Emission.{places, frees, invoked, entry_gates, returns};
ghost use Rattle.model.specs.Answers.{usable};
ghost use Rattle.controls.specs.ControlWords.{controls_from};
ghost use Rattle.sets.specs.Sets.{members_of};
ghost use Rattle.limits.specs.Sizes.{wire_count};
ghost use Rattle.events.specs.Scan.{no_call, emit_in, progress, with_gate, scan, begun, slot_in, slot_list, wire_of, slot_of};
ghost use Rattle.events.specs.Slots.{filled, ancilla_taken, returned, NoneWaits, NextSlot, turned, Enters, EntryTouched, entry_at, entries_to};
ghost use Rattle.lookup.specs.Plans.{swaps_along};
ghost use Rattle.events.specs.FollowedEvents.{Invokes};

use controls::{Site, put_swap, swap_length};
use limits::{HEADER_LENGTH, LAST_WIRE, MOST_CIRCUIT, MOST_GATES, Refusal, WIRE_COUNT};
use lookup::plan_swaps;
use sets::{QubitSet, size};

// Where an emission is: what refuses it, bytes used, gates placed, the next wire, the highest wire taken, and the number of qubits.
#[derive(Clone, Copy)]
pub struct State {
    pub refusal: Option<Refusal>,
    pub used: usize,
    pub gates: u32,
    pub next: u16,
    pub highest: u16,
    pub qubits: u8,
}

// What an ancilla keeps of the call that took it: 256 times the length of the list and 255 less the procedure, and the list. The greater the first number is,
// the sooner comes the body.
#[derive(Clone, Copy)]
pub struct Slot {
    pub precedence: u32,
    pub list: QubitSet,
}

// No call.
pub const NO_CALL: Slot = Slot {
    precedence: 0,
    list: 0,
};

// The slots of all wires.
pub type Slots = [Slot; WIRE_COUNT];

// An emission: where it is, and its slots.
#[derive(Drop)]
pub struct Emission {
    pub state: State,
    pub slots: Slots,
}

impl Emission {
    // One on n qubits begins behind the header.
    pub fn begin(n: u8) -> Self
        ensures state { emit_in result.state ≡ begun n }
        ensures slots { result.slots ≡ replicate wire_count no_call }
    {
        Emission {
            state: State {
                refusal: None,
                used: HEADER_LENGTH,
                gates: 0,
                next: n as u16 + 1,
                highest: n as u16,
                qubits: n,
            },
            slots: [NO_CALL; WIRE_COUNT],
        }
    }

    // The next ancilla is taken for a call of f with a list, or 22.
    fn take(&mut self, f: u8, list: QubitSet)
        ensures state { emit_in self.new.state ≡ (ancilla_taken f list (emit_in self.old.state) self.old.slots).0 }
        ensures slots { self.new.slots ≡ (ancilla_taken f list (emit_in self.old.state) self.old.slots).1 }
    {
        if self.state.refusal.is_some() {
            return;
        }
        let next = self.state.next;
        if LAST_WIRE < next {
            self.state.refusal = Some(Refusal::ManyWires);
            return;
        }
        fill_slot(&mut self.slots, next, f, list);
        self.state.next = next + 1;
        self.state.highest = self.state.highest.max(next);
    }

    // A call that names a pair takes the next ancilla and flips it under the controls in force. "A call with an empty list emits nothing"
    pub fn invoke(&mut self, f: u8, list: QubitSet, site: &Site, room: &mut [u8])
        ensures { Invokes f (members_of list) (controls_from site.now) (emit_in self.old.state) room.old self.old.slots
            (emit_in self.new.state) room.new self.new.slots }
    {
        if list == 0 {
            return;
        }
        let a = wire(self.state.next);
        self.take(f, list);
        emit_flip(site, a, room, &mut self.state);
    }
}

// "room past 65,536 bytes is not used"
pub fn usable(room: usize) -> usize
    ensures { result ≡ usable room }
{
    room.min(MOST_CIRCUIT)
}

// Is there room for so many bytes more?
fn in_room(room: usize, used: usize, length: usize) -> bool
    ensures { result ≡ leb (used + length) (usable room) }
{
    let most = usable(room);
    length <= most && used <= most - length
}

// Behind one gate more, of so many bytes: or 23.
fn with_gate(room: usize, state: &mut State, length: usize)
    ensures { emit_in state.new ≡ with_gate room (emit_in state.old) length }
{
    let used = state.used;
    let gates = state.gates;
    if MOST_GATES <= gates || !in_room(room, used, length) {
        state.refusal = Some(Refusal::NoRoom);
        return;
    }
    state.refusal = None;
    state.used = used + length;
    state.gates = gates + 1;
}

// A NOT is placed, or 23.
pub fn emit_flip(site: &Site, target: u8, room: &mut [u8], state: &mut State)
    ensures { progress (emit_in state.new) room.new ≡
        scan (places (flip (controls_from site.now) target) ∷ []) (progress (emit_in state.old) room.old) }
{
    if state.refusal.is_some() {
        return;
    }
    let at = state.used;
    with_gate(room.len(), state, site.flip_length());
    if state.refusal.is_none() {
        site.put_flip(room, at, target);
    }
}

// A swap under an ancilla is placed, or 23.
fn emit_swap(e: u8, first: u8, second: u8, room: &mut [u8], state: &mut State)
    ensures { progress (emit_in state.new) room.new ≡
        scan (places (swap_of (model.under e) first second) ∷ []) (progress (emit_in state.old) room.old) }
{
    if state.refusal.is_some() {
        return;
    }
    let at = state.used;
    with_gate(room.len(), state, swap_length(e));
    if state.refusal.is_none() {
        put_swap(room, at, e, first, second);
    }
}

// The ancillas from a on are given back.
fn give_back(state: &mut State, a: u16)
    ensures { emit_in state.new ≡ returned a (emit_in state.old) }
{
    if state.refusal.is_some() {
        return;
    }
    state.next = a;
}

// The wire of an ancilla.
pub fn wire(a: u16) -> u8
    ensures { result ≡ wire_of a }
{
    u8::try_from(a).unwrap_or(0)
}

// The slot of an ancilla.
pub fn slot_in(slots: &Slots, a: u16) -> Slot
    ensures { result ≡ slot_in slots.now a }
{
    slots.get(a as usize).copied().unwrap_or(NO_CALL)
}

impl Slot {
    // The procedure that is called.
    pub fn procedure(&self) -> u8
        ensures { result ≡ 255 - self.now.precedence % 256 }
    {
        (255 - self.precedence % 256) as u8
    }
}

// An invocation is put into the slot of its ancilla. By index: of what `get_mut` lends out of an array, the proof does not know what comes back.
fn fill_slot(slots: &mut Slots, a: u16, f: u8, list: QubitSet)
    ensures { slots.new ≡ filled slots.old a f list }
{
    let at = a as usize;
    if at < slots.len() {
        slots[at] = Slot {
            precedence: 256 * size(list) as u32 + (255 - f as u32),
            list,
        };
    }
}

// The least number above those of all lists of length m.
pub fn above_length(m: u8) -> u32
    ensures { result ≡ 256 * m + 256 }
{
    256 * m as u32 + 256
}

// The slot that opens the next body: of the slots from `base` on and before `upto` with a nonempty list, the first of the greatest precedence below `last`; none where
// no slot has one. One look over the slots.
pub fn seek(slots: &Slots, base: u16, last: u64, upto: u16) -> Option<u16>
    ensures { MatchOption result (NoneWaits slots.now base last upto) (λ d. NextSlot slots.now base last upto d) }
{
    let mut greatest = 255;
    // no Option in the loop: it would be one more test for each slot
    let mut best = upto;
    for a in base..upto {
        let number = slot_in(slots, a).precedence as u64;
        if number < last {
            if greatest < number {
                greatest = number;
                best = a;
            }
        }
    }
    (best < upto).then_some(best)
}

// Swaps of pairs of wires under an ancilla, in order or reversed. Two loops, here and below: a function over any iterator would have to be told which pairs it gives.
fn emit_swaps(e: u8, pairs: &[(u8, u8)], reversed: bool, room: &mut [u8], state: &mut State)
    ensures { progress (emit_in state.new) room.new ≡
        scan (turned reversed (swaps_along e pairs.now)) (progress (emit_in state.old) room.old) }
{
    if reversed {
        for &(first, second) in pairs.iter().rev() {
            emit_swap(e, first, second, room, state);
        }
        return;
    }
    for &(first, second) in pairs {
        emit_swap(e, first, second, room, state);
    }
}

// "flip the body's ancilla under the entry ancilla; then" the swaps: from slot e to the body of slot d, in order or reversed. Given is how many entries of the
// lookup were read and written: "at most 4 × n + 8 × m of its entries for a later list of length m".
fn emit_gates(
    slots: &Slots,
    d: u16,
    e: u16,
    reversed: bool,
    room: &mut [u8],
    state: &mut State,
) -> u16
    ensures upper_bound { result ≤ 4 * (emit_in state.old).qubits + 8 * length (slot_list slots.now e) }
    ensures entry_touched { EntryTouched (emit_in state.old).qubits (slot_list slots.now d) (slot_list slots.now e) result }
    ensures enters { Enters slots.now (turned reversed (entry_gates (slot_of slots.now d) (slot_of slots.now e)))
        (progress (emit_in state.old) room.old) (progress (emit_in state.new) room.new) }
{
    let first = slot_in(slots, d).list;
    let later = slot_in(slots, e).list;
    let a = wire(e);
    let site = Site::under(a, 0);
    let target = wire(d);
    // a list that is the first one stays where it is
    let same_list = first == later;
    if same_list {
        emit_flip(&site, target, room, state);
        return 0;
    }
    let plan = plan_swaps(state.qubits, first, later);
    if reversed {
        emit_swaps(a, plan.pairs(), true, room, state);
        emit_flip(&site, target, room, state);
        return plan.touched;
    }
    emit_flip(&site, target, room, state);
    emit_swaps(a, plan.pairs(), false, room, state);
    plan.touched
}

// These, if the slots are of one pair.
fn emit_entry(slots: &Slots, d: u16, e: u16, reversed: bool, room: &mut [u8], state: &mut State)
    ensures { Enters slots.now (turned reversed (entry_at slots.now d e))
        (progress (emit_in state.old) room.old) (progress (emit_in state.new) room.new) }
{
    let same_pair = slot_in(slots, e).precedence == slot_in(slots, d).precedence;
    if same_pair {
        emit_gates(slots, d, e, reversed, room, state);
    }
}

// "Before the shared body's left part, for each such call in order" the entry gates: to the body of slot d, from the slots from e on, before `upto`. "After its
// right part the same gates come in reverse."
pub fn emit_entries(
    slots: &Slots,
    d: u16,
    e: u16,
    upto: u16,
    reversed: bool,
    room: &mut [u8],
    state: &mut State,
)
    ensures { Enters slots.now (turned reversed (entries_to slots.now d e (upto - e)))
        (progress (emit_in state.old) room.old) (progress (emit_in state.new) room.new) }
{
    if reversed {
        for a in (e..upto).rev() {
            emit_entry(slots, d, a, true, room, state);
        }
        return;
    }
    for a in e..upto {
        emit_entry(slots, d, a, false, room, state);
    }
}

// A chain's end: its first ancilla is flipped back, and all its ancillas are given back.
pub fn finish(base: u16, site: &Site, room: &mut [u8], state: &mut State)
    ensures { progress (emit_in state.new) room.new ≡
        scan (places (flip (controls_from site.now) (wire_of base)) ∷ frees base ∷ []) (progress (emit_in state.old) room.old) }
{
    emit_flip(site, wire(base), room, state);
    give_back(state, base);
}

// A recursive call's ancilla is flipped "again at its place in the right": it is the one before `behind`, and is given. "A call with an empty list emits nothing"
pub fn flip_again(
    list: QubitSet,
    site: &Site,
    behind: u16,
    room: &mut [u8],
    state: &mut State,
) -> u16
    ensures value { result ≡ behind - length (invoked 0 (members_of list) 0) }
    ensures room_after { progress (emit_in state.new) room.new ≡
        scan (returns (members_of list) (controls_from site.now) (wire_of result)) (progress (emit_in state.old) room.old) }
{
    if list == 0 {
        return behind;
    }
    let a = behind.saturating_sub(1);
    emit_flip(site, wire(a), room, state);
    a
}
