// "Emission" in code: one walk over the program places the gates. A walker is lent where its statement stands (its list, and the controls in force), the room for the
// circuit's bytes, and the emission. The program is no field of that struct: each walker would have to promise that it stays. So the right part has eight parameters.
#![tactic(auto)]

ghost use Rattle.std.specs.Prelude.{◌≡◌};
ghost use Rattle.controls.specs.ControlWords.{controls_from, list_from};
ghost use Rattle.sets.specs.Sets.{members_of};
ghost use Rattle.decoded.specs.DecodedTable.{procedure_count};
ghost use Rattle.events.specs.Scan.{emit_in};
ghost use Rattle.emit.specs.WalkPromises.{body_depth, Whole, Call, Left, Right, BodyLeft, BodyRight, Bodies, Rest, Inner, Body, Emits};

use controls::Site;
use decoded::{Program, Step};
use events::{
    Emission, State, above_length, emit_entries, emit_flip, finish, flip_again, seek, slot_in, wire,
};
use limits::MOST_DEPTH;
use sets::{QubitSet, size};
use step::{all, chosen, remaining, touched};

// How deep is the body of f: nothing where no procedure is f.
fn body_depth(program: &Program, f: u8) -> u8
    ensures { result ≡ body_depth (procedure_count program.now) f }
{
    if program.procedures() < f {
        0
    } else {
        MOST_DEPTH
    }
}

// A statement emitted whole, in order.
#[cycle(emitting)]
fn emit_whole(
    program: &Program,
    k: u8,
    i: u32,
    depth: u8,
    site: &Site,
    room: &mut [u8],
    emission: &mut Emission,
)
    ensures { Whole program.now k (emit_in emission.old.state) room.old emission.old.slots
        (emit_in emission.new.state) room.new emission.new.slots i depth (list_from site.now) (controls_from site.now) }
{
    if emission.state.refusal.is_some() {
        return;
    }
    if depth == 0 {
        return;
    }
    match program.step_at(i) {
        Step::Touches(at) => {
            let q = touched(program, at, site.list);
            emit_flip(site, q, room, &mut emission.state);
        }
        Step::Sequence(a, b) => {
            emit_whole(program, k, a, depth - 1, site, room, emission);
            emit_whole(program, k, b, depth - 1, site, room, emission);
        }
        Step::Chooses(c, a, b) => {
            let part = chosen(program, c, a, b, site.list, depth - 1);
            emit_whole(program, k, part, depth - 1, site, room, emission);
        }
        Step::Branches(at, a, b) => {
            let q = touched(program, at, site.list);
            let zero = site.with_control(q, false);
            emit_whole(program, k, a, depth - 1, &zero, room, emission);
            let one = site.with_control(q, true);
            emit_whole(program, k, b, depth - 1, &one, room, emission);
        }
        Step::Calls(f, at) => {
            let rest = remaining(program, at, site.list);
            emit_call(program, k, f, rest, site, room, emission);
        }
        // skip; and what is no statement
        _ => {}
    }
}

// "A non-recursive call with a nonempty list starts a chain."
#[cycle(emitting)]
fn emit_call(
    program: &Program,
    k: u8,
    f: u8,
    list: QubitSet,
    site: &Site,
    room: &mut [u8],
    emission: &mut Emission,
)
    ensures { Call program.now k (emit_in emission.old.state) room.old emission.old.slots
        (emit_in emission.new.state) room.new emission.new.slots f (members_of list) (controls_from site.now) }
{
    if emission.state.refusal.is_some() {
        return;
    }
    let m = size(list);
    if m == 0 {
        return;
    }
    let base = emission.state.next;
    emission.invoke(f, list, site, room);
    if k == 0 {
        finish(base, site, room, &mut emission.state);
        return;
    }
    emit_bodies(program, k - 1, base, above_length(m), room, emission);
    finish(base, site, room, &mut emission.state);
}

// The bodies of a chain whose precedence is below `last`: the longest list goes first, and of equal lengths the lowest procedure.
#[cycle(emitting)]
fn emit_bodies(
    program: &Program,
    k: u8,
    base: u16,
    last: u32,
    room: &mut [u8],
    emission: &mut Emission,
)
    ensures { Bodies program.now k (emit_in emission.old.state) room.old emission.old.slots
        (emit_in emission.new.state) room.new emission.new.slots base last }
{
    if emission.state.refusal.is_some() {
        return;
    }
    if let Some(d) = seek(&emission.slots, base, last as u64, emission.state.next) {
        let precedence = slot_in(&emission.slots, d).precedence;
        emit_body(program, k, base, precedence, d, room, emission);
    }
}

// The body of slot d around all bodies that follow it, between its entry gates.
#[cycle(emitting)]
fn emit_body(
    program: &Program,
    k: u8,
    base: u16,
    last: u32,
    d: u16,
    room: &mut [u8],
    emission: &mut Emission,
)
    ensures { Body program.now k (emit_in emission.old.state) room.old emission.old.slots
        (emit_in emission.new.state) room.new emission.new.slots base last d }
{
    let upto = emission.state.next;
    if upto <= d {
        return;
    }
    emit_entries(
        &emission.slots,
        d,
        d + 1,
        upto,
        false,
        room,
        &mut emission.state,
    );
    emit_inner(program, k, base, last, d, room, emission);
    emit_entries(
        &emission.slots,
        d,
        d + 1,
        upto,
        true,
        room,
        &mut emission.state,
    );
}

// Its left part, then the rest.
#[cycle(emitting)]
fn emit_inner(
    program: &Program,
    k: u8,
    base: u16,
    last: u32,
    d: u16,
    room: &mut [u8],
    emission: &mut Emission,
)
    ensures { Inner program.now k (emit_in emission.old.state) room.old emission.old.slots
        (emit_in emission.new.state) room.new emission.new.slots base last d }
{
    emit_body_left(program, k, d, room, emission);
    emit_rest(program, k, base, last, d, room, emission);
}

// The bodies that follow, then its right part, whose recursive calls have the ancillas before the next wire.
#[cycle(emitting)]
fn emit_rest(
    program: &Program,
    k: u8,
    base: u16,
    last: u32,
    d: u16,
    room: &mut [u8],
    emission: &mut Emission,
)
    ensures { Rest program.now k (emit_in emission.old.state) room.old emission.old.slots
        (emit_in emission.new.state) room.new emission.new.slots base last d }
{
    let behind = emission.state.next;
    emit_bodies(program, k, base, last, room, emission);
    emit_body_right(program, k, d, behind, room, emission);
}

// The left part of the body of slot d.
#[cycle(emitting)]
fn emit_body_left(program: &Program, k: u8, d: u16, room: &mut [u8], emission: &mut Emission)
    ensures { BodyLeft program.now k (emit_in emission.old.state) room.old emission.old.slots
        (emit_in emission.new.state) room.new emission.new.slots d }
{
    let slot = slot_in(&emission.slots, d);
    let f = slot.procedure();
    let site = Site::under(wire(d), slot.list);
    emit_left(
        program,
        k,
        program.root(f),
        body_depth(program, f),
        &site,
        room,
        emission,
    );
}

// Its right part.
#[cycle(emitting)]
fn emit_body_right(
    program: &Program,
    k: u8,
    d: u16,
    behind: u16,
    room: &mut [u8],
    emission: &mut Emission,
)
    ensures { BodyRight program.now k (emit_in emission.old.state) room.old emission.old.slots
        (emit_in emission.new.state) room.new emission.new.slots d behind }
{
    let slot = slot_in(&emission.slots, d);
    let f = slot.procedure();
    let site = Site::under(wire(d), slot.list);
    emit_right(
        program,
        k,
        program.root(f),
        body_depth(program, f),
        &site,
        behind,
        room,
        emission,
    );
}

// The left part of the statement at record i. A call there is recursive where it is wide.
#[cycle(emitting)]
fn emit_left(
    program: &Program,
    k: u8,
    i: u32,
    depth: u8,
    site: &Site,
    room: &mut [u8],
    emission: &mut Emission,
)
    ensures { Left program.now k (emit_in emission.old.state) room.old emission.old.slots
        (emit_in emission.new.state) room.new emission.new.slots i depth (list_from site.now) (controls_from site.now) }
{
    if emission.state.refusal.is_some() {
        return;
    }
    if depth == 0 {
        return;
    }
    match program.step_at(i) {
        Step::Touches(at) => {
            let q = touched(program, at, site.list);
            emit_flip(site, q, room, &mut emission.state);
        }
        Step::Sequence(a, b) => {
            if program.is_wide(a) {
                emit_left(program, k, a, depth - 1, site, room, emission);
                return;
            }
            emit_whole(program, k, a, depth - 1, site, room, emission);
            emit_left(program, k, b, depth - 1, site, room, emission);
        }
        Step::Chooses(c, a, b) => {
            let part = chosen(program, c, a, b, site.list, depth - 1);
            emit_left(program, k, part, depth - 1, site, room, emission);
        }
        Step::Branches(at, a, b) => {
            let q = touched(program, at, site.list);
            let zero = site.with_control(q, false);
            emit_left(program, k, a, depth - 1, &zero, room, emission);
            let one = site.with_control(q, true);
            emit_left(program, k, b, depth - 1, &one, room, emission);
        }
        Step::Calls(g, at) => {
            let rest = remaining(program, at, site.list);
            if program.is_wide(i) {
                emission.invoke(g, rest, site, room);
                return;
            }
            emit_call(program, k, g, rest, site, room, emission);
        }
        // skip; and what is no statement
        _ => {}
    }
}

// The right part of the statement at record i; its recursive calls have the ancillas before `behind`, the last one first. The first of them is given.
#[cycle(emitting)]
fn emit_right(
    program: &Program,
    k: u8,
    i: u32,
    depth: u8,
    site: &Site,
    behind: u16,
    room: &mut [u8],
    emission: &mut Emission,
) -> u16
    ensures { Right program.now k (emit_in emission.old.state) room.old emission.old.slots
        (emit_in emission.new.state) room.new emission.new.slots i depth (list_from site.now) (controls_from site.now) behind result }
{
    if emission.state.refusal.is_some() {
        return behind;
    }
    if depth == 0 {
        return behind;
    }
    // without a recursive call all of it went left
    let narrow = !program.is_wide(i);
    if narrow {
        return behind;
    }
    match program.step_at(i) {
        Step::Sequence(a, b) => {
            if program.is_wide(a) {
                let first = emit_right(program, k, a, depth - 1, site, behind, room, emission);
                emit_whole(program, k, b, depth - 1, site, room, emission);
                return first;
            }
            emit_right(program, k, b, depth - 1, site, behind, room, emission)
        }
        Step::Chooses(c, a, b) => {
            let part = chosen(program, c, a, b, site.list, depth - 1);
            emit_right(program, k, part, depth - 1, site, behind, room, emission)
        }
        Step::Branches(at, a, b) => {
            let q = touched(program, at, site.list);
            let one = site.with_control(q, true);
            let second = emit_right(program, k, b, depth - 1, &one, behind, room, emission);
            let zero = site.with_control(q, false);
            emit_right(program, k, a, depth - 1, &zero, second, room, emission)
        }
        Step::Calls(_, at) => {
            let rest = remaining(program, at, site.list);
            flip_again(rest, site, behind, room, &mut emission.state)
        }
        // what has no right part; and what is no statement
        _ => behind,
    }
}

// "Wires 1 to n are data; ancillas follow": main is emitted whole, under no control. Where the emission ends is given; nobody reads its slots afterwards.
pub fn emit_main(program: &Program, n: u8, room: &mut [u8]) -> State
    ensures { Emits program.now n room.old (emit_in result) room.new }
{
    let mut emission = Emission::begin(n);
    emit_whole(
        program,
        program.procedures(),
        program.root(0),
        MOST_DEPTH,
        &Site::free(all(n)),
        room,
        &mut emission,
    );
    emission.state
}
