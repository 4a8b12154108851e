// Document 02, S-1: the marks of the gates of one band, a column for each gate and in it a byte for each number of a wire. Each gate is decoded once.
#![tactic(auto)]

ghost use Rattle.std.specs.Prelude.{◌≡◌, ◌≤◌, MatchOption, ⊤, [], set, get_or};
ghost use Rattle.model.specs.Circuit.{wires};
ghost use Rattle.model.specs.Page.{band_gates, bar};
ghost use Rattle.circuit.specs.GatesInBytes.{input_of, settled, gate_in, controls_in};
ghost use Rattle.marks.specs.Columns.{span_from, span_of, inside, mark_all, mark_controls, mark_gate, mark_from, band_parsed};

use circuit::{Action, Gate, read_gate};
use limits::{BAND_GATES, WIRE_COUNT};

// The marks of a gate: a byte for each number of a wire.
pub type Column = [u8; WIRE_COUNT];

// Those of a band's gates: "nineteen gates fill a line of 80".
pub type Columns = [Column; BAND_GATES as usize];

// The outermost of some wires.
#[derive(Clone, Copy)]
pub struct Span {
    pub low: u8,
    pub high: u8,
}

impl Span {
    // The outermost of these and other wires.
    fn with_wires(self, wires: &[u8]) -> Span
        ensures { result ≡ span_from self wires.now }
    {
        wires.iter().fold(
            self,
            |span, &wire| Span {
                low: span.low.min(wire),
                high: span.high.max(wire),
            },
        )
    }
}

// "a gate's outermost wires"
#[tactic(auto, using(crate::proofs::OutermostWires::gate_span))]
fn outermost(gate: &Gate<'_>) -> Span
    ensures { result ≡ span_of (wires (gate_in gate.now)) }
{
    let (target, last) = gate.action.wires();
    let own = Span {
        low: target.min(last),
        high: target.max(last),
    };
    own.with_wires(gate.ones).with_wires(gate.zeros)
}

// "a bar (7C) on other rows between a gate's outermost wires"
#[tactic(auto, using(crate::proofs::BarredWires::range_none, crate::proofs::BarredWires::range_more))]
fn mark_bars(column: &mut Column, span: Span)
    ensures { column.new ≡ mark_all bar (inside span) column.old }
{
    for wire in span.low as usize + 1..span.high as usize {
        column[wire] = b'|';
    }
}

// One mark on each of these wires.
fn mark_wires(column: &mut Column, wires: &[u8], sign: u8)
    ensures { column.new ≡ mark_all sign wires.now column.old }
{
    for &wire in wires {
        column[wire as usize] = sign;
    }
}

// "+ or o for a control on 1 or 0"
fn mark_controls(column: &mut Column, gate: &Gate<'_>)
    ensures { column.new ≡ mark_controls (controls_in gate.now) column.old }
{
    mark_wires(column, gate.zeros, b'o');
    mark_wires(column, gate.ones, b'+');
}

// All marks of a gate; "X for a NOT's target, S for each swapped wire"
#[tactic(auto, unfolding(model::specs::Gates::targets, model::specs::Circuit::controls_of, model::specs::Page::letter))]
fn mark_gate(column: &mut Column, gate: &Gate<'_>)
    ensures { column.new ≡ mark_gate (gate_in gate.now) column.old }
{
    mark_bars(column, outermost(gate));
    mark_controls(column, gate);
    match gate.action {
        Action::Not(target) => mark_wires(column, &[target], b'X'),
        Action::Swap(target, second) => mark_wires(column, &[target, second], b'S'),
    }
}

// A gate's marks in its column, where there is one.
#[tactic(auto, using(std::proofs::lemmas::List::set_past))]
fn mark_column(columns: &mut [Column], at: usize, gate: &Gate<'_>)
    ensures { columns.new ≡ set columns.old at (mark_gate (gate_in gate.now) (get_or columns.old at [])) }
{
    if at < columns.len() {
        mark_gate(&mut columns[at], gate);
    }
}

// The marks of at most nineteen gates over wires 1 to `most`, as many as the input has: how many, and the input behind them. By index: a gate past the last column
// is read too.
#[tactic(auto, using(crate::proofs::MarkedBand::banding))]
pub fn mark_band<'a>(columns: &mut [Column], input: &'a [u8], most: u8) -> Option<(usize, &'a [u8])>
    ensures value { band_parsed result columns.new ≡ settled (mark_from most band_gates 0 (input_of input.now) columns.old) }
    ensures few { MatchOption result ⊤ (λ band. band.0 ≤ band_gates) }
{
    let most_gates = BAND_GATES as usize;
    let mut left = input;
    for count in 0..most_gates {
        if left.is_empty() {
            return Some((count, left));
        }
        let (gate, rest) = read_gate(left, most)?;
        mark_column(columns, count, &gate);
        left = rest;
    }
    Some((most_gates, left))
}
