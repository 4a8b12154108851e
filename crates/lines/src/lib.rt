// "Worked programs", on the listing: its lines, put into a text one behind the other.
#![tactic(auto)]

ghost use Rattle.std.specs.Prelude.{◌≡◌, ◌∷◌, ◌++◌, ◌+◌, length, ltb};
ghost use Rattle.std.specs.List.{prefix_len};
ghost use Rattle.model.specs.Answers.{room_after};
ghost use Rattle.model.specs.Listing.{space, plus, decimal, signed, hyphens, control_text, action_text, gate_line, circuit_list};
ghost use Rattle.answers.specs.Structs.{outcome_of, given_length, length_answer};
ghost use Rattle.circuit.specs.GatesInBytes.{input_of, gate_with, gate_in};
ghost use Rattle.model.specs.Gates.{no_controls};
ghost use Rattle.text.specs.AppendedBytes.{place_after, puts};
ghost use Rattle.lines.specs.ListingRows.{lines_read, first_read, listing_read};

use answers::Answer;
use circuit::{Action, Gate, Header, gate_at, read_whole};
use limits::{LISTING_FACTOR, Refusal};
use text::Writer;

// A space and a number.
#[tactic(auto, using(text::proofs::AppendLaws::put_next))]
fn put_spaced(writer: &mut Writer, number: u64)
    ensures { writer.new ≡ puts (space ∷ decimal number) writer.old }
{
    writer.put(b' ');
    writer.put_decimal(number);
}

// A control: a space, its sign and its wire.
#[tactic(auto, using(text::proofs::AppendLaws::put_next))]
fn put_control(writer: &mut Writer, sign: u8, wire: u8)
    ensures { writer.new ≡ puts (signed sign wire) writer.old }
{
    writer.put(b' ');
    writer.put(sign);
    writer.put_decimal(u64::from(wire));
}

// Controls on 0, each a hyphen and its wire.
fn put_hyphens(writer: &mut Writer, zeros: &[u8])
    ensures { writer.new ≡ puts (hyphens zeros.now) writer.old }
{
    for &wire in zeros {
        put_control(writer, b'-', wire);
    }
}

// How many wires come before the first that is not below `wire`?
fn count_below(zeros: &[u8], wire: u8) -> usize
    ensures { result ≡ prefix_len (λ zero. ltb zero wire) zeros.now }
{
    zeros.iter().take_while(|zero| **zero < wire).count()
}

// "controls ascending (+ on 1, − on 0, printed as a hyphen)": before each control on 1 come the controls on 0 below it.
fn put_controls(writer: &mut Writer, ones: &[u8], zeros: &[u8])
    ensures { writer.new ≡ puts (control_text ones.now zeros.now) writer.old }
{
    let mut rest = zeros;
    for &wire in ones {
        let (lower, higher) = rest.split_at(count_below(rest, wire));
        put_hyphens(writer, lower);
        put_control(writer, b'+', wire);
        rest = higher;
    }
    put_hyphens(writer, rest);
}

// "X or S, target (for a swap both, lower first)"
fn put_action(writer: &mut Writer, action: Action)
    ensures { writer.new ≡ puts (action_text (gate_with action no_controls)) writer.old }
{
    match action {
        Action::Not(target) => {
            writer.put(b'X');
            put_spaced(writer, u64::from(target));
        }
        Action::Swap(target, second) => {
            writer.put(b'S');
            put_spaced(writer, u64::from(target));
            put_spaced(writer, u64::from(second));
        }
    }
}

// "gate number, X or S, target .., controls": the line of a gate.
#[tactic(auto, using(crate::proofs::WholeLines::gate_put))]
fn gate_line(writer: &mut Writer, number: u32, gate: &Gate)
    ensures { writer.new ≡ puts (gate_line number (gate_in gate.now)) writer.old }
{
    writer.put_decimal(u64::from(number));
    writer.put(b' ');
    put_action(writer, gate.action);
    put_controls(writer, gate.ones, gate.zeros);
    writer.put(b'\n');
}

// The lines of `count` gates, numbered from 1.
fn gate_lines(writer: &mut Writer, bytes: &[u8], count: u32)
    ensures { writer.new ≡ puts (lines_read 1 count (input_of bytes.now)) writer.old }
{
    let mut rest = bytes;
    for number in 1..=count {
        let Some((gate, behind)) = gate_at(rest) else {
            return;
        };
        gate_line(writer, number, &gate);
        rest = behind;
    }
}

// "gates plus data wires plus ancillas"
fn size(header: Header) -> u64
    ensures { result ≡ header.gates + header.qubits + header.ancillas }
{
    u64::from(header.gates) + u64::from(header.qubits) + u64::from(header.ancillas)
}

// "the first line is n, ancillas, size"
#[tactic(auto, using(crate::proofs::WholeLines::first_put))]
fn first_line(writer: &mut Writer, header: Header)
    ensures { writer.new ≡ puts (first_read header) writer.old }
{
    writer.put_decimal(u64::from(header.qubits));
    put_spaced(writer, u64::from(header.ancillas));
    put_spaced(writer, size(header));
    writer.put(b'\n');
}

// The listing of a circuit: its first line and a line for each gate.
#[tactic(auto, using(text::proofs::AppendLaws::put_then))]
fn put_listing(writer: &mut Writer, header: Header, gates: &[u8])
    ensures { writer.new ≡ puts (listing_read header gates.now) writer.old }
{
    first_line(writer, header);
    gate_lines(writer, gates, header.gates);
}

// How long the listing of a circuit is: it is put into a text of no bytes.
fn listing_length(header: Header, gates: &[u8]) -> usize
    ensures { result ≡ place_after 0 (length (listing_read header gates.now)) }
{
    let mut nothing = [0u8; 0];
    let mut writer = Writer::new(&mut nothing[..]);
    put_listing(&mut writer, header, gates);
    writer.length()
}

// The listing of a circuit, into a text that takes the whole of it: its length; 14 where the circuit is not well formed, 23 where the text is too
// short, and then the text is left as it is. A text that may be too short is measured.
pub fn list(circuit: &[u8], text: &mut [u8]) -> Result<usize, Refusal>
    ensures value { outcome_of result ≡ given_length (circuit_list circuit.now (length text.old)) }
    ensures text_after { text.new ≡ room_after (circuit_list circuit.now (length text.old)) text.old }
{
    let Some((header, gates)) = read_whole(circuit) else {
        return Err(Refusal::NotWellFormed);
    };
    if text.len() / LISTING_FACTOR < circuit.len() && text.len() < listing_length(header, gates) {
        return Err(Refusal::NoRoom);
    }
    let mut writer = Writer::new(text);
    put_listing(&mut writer, header, gates);
    Ok(writer.length())
}

// The same as C gets it.
pub fn list_circuit(circuit: &[u8], text: &mut [u8]) -> Answer
    ensures value { result ≡ length_answer (circuit_list circuit.now (length text.old)) }
    ensures text_after { text.new ≡ room_after (circuit_list circuit.now (length text.old)) text.old }
{
    Answer::from(list(circuit, text))
}
