// Document 02, S-1: one band of a circuit's page, its rows put from the marks of its gates.
#![tactic(auto)]

ghost use Rattle.std.specs.Prelude.{◌≡◌, ◌-◌, length, replicate};
ghost use Rattle.model.specs.Limits.{not_well_formed};
ghost use Rattle.model.specs.Listing.{space, decimal};
ghost use Rattle.model.specs.Page.{number_columns, right_aligned, place_of, page_band, lent_after, text_after};
ghost use Rattle.circuit.specs.GatesInBytes.{input_of};
ghost use Rattle.answers.specs.Structs.{band_answer, refused_band};
ghost use Rattle.text.specs.AppendedBytes.{puts};
ghost use Rattle.bands.specs.MarkedRows.{marked, marks_at, row_at, rows_at};
ghost use Rattle.bands.specs.Starts.{drawn_from, started};

use answers::PageBand;
use circuit::read_whole;
use limits::{BAND_GATES, HEADER_LENGTH, MOST_CIRCUIT, Refusal, WIRE_COUNT};
use marks::{Column, Columns, mark_band};
use text::Writer;

// "a mark and three dashes"
fn put_mark(writer: &mut Writer<'_>, mark: u8)
    ensures { writer.new ≡ puts (marked mark) writer.old }
{
    writer.put_all(&[mark, b'-', b'-', b'-']);
}

// How many columns a wire number leaves of its four.
#[tactic(auto, using(crate::proofs::RowText::indenting))]
fn indent(wire: u8) -> u8
    ensures { result ≡ number_columns - length (decimal wire) }
{
    match wire {
        0..=9 => 3,
        10..=99 => 2,
        _ => 1,
    }
}

// So many spaces.
#[tactic(auto, using(crate::proofs::RowText::rowing))]
fn put_spaces(writer: &mut Writer<'_>, count: u8)
    ensures { writer.new ≡ puts (replicate count space) writer.old }
{
    for _ in 0..count {
        writer.put(b' ');
    }
}

// "its wire number, right-aligned in four columns"
#[tactic(auto, using(text::proofs::AppendLaws::putting))]
fn put_number(writer: &mut Writer<'_>, wire: u8)
    ensures { writer.new ≡ puts (right_aligned wire) writer.old }
{
    put_spaces(writer, indent(wire));
    writer.put_decimal(wire as u64);
}

// "A row starts with its wire number": then the marks of all columns.
#[tactic(auto, using(text::proofs::AppendLaws::putting, crate::proofs::RowText::rowing))]
fn put_row(writer: &mut Writer<'_>, columns: &[Column], wire: u8)
    ensures { writer.new ≡ puts (row_at columns.now wire) writer.old }
{
    put_number(writer, wire);
    for column in columns {
        put_mark(writer, column[wire as usize]);
    }
    writer.put(b'\n');
}

// "Each wire is a row": wires 1 to `most`.
#[tactic(auto, using(crate::proofs::RowText::rowing))]
fn put_rows(writer: &mut Writer<'_>, columns: &[Column], most: u8)
    ensures { writer.new ≡ puts (rows_at columns.now most 1) writer.old }
{
    for wire in 1..=most {
        put_row(writer, columns, wire);
    }
}

// "14 alone where it is not well formed". PageBand is C's, so a refusal is a number there.
fn refused() -> PageBand
    ensures { result ≡ refused_band not_well_formed }
{
    PageBand {
        number: u32::from(Refusal::NotWellFormed),
        length: 0,
        next: 0,
    }
}

// The rows, put into a text that is long enough for them: `size` is their length. A text that is too short is left as it is.
fn put_band(text: &mut [u8], size: usize, columns: &[Column], most: u8)
    ensures { size ≡ length (rows_at columns.now most 1) → text.new ≡ lent_after (rows_at columns.now most 1) text.old }
{
    if size <= text.len() {
        let mut writer = Writer::new(text);
        put_rows(&mut writer, columns, most);
    }
}

// Where the next band begins: 0 where no byte is left, as PageBand says it in C.
fn next_place(bytes: &[u8], left: &[u8]) -> usize
    ensures { result ≡ place_of bytes.now (input_of left.now) }
{
    if left.is_empty() {
        return 0;
    }
    bytes.len().saturating_sub(left.len())
}

// The band of the gates at the beginning of these of the circuit's bytes, over wires 1 to `most`.
fn draw(bytes: &[u8], gates: &[u8], most: u8, text: &mut [u8]) -> PageBand
    ensures value { result ≡ band_answer (drawn_from bytes.now gates.now most) }
    ensures text_after { text.new ≡ text_after (drawn_from bytes.now gates.now most) text.old }
{
    let mut columns: Columns = [[b'-'; WIRE_COUNT]; BAND_GATES as usize];
    let Some((count, left)) = mark_band(&mut columns[..], gates, most) else {
        return refused();
    };
    // On each row the wire number's four columns, four for each gate, and a newline.
    let length = most as usize * (4 + 4 * count + 1);
    put_band(text, length, &columns[..count], most);
    PageBand {
        number: 0,
        length: length as u64,
        next: next_place(bytes, left) as u64,
    }
}

// The bytes from which a band is drawn and its last wire: for place 0 the first band's, after the whole circuit was read; for a later place those that
// the band before it left.
#[tactic(auto, using(crate::proofs::BandStarts::starting))]
fn band_start(bytes: &[u8], at: usize) -> Option<(&[u8], u8)>
    ensures { started bytes.now result ≡ page_band bytes.now at }
{
    let [_, qubits, ancillas, _, _, _, _, gates @ ..] = bytes else {
        return None;
    };
    let wires = qubits.checked_add(*ancillas)?;
    if at == 0 {
        read_whole(bytes)?;
        return Some((gates, wires));
    }
    if MOST_CIRCUIT < bytes.len() || at <= HEADER_LENGTH || bytes.len() <= at {
        return None;
    }
    Some((&bytes[at..], wires))
}

// One band of a circuit's page: the first for place 0, after the whole circuit was read; a later one for the place that the band before it gave.
#[tactic(auto, unfolding(answers::specs::Structs::band_answer, model::specs::Page::text_after))]
pub fn page_band(bytes: &[u8], at: usize, text: &mut [u8]) -> PageBand
    ensures value { result ≡ band_answer (page_band bytes.now at) }
    ensures text_after { text.new ≡ text_after (page_band bytes.now at) text.old }
{
    let Some((gates, most)) = band_start(bytes, at) else {
        return refused();
    };
    draw(bytes, gates, most, text)
}
