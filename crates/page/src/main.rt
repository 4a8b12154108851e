// The page program: "reads a circuit on standard input and prints its page, or 14 alone where it is not well formed". Where files are named as
// arguments it does the same with each of them in turn; `-` names standard input.
#![tactic(auto)]

ghost use Rattle.std.specs.Prelude.{◌≡◌, List, ◌++◌, ℕ, length, drop};
ghost use Rattle.io.specs.Counts.{IsPrefixLen};
ghost use Rattle.text.specs.Inputs.{BeginsWith};
ghost use Rattle.page.specs.Parts.{page_part};

use bands::page_band;
use limits::{MOST_BAND, MOST_CIRCUIT};
use std::io::Read;
use text::Writer;

// One byte more than a circuit can have: enough to know that an input is too long.
const INPUT_LENGTH: usize = MOST_CIRCUIT + 1;

// How much was put into the text, and the place where the next band begins, 0 behind the last. No Option: that a place is above the one before it is asked
// anyway, so that the page ends, and 0 is above none.
#[derive(Drop)]
struct Part {
    length: usize,
    next: usize,
}

// What is written for a place of an input: a band, or the refusal's number alone. The text is long enough for every band.
fn put_part(text: &mut [u8; MOST_BAND], input: &[u8], at: usize) -> Part
    ensures length_value { result.length ≡ length (page_part input.now at).text }
    ensures next_value { result.next ≡ (page_part input.now at).next }
    ensures text_after { text.new ≡ (page_part input.now at).text ++ drop result.length text.old }
    ensures prefix_len { IsPrefixLen result.length text.new }
{
    let band = page_band(input, at, &mut text[..]);
    if band.number != 0 {
        let mut writer = Writer::new(&mut text[..]);
        writer.put_refusal(band.number);
        return Part {
            length: writer.length(),
            next: 0,
        };
    }
    Part {
        length: band.length as usize,
        next: band.next as usize,
    }
}

// The same for an input of which the program read as much as the buffer takes: the buffer is long enough, whatever was left unread. That is said of the
// buffer's length, so this takes the buffer with a count, and no part of it.
fn put_part_read(
    text: &mut [u8; MOST_BAND],
    buffer: &[u8; INPUT_LENGTH],
    count: usize,
    at: usize,
) -> Part
    ensures by_index { (whole : List ℕ) → BeginsWith whole buffer.now count → result.length ≡ length (page_part whole at).text }
    ensures by_index_2 { (whole : List ℕ) → BeginsWith whole buffer.now count → result.next ≡ (page_part whole at).next }
    ensures by_index_3 { (whole : List ℕ) → BeginsWith whole buffer.now count →
        text.new ≡ (page_part whole at).text ++ drop result.length text.old }
    ensures prefix_len { IsPrefixLen result.length text.new }
{
    put_part(text, &buffer[..count.min(INPUT_LENGTH)], at)
}

// The page of what can be read from an input, band by band. A place is above the one before it, or 0, which ends the page; each band says where the next
// begins, so no `for` could count the places.
fn print_page(rt: &(impl Print + Eprint + AllocGlobal), input: &mut impl Read) {
    let mut buffer = [0u8; INPUT_LENGTH];
    let mut text = [0u8; MOST_BAND];
    let count = inputs::read_full(input, &mut buffer);
    let mut at = 0;
    loop {
        let part = put_part_read(&mut text, &buffer, count, at);
        if !inputs::print(rt, &text[..part.length]) || part.next <= at {
            return;
        }
        at = part.next;
    }
}

fn main(rt: HostRuntime) {
    inputs::each(&rt, |input| print_page(&rt, input));
}
