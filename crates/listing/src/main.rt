// The listing program: "reads the byte n and then a table on standard input", and prints the table's circuit, or the refusal's number. Where
// files are named as arguments it does the same with each of them in turn; `-` names standard input.
#![tactic(auto)]

ghost use Rattle.std.specs.Prelude.{◌≡◌, List, ◌++◌, ℕ, ◌≤◌, length, take, drop};
ghost use Rattle.model.specs.Limits.{most_circuit};
ghost use Rattle.model.specs.Answers.{circuit_read};
ghost use Rattle.model.specs.Listing.{refusal_line, listed, listing_of, listing};
ghost use Rattle.io.specs.Counts.{IsPrefixLen};
ghost use Rattle.text.specs.Inputs.{BeginsWith};

use compile::compile;
use limits::{LEAST_WORKSPACE, MOST_CIRCUIT, MOST_LISTING, MOST_RECORDS, MOST_REMOVALS};
use std::io::Read;
use text::Writer;

// The longest record: map, kind, removals behind their count, and number a; a number has three bytes.
const RECORD_LENGTH: usize = 2 + 1 + 3 * MOST_REMOVALS as usize + 3;

// As much of an input as is ever looked at: n, edition and p, the longest records, and map and kind of one too many.
const INPUT_LENGTH: usize = 1 + 2 + RECORD_LENGTH * MOST_RECORDS + 2;

// "A refusal prints its number alone."
fn put_refusal(text: &mut [u8; MOST_LISTING], number: u32) -> usize
    ensures value { result ≡ length (refusal_line number) }
    ensures text_after { text.new ≡ refusal_line number ++ drop result text.old }
{
    let mut writer = Writer::new(&mut text[..]);
    writer.put_refusal(number);
    writer.length()
}

// The listing of the circuit in a room's first bytes. The text is long enough for every listing.
fn list_room(text: &mut [u8; MOST_LISTING], room: &[u8; MOST_CIRCUIT], used: usize) -> usize
    requires { used ≤ most_circuit }
    ensures value { result ≡ length (listed (circuit_read (take used room.now))) }
    ensures text_after { text.new ≡ listed (circuit_read (take used room.now)) ++ drop result text.old }
{
    let bytes = &room[..];
    match lines::list(&bytes[..used], &mut text[..]) {
        Ok(length) => length,
        Err(why) => put_refusal(text, u32::from(why)),
    }
}

// The circuit that compile writes into the room, line by line, or the refusal's line.
fn list_table(
    text: &mut [u8; MOST_LISTING],
    n: u8,
    table: &[u8],
    room: &mut [u8; MOST_CIRCUIT],
    workspace: &mut [u8; LEAST_WORKSPACE],
) -> usize
    ensures value { result ≡ length (listing_of n table.now) }
    ensures text_after { text.new ≡ listing_of n table.now ++ drop result text.old }
{
    match compile(table, n as u32, &mut room[..], &mut workspace[..]) {
        Ok(length) => list_room(text, room, length),
        Err(why) => put_refusal(text, u32::from(why)),
    }
}

// "Empty input counts as n = 0."
fn list(text: &mut [u8; MOST_LISTING], input: &[u8]) -> usize
    ensures value { result ≡ length (listing input.now) }
    ensures text_after { text.new ≡ listing input.now ++ drop result text.old }
    ensures prefix_len { IsPrefixLen result text.new }
{
    let mut room = [0u8; MOST_CIRCUIT];
    let mut workspace = [0u8; LEAST_WORKSPACE];
    match input.split_first() {
        Some((n, table)) => list_table(text, *n, table, &mut room, &mut workspace),
        None => list_table(text, 0, input, &mut room, &mut workspace),
    }
}

// All that the program writes for an input, of which it read as much as the buffer takes: the buffer is long enough, whatever was left unread.
fn list_read(text: &mut [u8; MOST_LISTING], buffer: &[u8; INPUT_LENGTH], count: usize) -> usize
    ensures by_index { (whole : List ℕ) → BeginsWith whole buffer.now count → result ≡ length (listing whole) }
    ensures by_index_2 { (whole : List ℕ) → BeginsWith whole buffer.now count →
        text.new ≡ listing whole ++ drop result text.old }
    ensures prefix_len { IsPrefixLen result text.new }
{
    let bytes = &buffer[..];
    list(text, &bytes[..count.min(INPUT_LENGTH)])
}

// What can be read from an input, listed.
fn list_input(rt: &(impl Print + Eprint + AllocGlobal), input: &mut impl Read) {
    let mut buffer = [0u8; INPUT_LENGTH];
    let mut text = [0u8; MOST_LISTING];
    let count = inputs::read_full(input, &mut buffer);
    let length = list_read(&mut text, &buffer, count);
    inputs::print(rt, &text[..length]);
}

fn main(rt: HostRuntime) {
    inputs::each(&rt, |input| list_input(&rt, input));
}
