// The worked programs of document 01 that "run in a program beside a second interpreter". Each argument names a file that holds, in
// hexadecimal, the byte n, a start word, the length of the room and a table. For each the program prints its name and three answers: the
// number of the verdict, number and end word of the run, number and length of compile.
#![tactic(auto)]

ghost use Rattle.std.specs.Prelude.{◌<◌};
ghost use Rattle.io.specs.Counts.{IsPrefixLen};

use answers::Answer;
use foq::{foq_compile, foq_run, foq_verdict};
use limits::LEAST_WORKSPACE;
use std::rt::{Env, Files};
use std::{fs, io, str};

// What a hexadecimal digit stands for; no other byte is in the files. std reads a text, and no byte.
fn digit(byte: u8) -> u8
    ensures { result < 16 }
{
    match byte {
        b'0'..=b'9' => byte - b'0',
        b'A'..=b'F' => byte - b'A' + 10,
        _ => 0,
    }
}

// The bytes of a text in which each has two digits, and a space or a newline behind them.
fn spelled(text: &[u8], bytes: &mut [u8]) -> usize
    ensures { IsPrefixLen result bytes.new }
{
    let (spellings, _) = text.as_chunks::<3>();
    for (byte, &[high, low, _]) in bytes.iter_mut().zip(spellings) {
        *byte = 16 * digit(high) + digit(low);
    }
    spellings.len().min(bytes.len())
}

fn print_answer(rt: &impl Print, name: &str, answer: Answer) -> io::Result<()> {
    let number = answer.number;
    let value = answer.value;
    print!(rt; " {name} {number} {value}")
}

fn print_verdict(rt: &impl Print, n: u8, table: &[u8], workspace: &mut [u8]) -> io::Result<()> {
    let number = foq_verdict(table, n as u32, workspace);
    print!(rt; " verdict {number}")
}

fn print_run(
    rt: &impl Print,
    n: u8,
    word: u8,
    table: &[u8],
    workspace: &mut [u8],
) -> io::Result<()> {
    let answer = foq_run(table, n as u32, word as u64, workspace);
    print_answer(rt, "run", answer)
}

fn print_compile(
    rt: &impl Print,
    n: u8,
    length: u8,
    table: &[u8],
    workspace: &mut [u8],
) -> io::Result<()> {
    let mut room = [0u8; 255];
    let end = length as usize;
    let answer = foq_compile(table, n as u32, &mut room[0..end], workspace);
    print_answer(rt, "compile", answer)
}

fn print_answers(
    rt: &impl Print,
    n: u8,
    word: u8,
    room: u8,
    table: &[u8],
    workspace: &mut [u8],
) -> io::Result<()> {
    print_verdict(rt, n, table, workspace)?;
    print_run(rt, n, word, table, workspace)?;
    print_compile(rt, n, room, table, workspace)
}

fn print_case(rt: &impl Print, case: &[u8]) -> io::Result<()> {
    let mut workspace = [0u8; LEAST_WORKSPACE];
    if 3 <= case.len() {
        print_answers(rt, case[0], case[1], case[2], &case[3..], &mut workspace)?;
    }
    Ok(())
}

// Of a file that cannot be opened nothing is read.
fn read_file(rt: &impl Files, name: &[u8], text: &mut [u8]) -> usize
    ensures { IsPrefixLen result text.new }
{
    let Ok(name) = str::from_utf8(name) else {
        return 0;
    };
    match fs::open(rt, name) {
        Ok(mut file) => inputs::read_full(&mut file, text),
        Err(_) => 0,
    }
}

fn print_file(rt: &(impl Files + Print), name: &[u8]) -> io::Result<()> {
    let mut text = [0u8; 512];
    let mut case = [0u8; 128];
    let count = read_file(rt, name, &mut text);
    let length = spelled(&text[..count], &mut case);
    print_case(rt, &case[..length])
}

fn print_argument(rt: &(impl Env + Files + Print), i: usize) -> io::Result<()> {
    let mut name = [0u8; 64];
    let length = inputs::argument(rt, i, &mut name);
    rt.write_all(&name[..length])?;
    print_file(rt, &name[..length])?;
    println!(rt)
}

fn main(rt: HostRuntime) -> io::Result<()> {
    for i in 1..inputs::argument_count(&rt) {
        print_argument(&rt, i)?;
    }
    Ok(())
}
