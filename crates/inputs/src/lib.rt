// The inputs of a program, standard input or the files that its arguments name, where `-` names standard input; and its output.
#![tactic(auto)]

ghost use Rattle.io.specs.Counts.{IsPrefixLen};

use std::env::FillError;
use std::io::Read;
use std::rt::{Env, Files};
use std::{fs, io, str};

// The longest name that is looked at.
const NAME_LENGTH: usize = 4096;

// An input that is open.
#[derive(Drop)]
pub enum Source<S, F> {
    Standard(S),
    Named(F),
}

impl<S: Read, F: Read> Read for Source<S, F> {
    fn read(&mut self, buf: &mut [u8]) -> io::Result<usize> {
        match self {
            Source::Standard(input) => input.read(buf),
            Source::Named(file) => file.read(buf),
        }
    }
}

// How many arguments the program was started with, its own name among them.
pub fn argument_count(rt: &impl Env) -> usize {
    let mut room = [0u8; 1];
    for i in 0..usize::MAX {
        if let Err(FillError::NotPresent) = rt.arg(i, &mut room) {
            return i;
        }
    }
    usize::MAX
}

// Puts argument i at the start of the room and answers its length, 0 where it is missing or longer than the room.
pub fn argument(rt: &impl Env, i: usize, room: &mut [u8]) -> usize
    ensures { IsPrefixLen result room.new }
{
    match rt.arg(i, room) {
        Ok(length) => length,
        Err(_) => 0,
    }
}

// The input that argument i names. Where it cannot be opened there is none, and the error is printed.
pub fn open<R: Env + Files + Input + Eprint + AllocGlobal>(
    rt: &R,
    i: usize,
) -> Option<Source<R::Reader, R::File>> {
    let mut room = [0u8; NAME_LENGTH];
    let length = argument(rt, i, &mut room);
    let Ok(name) = str::from_utf8(&room[..length]) else {
        let _ = eprintln!(rt; "argument {i}: the name is not UTF-8");
        return None;
    };
    if name == "-" {
        return Some(Source::Standard(rt.reader()));
    }
    match fs::open(rt, name) {
        Ok(file) => Some(Source::Named(file)),
        Err(error) => {
            report(rt, name, &error);
            None
        }
    }
}

// Standard input stays open.
pub fn close<S: Drop, F: Drop>(_source: Source<S, F>) {}

// Visits each input of a program in turn: standard input where no argument names one, otherwise the named ones that can be opened. Which these are no clause can say.
pub fn each<R, V>(rt: &R, mut visit: V)
where
    R: Env + Files + Input + Eprint + AllocGlobal,
    V: FnMut(&mut Source<R::Reader, R::File>),
    requires { V.IsAlwaysCallable visit }
{
    let count = argument_count(rt);
    if count < 2 {
        visit(&mut Source::Standard(rt.reader()));
    }
    for i in 1..count {
        if let Some(mut source) = open(rt, i) {
            visit(&mut source);
        }
    }
}

// Reads until the room is full, the input ends or a read fails, and answers how many bytes stand at the start of the room. Each read says by how much the place goes
// on, so there is no index that a `for` could count.
pub fn read_full(input: &mut impl Read, room: &mut [u8]) -> usize
    ensures { IsPrefixLen result room.new }
{
    let mut done = 0;
    while done < room.len() {
        match input.read(&mut room[done..]) {
            Ok(0) | Err(_) => break,
            Ok(count) => done += count,
        }
    }
    done
}

// Writes all of a text to standard output. Where that fails it answers false, and the error is printed.
pub fn print(rt: &(impl Print + Eprint + AllocGlobal), text: &[u8]) -> bool {
    match rt.write_all(text) {
        Ok(()) => true,
        Err(error) => {
            report(rt, "standard output", &error);
            false
        }
    }
}

// Writes a line to standard error: what failed, a colon and the system's words for it.
fn report(rt: &(impl Eprint + AllocGlobal), what: &str, error: &io::Error) {
    let _ = match format!(in rt.alloc(); "{error}") {
        Ok(text) => {
            let words = without_number(text.as_str());
            eprintln!(rt; "{what}: {words}")
        }
        Err(_) => eprintln!(rt; "{what}: {error}"),
    };
}

// An error's text has the system's number for it behind the words.
fn without_number(text: &str) -> &str {
    match text.split_once(" (os error ") {
        Some((words, _)) => words,
        None => text,
    }
}
