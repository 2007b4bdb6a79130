// The words that the program was called with, and complaints that show them.
ghost use Rattle.std.specs.Prelude.{◌≡◌, ◌≤◌, ◌<◌, length};

use crate::help::COMMANDS;
use planner_complaints::show;
use planner_output::{complain, complain_of, give_up};
use std::env::{Env, FillError};
use std::io;
use std::os::fd::AsFd;

// So many bytes hold any name of a file.
pub const WORD: usize = 4096;

// The system's number for an error: what should be open is closed.
const CLOSED: i32 = 9;

// Says of which input a call failed, and why; `-` is standard input.
pub fn fail(rt: &HostRuntime, name: &[u8], error: io::Error) {
    complain(rt, b"planner: ");
    if check::same(name, b"-") {
        complain(rt, b"standard input");
        complain_of(rt, error);
        return;
    }
    show(rt, name, 0, name.len(), 255);
    complain_of(rt, error);
}

// How many words the program was called with, its own name among them.
pub fn count(rt: &HostRuntime) -> usize {
    for i in 0..usize::MAX {
        if let Err(FillError::NotPresent) = rt.arg(i, &mut []) {
            return i;
        }
    }
    usize::MAX
}

// Puts word i at the start of a buffer and answers its length, 0 where there is none or it is longer than the buffer.
pub fn take_word(rt: &HostRuntime, i: usize, word: &mut [u8]) -> usize
    ensures { result ≤ length word.new }
{
    rt.arg(i, word).unwrap_or(0)
}

// Word i on standard error; of one that is longer than a file's name can be, the first 60 bytes.
pub fn show_word(rt: &HostRuntime, i: usize) {
    let mut word = [0u8; WORD];
    match rt.arg(i, &mut word) {
        Ok(n) => show(rt, &word, 0, n, 255),
        Err(FillError::TooLong) => {
            show(rt, &word, 0, 60, 255);
            complain(rt, b"..");
        }
        Err(FillError::NotPresent) => {}
    }
}

// ---- What a word is

pub fn is_word(rt: &HostRuntime, i: usize, text: &[u8]) -> bool {
    let mut word = [0u8; WORD];
    let n = take_word(rt, i, &mut word);
    check::same(&word[..n], text)
}

// It begins as an option does, and is not `-`.
pub fn is_option(rt: &HostRuntime, i: usize) -> bool {
    let mut word = [0u8; WORD];
    match rt.arg(i, &mut word) {
        Ok(n) => (n > 1) & (word[0] == b'-'),
        Err(FillError::TooLong) => word[0] == b'-',
        Err(FillError::NotPresent) => false,
    }
}

// 1 where word i stands for standard input, else 0.
pub fn from_standard_input(rt: &HostRuntime, i: usize) -> usize
    ensures { result ≤ 1 }
{
    if is_word(rt, i, b"-") { 1 } else { 0 }
}

// How many of two words stand for standard input; one word may be given as both.
pub fn standard_inputs(rt: &HostRuntime, first: usize, last: usize) -> usize
    ensures { result ≤ 2 }
{
    if first == last {
        return from_standard_input(rt, first);
    }
    from_standard_input(rt, first) + from_standard_input(rt, last)
}

// Standard input serves for so many words; else it is said why it does not. Ask before a file is opened: the first that is opened where
// standard input is closed gets its number.
pub fn serves(rt: &HostRuntime, inputs: usize) -> bool {
    if inputs == 0 {
        return true;
    }
    if inputs > 1 {
        complain(
            rt,
            b"planner: standard input serves for one word, and - stands for it twice or more\n",
        );
        return false;
    }
    match rt.stdin().as_fd().try_clone_to_owned() {
        Err(error) if error.raw_os_error() == Some(CLOSED) => {
            fail(rt, b"-", error);
            false
        }
        _ => true,
    }
}

// Says that a word is too long for a name.
pub fn too_long(rt: &HostRuntime, i: usize) -> u8
    ensures { result ≡ 50 }
{
    complain(rt, b"planner: ");
    show_word(rt, i);
    give_up(rt, b": longer than a file's name can be\n")
}

// Says that an option is none.
pub fn unknown(rt: &HostRuntime, i: usize) -> u8
    ensures { result ≡ 50 }
{
    complain(rt, b"planner: unknown option ");
    show_word(rt, i);
    give_up(rt, b"; planner --help lists them\n")
}

// ---- Commands

// The commands, in the order of the list `COMMANDS`, where two words mean the help; behind the last there are names alone.
#[derive(Clone, Copy)]
pub enum Command {
    Path,
    Urgent,
    Export,
    Import,
    Rewrite,
    Help,
    Version,
    NamesOnly,
}

// The place behind the next end of a line.
fn next_line(list: &[u8], from: usize) -> usize
    requires { from < length list.now }
    ensures { (from < result) × (result ≤ length list.now) }
{
    match list[from..].iter().position(|byte| *byte == b'\n') {
        Some(n) => from + n + 1,
        None => list.len(),
    }
}

// What is left of a list begins with this word and a blank.
fn begins(list: &[u8], word: &[u8]) -> bool {
    list.strip_prefix(word)
        .is_some_and(|behind| behind.starts_with(b" "))
}

// The number of the line that begins with a word, from 1.
fn line_of(list: &[u8], word: &[u8]) -> Option<usize> {
    let mut number: usize = 1;
    let mut at: usize = 0;
    while at < list.len() {
        if begins(&list[at..], word) {
            return Some(number);
        }
        at = next_line(list, at);
        number += 1;
    }
    None
}

// The command of the line of this number.
fn command_of(number: usize) -> Option<Command> {
    match number {
        1 => Some(Command::Path),
        2 => Some(Command::Urgent),
        3 => Some(Command::Export),
        4 => Some(Command::Import),
        5 => Some(Command::Rewrite),
        6 | 7 => Some(Command::Help),
        8 => Some(Command::Version),
        9 => Some(Command::NamesOnly),
        _ => None,
    }
}

// The command that word i is, if it is one.
pub fn command_at(rt: &HostRuntime, i: usize) -> Option<Command> {
    let mut word = [0u8; WORD];
    let n = take_word(rt, i, &mut word);
    command_of(line_of(&COMMANDS, &word[..n])?)
}
