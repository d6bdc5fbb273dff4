// What the programs on channels print: a line a call, with its arguments, and the bytes that are shown.
#![tactic(auto)]

use kernel::{ChannelNo, State};
use reading::HandedBack;
use std::fmt;
use test_lines::{Said, after, line};

// ---- bytes

// Each byte's number behind a space, and n bytes x in a row as x*n.
#[derive(Clone, Copy)]
pub struct Bytes<'a>(pub &'a [u8]);

impl fmt::Display for Bytes<'_> {
    fn fmt<W: fmt::Write>(&self, f: &mut fmt::Formatter<W>) -> fmt::Result {
        if self.0.is_empty() {
            return write!(f, " nothing");
        }
        for run in self.0.chunk_by(|x, y| x == y) {
            match run {
                [] => {}
                [x] => write!(f, " {x}")?,
                [x, ..] => write!(f, " {x}*{}", run.len())?,
            }
        }
        Ok(())
    }
}

// What is in the memory.
pub fn memory_shown(memory: &[u8]) {
    line(format_args!("memory:{}", Bytes(memory)));
}

// What is in a whole memory, a line a channel.
pub fn memory_by_channel(memory: &[u8]) {
    if memory.len() == State::MEMORY_SIZE {
        for channel in memory.chunks(State::MEMORY_SIZE / State::CHANNELS) {
            memory_shown(channel);
        }
    }
}

// ---- calls

pub fn open(s: State, size: usize, buffers: usize) -> State {
    let reply = channels::open_channel(s, size, buffers);
    after(format_args!("open {size} {buffers}"), reply)
}

pub fn begin_write(s: State, c: usize, memory: &mut [u8]) -> State {
    let reply = writing::begin_write(s, ChannelNo(c), memory);
    after(format_args!("begin write {c}"), reply)
}

pub fn piece(s: State, c: usize, offset: usize, text: &[u8], memory: &mut [u8]) -> State {
    let reply = writing::piece(s, ChannelNo(c), offset, text, memory);
    let bytes = Bytes(text);
    after(format_args!("piece {c} at {offset} of{bytes}"), reply)
}

pub fn put(s: State, c: usize, memory: &[u8]) -> State {
    let reply = writing::put(s, ChannelNo(c), memory);
    after(format_args!("put {c}"), reply)
}

pub fn begin_reading(s: State, c: usize, memory: &[u8]) -> State {
    let reply = reading::begin_reading(s, ChannelNo(c), memory);
    after(format_args!("begin reading {c}"), reply)
}

// Prints what was shown, and the answer beside it.
fn shown(call: impl fmt::Display + Drop, back: HandedBack) {
    line(format_args!("{call}: {}, shows{}", Said(back.answer), Bytes(back.slice)));
}

pub fn showing(s: State, c: usize, memory: &[u8]) {
    let back = reading::showing(s, ChannelNo(c), memory);
    shown(format_args!("showing {c}"), back);
}

pub fn screen<'a>(s: State, c: usize, memory: &'a [u8], standby: &'a [u8]) {
    let back = reading::screen(s, ChannelNo(c), memory, standby);
    shown(format_args!("screen {c}"), back);
}

pub fn close(s: State, c: usize, memory: &[u8]) -> State {
    let reply = reading::close(s, ChannelNo(c), memory);
    after(format_args!("close {c}"), reply)
}

// A whole message.
pub fn message(before: State, c: usize, text: &[u8], memory: &mut [u8]) -> State {
    let mut s = before;
    s = begin_write(s, c, memory);
    s = piece(s, c, 0, text, memory);
    put(s, c, memory)
}

// A reading from its beginning to its close.
pub fn look(before: State, c: usize, memory: &[u8]) -> State {
    let s = begin_reading(before, c, memory);
    showing(s, c, memory);
    close(s, c, memory)
}

// Both calls that show, with a stand-by text of 42 and 43.
pub fn shows(s: State, c: usize, memory: &[u8]) {
    let standby = [42u8, 43];
    showing(s, c, memory);
    screen(s, c, memory, &standby);
}

// A reading from its beginning to its close, with both.
fn read(before: State, c: usize, memory: &[u8]) -> State {
    let s = begin_reading(before, c, memory);
    shows(s, c, memory);
    close(s, c, memory)
}

// Every call that is lent a memory.
pub fn every(s: State, c: usize, memory: &mut [u8]) -> State {
    let t = message(s, c, &[1, 2], memory);
    read(t, c, memory)
}
