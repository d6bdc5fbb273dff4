// The block of docs/TAPE.md: four calls are made on a fresh kernel and recorded, and their block is printed in hex, a line a field.
#![tactic(auto)]

ghost use Rattle.std.specs.Prelude.{◌+◌, ◌≤◌};
ghost use Rattle.tape.specs.Block.{block_size};

use kernel::{State, TaskNo};
use std::fmt;
use test_channel_lines::Bytes;
use test_lines::{line, title};
use verbs::Verb;

type Block = [u8; tape::BLOCK];

// Makes a call, and puts its record in its place.
fn call(w: &mut [u32; State::WORDS], block: &mut Block, i: usize, asked: Verb) {
    let answer = verbs::make(w, asked);
    let r = records::recorded(asked, answer, words::running(w), words::clock(w));
    tape::put(block, i, r);
}

// Bytes in hex, each behind a space.
#[derive(Clone, Copy)]
struct Hex<'a>(&'a [u8]);

impl fmt::Display for Hex<'_> {
    fn fmt<W: fmt::Write>(&self, f: &mut fmt::Formatter<W>) -> fmt::Result {
        for b in self.0 {
            write!(f, " {b:02x}")?;
        }
        Ok(())
    }
}

// Where a field starts, its name and its bytes.
fn field(block: &Block, at: usize, size: usize, name: &str)
    requires { at + size ≤ block_size }
{
    line(format_args!("{at} {name}:{}", Hex(&block[at..at + size])));
}

// The record of a call, 16 bytes.
fn record(block: &Block, at: usize, line: &str)
    requires { at + 16 ≤ block_size }
{
    title(line);
    field(block, at, 1, "verb");
    field(block, at + 1, 4, "first argument");
    field(block, at + 5, 4, "second argument");
    field(block, at + 9, 4, "answer");
    field(block, at + 13, 1, "running task");
    field(block, at + 14, 2, "clock");
}

fn shown(block: &Block) {
    field(block, 0, 4, "block number");
    field(block, 4, 2, "record count");
    record(block, 6, "hard 4 1");
    record(block, 22, "activate 1");
    record(block, 38, "tick");
    record(block, 54, "kill 9999999999");
    title("behind the records");
    // In decimal, and n bytes x in a row as x*n.
    line(format_args!("70 unused:{}", Bytes(&block[70..510])));
    field(block, 510, 2, "check");
}

fn main() {
    let mut w = State::fresh().words;
    let mut block = [0u8; tape::BLOCK];
    call(&mut w, &mut block, 0, Verb::Hard(4, 1));
    call(&mut w, &mut block, 1, Verb::Activate(TaskNo(1)));
    call(&mut w, &mut block, 2, Verb::Tick);
    call(&mut w, &mut block, 3, Verb::Kill(TaskNo(9999999999)));
    tape::close(&mut block, 0, 4);
    shown(&block);
}
