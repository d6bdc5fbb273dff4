// What the test programs print: a line a call, with its answer, the running task and the clock.
#![tactic(auto)]

ghost use Rattle.std.specs.Prelude.{◌≡◌, ◌<◌};
ghost use Rattle.test_lines.specs.Check.{prime};
ghost use Rattle.test_lines.specs.Check as Check;

use kernel::{Answer, Reply, State};
use std::fmt::{self, Write};

// ---- the standard output: what cannot be written is let go, and the rest is still tried

// Its descriptor.
const STDOUT: i32 = 1;

const ROOM: usize = 1024;

pub fn write(text: &[u8]) {
    io::write_all(STDOUT, text);
}

// What is not written yet.
#[derive(Drop)]
struct Unwritten {
    bytes: [u8; ROOM],
    count: usize,
}

impl Unwritten {
    fn flush(&mut self) {
        if let Some(bytes) = self.bytes.get(..self.count) {
            write(bytes);
        }
        self.count = 0;
    }
}

impl fmt::Write for Unwritten {
    fn write_str(&mut self, text: &str) -> fmt::Result {
        for b in text.as_bytes() {
            if self.count >= ROOM {
                self.flush();
            }
            if let Some(place) = self.bytes.get_mut(self.count) {
                *place = *b;
                self.count += 1;
            }
        }
        Ok(())
    }
}

// A part of a line.
pub fn part(text: impl fmt::Display + Drop) {
    let mut unwritten = Unwritten {
        bytes: [0; ROOM],
        count: 0,
    };
    let _ = write!(unwritten, "{text}");
    unwritten.flush();
}

pub fn line(text: impl fmt::Display + Drop) {
    part(format_args!("{text}\n"));
}

pub fn title(text: &str) {
    line(format_args!("-- {text}"));
}

// ---- calls

// An answer as it is printed.
#[derive(Clone, Copy)]
pub struct Said(pub Answer);

impl fmt::Display for Said {
    fn fmt<W: fmt::Write>(&self, f: &mut fmt::Formatter<W>) -> fmt::Result {
        match self.0 {
            Ok(n) => write!(f, "{n}"),
            Err(refusal) => write!(f, "refused {}", refusal.number()),
        }
    }
}

// Prints what a call gave, and goes on with its state.
pub fn after(call: impl fmt::Display + Drop, reply: Reply) -> State {
    let said = Said(reply.answer);
    let task = reply.running.0;
    let clock = words::clock(&reply.state.words);
    line(format_args!("{call}: {said}, task {task}, clock {clock}"));
    reply.state
}

// n ticks, of which the last is printed.
pub fn ticked(before: State, n: usize) -> State {
    let mut s = before;
    for _ in 1..n {
        s = ticks::tick(s).state;
    }
    after("tick", ticks::tick(s))
}

// n tasks of NRT priority 9, of which the last is printed.
pub fn crowd(before: State, n: usize) -> State {
    let mut s = before;
    for _ in 1..n {
        s = creation::create_nrt(s, 9).state;
    }
    after("nrt 9", creation::create_nrt(s, 9))
}

// ---- check numbers, by which two programs are seen to have come to the same without printing it all

const PRIME: u64 = 4294967291;

// One number more.
pub fn folded(check: u64, n: u32) -> u64
    requires { check < prime }
    ensures below { result < prime }
    ensures value { result ≡ Check.folded check n }
{
    (check * 31 + n as u64) % PRIME
}

// The number that is folded for an answer.
pub fn of_answer(answer: Answer) -> u32 {
    raised(text::number_of(answer))
}

#[derive(Clone, Copy, Debug, PartialEq, Eq, PartialOrd, Ord)]
pub struct CheckNumber {
    value: u64,
    ghost below: { value < prime },
}

impl CheckNumber {
    pub fn new() -> CheckNumber
        ensures { result.value ≡ 0 }
    {
        CheckNumber { value: 0 }
    }

    // One number more.
    pub fn with(self, n: u32) -> CheckNumber
        ensures { result.value ≡ Check.folded self.value n }
    {
        CheckNumber {
            value: folded(self.value, n),
        }
    }

    // One answer more.
    pub fn with_answer(self, answer: Answer) -> CheckNumber {
        self.with(of_answer(answer))
    }
}

impl fmt::Display for CheckNumber {
    fn fmt<W: fmt::Write>(&self, f: &mut fmt::Formatter<W>) -> fmt::Result {
        write!(f, "{}", self.value)
    }
}

// Answers go down to -15: 100 above them are numbers from 0 on.
fn raised(n: i64) -> u32 {
    match n {
        -100..1000000 => (n + 100) as u32,
        _ => 0,
    }
}
