// The merges of six steps, three of each writer, and the points before, between and behind them.
ghost use Rattle.std.specs.Prelude.{◌<◌};

use super::steps::{Controller, Reader, Writer};
use kernel::TaskNo;
use std::fmt;
use test_lines::part;

const STEPS: usize = 6;

const POINTS: usize = STEPS + 1;

// Whose steps come, in order: bit i says that step i is A's.
#[derive(Clone, Copy)]
struct Merge(u32);

impl Merge {
    fn is_a(self, step: usize) -> bool
        requires { step < 32 }
    {
        self.0 >> step & 1 == 1
    }
}

impl fmt::Display for Merge {
    fn fmt<W: fmt::Write>(&self, f: &mut fmt::Formatter<W>) -> fmt::Result {
        for step in 0..STEPS {
            let name = if self.is_a(step) { "A" } else { "B" };
            write!(f, "{name}")?;
        }
        Ok(())
    }
}

// A mark for each point.
#[derive(Clone, Copy)]
struct Marks([char; POINTS]);

impl fmt::Display for Marks {
    fn fmt<W: fmt::Write>(&self, f: &mut fmt::Formatter<W>) -> fmt::Result {
        for mark in self.0 {
            write!(f, "{mark}")?;
        }
        Ok(())
    }
}

// What is noted of a play: what became of each step, and what each reader is shown at each point.
#[derive(Clone, Copy)]
struct Notes {
    done: Marks,
    shown1: Marks,
    shown2: Marks,
}

// Plays a merge, in which the readers open at these points.
fn play(buffers: usize, merge: Merge, opens1: usize, opens2: usize) -> Notes {
    let mut controller = Controller::new(buffers);
    let mut a = Writer::new(TaskNo(1), b"A's words");
    let mut b = Writer::new(TaskNo(2), b"B's words");
    let reader1 = Reader {
        task: TaskNo(3),
        opens: opens1,
    };
    let reader2 = Reader {
        task: TaskNo(4),
        opens: opens2,
    };
    let mut done = [' '; POINTS];
    let mut shown1 = [' '; POINTS];
    let mut shown2 = [' '; POINTS];
    for point in 0..POINTS {
        shown1[point] = reader1.look(&mut controller, point);
        shown2[point] = reader2.look(&mut controller, point);
        if point < STEPS {
            done[point] = if merge.is_a(point) {
                a.step(&mut controller)
            } else {
                b.step(&mut controller)
            };
        }
    }
    Notes {
        done: Marks(done),
        shown1: Marks(shown1),
        shown2: Marks(shown2),
    }
}

// One play: what became of the steps, where some may be refused, and what both readers are shown.
fn cell(buffers: usize, merge: Merge, opens1: usize, opens2: usize) {
    let notes = play(buffers, merge, opens1, opens2);
    part(" |");
    if buffers < 3 {
        part(format_args!(" {}", notes.done));
    }
    part(format_args!(" {} {}", notes.shown1, notes.shown2));
}

// A line: reader 1 opens at one point, and reader 2 at each.
fn line(buffers: usize, merge: Merge, opens1: usize) {
    part(format_args!("{merge} {opens1}"));
    for opens2 in 0..POINTS {
        cell(buffers, merge, opens1, opens2);
    }
    part("\n");
}

// Every merge, with reader 1 opening at that point and at each later one.
pub fn merges(buffers: usize, first: usize) {
    for bits in 0..1u32 << STEPS {
        if bits.count_ones() == 3 {
            for opens1 in first..POINTS {
                line(buffers, Merge(bits), opens1);
            }
        }
    }
}
