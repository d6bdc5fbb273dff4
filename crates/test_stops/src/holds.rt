// What a state holds. A stopped kernel refuses every question, so its words are read.
ghost use Rattle.std.specs.Prelude.{◌<◌};
ghost use Rattle.kernel.specs.Sizes.{task_count};

use kernel::{Refusal, State, Stop};
use std::fmt;
use test_lines::line;

// A link's word as the link that it stands for.
#[derive(Clone, Copy)]
struct Link(u32);

impl fmt::Display for Link {
    fn fmt<W: fmt::Write>(&self, f: &mut fmt::Formatter<W>) -> fmt::Result {
        match self.0 {
            State::NONE => write!(f, "-1"),
            task => write!(f, "{task}"),
        }
    }
}

fn reason(stop: Stop) -> i64 {
    match stop {
        Stop::Going => 0,
        Stop::Overrun => Refusal::TimeOverflow.number(),
        Stop::Lifetime => Refusal::TimeExpired.number(),
    }
}

fn numbers(w: &[u32; State::WORDS]) {
    line(format_args!(
        "clock {}, stop {}, running {}, share {}",
        words::clock(w),
        reason(words::stop(w)),
        words::running(w),
        words::total(w)
    ));
}

fn firsts(w: &[u32; State::WORDS]) {
    line(format_args!(
        "first ready {}, idle {}, zombie {}",
        Link(words::head(w, State::READY_QUEUE)),
        Link(words::head(w, State::IDLE_QUEUE)),
        Link(words::head(w, State::ZOMBIE_QUEUE))
    ));
}

fn task(w: &[u32; State::WORDS], x: usize)
    requires { x < task_count }
{
    line(format_args!(
        "task {x}: status {}, deadline {}, next {}, previous {}",
        kernel::status_number(words::status(w, x)),
        words::deadline(w, x),
        Link(words::next(w, x)),
        Link(words::previous(w, x))
    ));
}

pub fn all(s: State) {
    let w = s.words;
    numbers(&w);
    firsts(&w);
    for x in 0..5 {
        task(&w, x);
    }
}
