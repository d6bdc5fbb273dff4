// A call as a record of the tape, and a record as a call.
#![tactic(auto)]

ghost use Rattle.std.specs.Prelude.{◌≡◌};
ghost use Rattle.kernel.specs.Answer.{said};
ghost use Rattle.verbs.specs.Verbs.{verb_of};
ghost use Rattle.records.specs.Records as Records;

use kernel::{Answer, SemaphoreNo, TaskNo};
use tape::Record;
use verbs::Verb;

// A verb's number and its arguments; spare ones are 0.
#[derive(Clone, Copy)]
struct Numbers {
    verb: u8,
    first: u64,
    second: u64,
}

fn packed(asked: Verb) -> Numbers
    ensures { result ≡ Records.packed (verb_of asked) }
{
    match asked {
        Verb::Tick => with(1, 0),
        Verb::Hard(period, cost) => Numbers {
            verb: 2,
            first: period,
            second: cost,
        },
        Verb::Nrt(priority) => with(3, priority),
        Verb::Activate(task) => with(4, task.0 as u64),
        Verb::Sleep => with(5, 0),
        Verb::Cycle => with(6, 0),
        Verb::End => with(7, 0),
        Verb::Kill(task) => with(8, task.0 as u64),
        Verb::Newsem(count) => with(9, count),
        Verb::Delsem(semaphore) => with(10, semaphore.0 as u64),
        Verb::Wait(semaphore) => with(11, semaphore.0 as u64),
        Verb::Signal(semaphore) => with(12, semaphore.0 as u64),
    }
}

fn with(verb: u8, first: u64) -> Numbers
    ensures { result ≡ record { verb = verb; first = first; second = 0 } }
{
    Numbers {
        verb,
        first,
        second: 0,
    }
}

// A number above 4,294,967,295 is recorded as that.
#[tactic(auto, unfolding(crate::specs::Records::cut))]
fn cut(n: u64) -> u32
    ensures { result ≡ Records.cut n }
{
    u32::try_from(n).unwrap_or(u32::MAX)
}

// The record of a call with its answer, and the running task and the clock behind it.
pub fn recorded(asked: Verb, answer: Answer, running: usize, clock: u32) -> Record
    ensures { result ≡ Records.recorded (verb_of asked) (said answer).number running clock }
{
    let p = packed(asked);
    Record {
        verb: p.verb,
        first: cut(p.first),
        second: cut(p.second),
        answer: text::number_of(answer),
        running: (running % 256) as u8,
        clock: (clock % 65536) as u16,
    }
}

// The call that a record asks for.
pub fn asked(r: Record) -> Verb
    ensures { verb_of result ≡ Records.asked r }
{
    let first = r.first as u64;
    let task = TaskNo(r.first as usize);
    let semaphore = SemaphoreNo(r.first as usize);
    let verb = r.verb;
    match verb {
        2 => Verb::Hard(first, r.second as u64),
        3 => Verb::Nrt(first),
        4 => Verb::Activate(task),
        5 => Verb::Sleep,
        6 => Verb::Cycle,
        7 => Verb::End,
        8 => Verb::Kill(task),
        9 => Verb::Newsem(first),
        10 => Verb::Delsem(semaphore),
        11 => Verb::Wait(semaphore),
        12 => Verb::Signal(semaphore),
        _ => Verb::Tick,
    }
}
