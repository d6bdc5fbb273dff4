// A call on tasks, time or semaphores as data, and the making of it.
#![tactic(auto)]

ghost use Rattle.kernel.specs.Calls.{verb};
ghost use Rattle.kernel.specs.Sound.{Sound};
ghost use Rattle.kernel.specs.Promise.{Unlent, reply, UnlentKnown};
ghost use Rattle.verbs.specs.Verbs.{verb_of};

use kernel::{Answer, Refusal, SemaphoreNo, State, TaskNo};

// The verbs of document 01's scripts, with whatever numbers they are handed.
#[derive(Clone, Copy)]
pub enum Verb {
    Tick,
    Hard(u64, u64),
    Nrt(u64),
    Activate(TaskNo),
    Sleep,
    Cycle,
    End,
    Kill(TaskNo),
    Newsem(u64),
    Delsem(SemaphoreNo),
    Wait(SemaphoreNo),
    Signal(SemaphoreNo),
}

// Makes the call that is asked for, in words that are known to be sound.
pub fn make_known(w: &mut [u32; State::WORDS], asked: Verb) -> Answer
    requires { Sound w.old }
    ensures { UnlentKnown (verb (verb_of asked)) w.old w.new result }
{
    match asked {
        Verb::Tick => ticks::tick_known(w),
        Verb::Hard(period, cost) => creation::create_hard_known(w, period, cost),
        Verb::Nrt(priority) => creation::create_nrt_known(w, priority),
        Verb::Activate(task) => tasks::activate_known(w, task.0),
        Verb::Sleep => tasks::sleep_known(w),
        Verb::Cycle => tasks::cycle_known(w),
        Verb::End => endings::end_known(w),
        Verb::Kill(task) => endings::kill_known(w, task.0),
        Verb::Newsem(count) => semaphores::new_semaphore_known(w, count),
        Verb::Delsem(semaphore) => semaphores::delete_known(w, semaphore.0),
        Verb::Wait(semaphore) => semaphores::wait_known(w, semaphore.0),
        Verb::Signal(semaphore) => semaphores::signal_known(w, semaphore.0),
    }
}

// Makes it in any words, in place: what a public call promises of a state and its reply is true of them.
pub fn make(w: &mut [u32; State::WORDS], asked: Verb) -> Answer
    ensures { Unlent (verb (verb_of asked)) (record { words = w.old }) (reply w.new result) }
{
    if !soundness::sound(w) {
        return Err(Refusal::NotSound);
    }
    make_known(w, asked)
}
