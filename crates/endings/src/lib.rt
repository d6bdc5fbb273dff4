// End and kill.
#![tactic(auto, using(refusals::proofs::Answers::behind), unfolding(kernel::specs::Calls::effect))]

ghost use Rattle.std.specs.Prelude.{◌<◌};
ghost use Rattle.kernel.specs.Sizes.{task_count, channel_count};
ghost use Rattle.kernel.specs.Kernel.{task, with_sessions};
ghost use Rattle.kernel.specs.Moves.{move};
ghost use Rattle.kernel.specs.Tasks as Tasks;
ghost use Rattle.kernel.specs.Calls as Calls;
ghost use Rattle.kernel.specs.Calls.{verb};
ghost use Rattle.kernel.specs.Seen.{seen};
ghost use Rattle.kernel.specs.Sound.{Sound};
ghost use Rattle.kernel.specs.Shows.{Kept, Shows};
ghost use Rattle.kernel.specs.Promise.{Unlent, UnlentKnown};
ghost use Rattle.refusals.specs.Tested.{Verdict, Legal};

use kernel::{Answer, Class, Refusal, Reply, Session, State, Status, TaskNo};

// The sessions of task n are closed, unput.
#[tactic(auto, using(crate::proofs::Closing::begins, crate::proofs::Closing::more))]
fn close_sessions(w: &mut [u32; State::WORDS], n: usize)
    requires kept { Kept w.old }
    requires is_task { n < task_count }
    ensures { Shows w.new (with_sessions (seen w.old) (Tasks.close_sessions channel_count n (seen w.old).sessions)) }
{
    for c in 0..State::CHANNELS {
        words::set_session(w, State::TASKS * c + n, Session::Closed);
    }
}

// Task n goes out of whichever queue it is in: HARD to zombie, keeping deadline and share; NRT goes FREE.
fn ended(w: &mut [u32; State::WORDS], n: usize)
    requires kept { Kept w.old }
    requires is_task { n < task_count }
    ensures { Shows w.new (move (seen w.old) n (Tasks.ended (task (seen w.old) n) (task (seen w.old) n).class)) }
{
    let class = words::class(w, n);
    match class {
        Class::Nrt { priority: _ } => {
            let none = Class::Nrt { priority: 0 };
            queues::recast(w, n, none, Status::Free, 0);
        }
        Class::Hard { period: _, cost: _ } => {
            processor::restate(w, n, Status::Zombie);
        }
    }
}

// So it ends, with its sessions.
fn finish(w: &mut [u32; State::WORDS], n: usize)
    requires kept { Kept w.old }
    requires is_task { n < task_count }
    ensures { Shows w.new (Tasks.finish n (seen w.old)) }
{
    ended(w, n);
    close_sessions(w, n);
}

// ---- end

pub fn gone(w: &mut [u32; State::WORDS])
    requires { Legal (verb Calls.end) w.old }
    ensures { Shows w.new (Tasks.end (seen w.old)) }
{
    let i = words::running(w);
    finish(w, i);
    processor::dispatch(w);
}

pub fn end_known(w: &mut [u32; State::WORDS]) -> Answer
    requires { Sound w.old }
    ensures { UnlentKnown (verb Calls.end) w.old w.new result }
{
    refusals::not_by_main(w)?;
    gone(w);
    Ok(0)
}

// The running task ends, and the first ready task runs.
pub fn end(s: State) -> Reply
    ensures { Unlent (verb Calls.end) s result }
{
    refusals::handed(s, |w| end_known(w))
}

// ---- kill

pub fn may_kill(w: &[u32; State::WORDS], n: usize) -> Result<(), Refusal>
    ensures { Verdict (verb (Calls.kill n)) w.now result }
{
    refusals::every_call(w)?;
    if n == 0 {
        return Err(Refusal::NotAllowed);
    }
    if refusals::no_task_in_use(w, n) {
        return Err(Refusal::NoSuchNumber);
    }
    if refusals::status_of(w, n) == Status::Zombie {
        return Err(Refusal::WrongStatus);
    }
    Ok(())
}

pub fn killed(w: &mut [u32; State::WORDS], n: usize)
    requires { Legal (verb (Calls.kill n)) w.old }
    ensures { Shows w.new (Tasks.kill n (seen w.old)) }
{
    let running = words::running(w);
    finish(w, n);
    if n == running {
        processor::dispatch(w);
        return;
    }
}

pub fn kill_known(w: &mut [u32; State::WORDS], n: usize) -> Answer
    requires { Sound w.old }
    ensures { UnlentKnown (verb (Calls.kill n)) w.old w.new result }
{
    may_kill(w, n)?;
    killed(w, n);
    Ok(0)
}

// Task n ends. Kill of oneself is end.
pub fn kill(s: State, task: TaskNo) -> Reply
    ensures { Unlent (verb (Calls.kill task.0)) s result }
{
    refusals::handed(s, |w| kill_known(w, task.0))
}
