// What the kernel is asked: clock, status, deadline, slack and period. The words stay as they were.
#![tactic(auto, using(refusals::proofs::Answers::behind), unfolding(kernel::specs::Calls::effect))]

ghost use Rattle.std.specs.Prelude.{◌≡◌, not, ◌||◌, pos, ◌-ℤ◌};
ghost use Rattle.kernel.specs.Kernel.{task, hard, period_of};
ghost use Rattle.kernel.specs.Calls as Calls;
ghost use Rattle.kernel.specs.Calls.{question};
ghost use Rattle.kernel.specs.Refusals.{no_task_in_use};
ghost use Rattle.kernel.specs.Seen.{seen};
ghost use Rattle.kernel.specs.Sound.{Sound};
ghost use Rattle.kernel.specs.Promise.{Unlent, UnlentKnown};
ghost use Rattle.refusals.specs.Tested.{Verdict};

use kernel::{Answer, Refusal, Reply, State, TaskNo};

// ---- clock

pub fn clock_known(w: &[u32; State::WORDS]) -> Answer
    requires { Sound w.now }
    ensures { UnlentKnown (question Calls.clock) w.now w.now result }
{
    refusals::every_call(w)?;
    Ok(words::clock(w) as i64)
}

pub fn clock(s: State) -> Reply
    ensures { Unlent (question Calls.clock) s result }
{
    refusals::handed(s, |w| clock_known(w))
}

// ---- status

pub fn may_ask_status(w: &[u32; State::WORDS], n: usize) -> Result<(), Refusal>
    ensures { Verdict (question (Calls.status n)) w.now result }
{
    refusals::every_call(w)?;
    if n >= State::TASKS {
        return Err(Refusal::NoSuchNumber);
    }
    Ok(())
}

pub fn status_known(w: &[u32; State::WORDS], n: usize) -> Answer
    requires { Sound w.now }
    ensures { UnlentKnown (question (Calls.status n)) w.now w.now result }
{
    may_ask_status(w, n)?;
    Ok(kernel::status_number(refusals::status_of(w, n)) as i64)
}

// The number of a task's status, a FREE record's too.
pub fn status(s: State, task: TaskNo) -> Reply
    ensures { Unlent (question (Calls.status task.0)) s result }
{
    refusals::handed(s, |w| status_known(w, task.0))
}

// ---- deadline and slack, which have the same rows

pub fn may_ask(w: &[u32; State::WORDS], n: usize) -> Result<(), Refusal>
    ensures deadline { Verdict (question (Calls.deadline n)) w.now result }
    ensures slack { Verdict (question (Calls.slack n)) w.now result }
{
    refusals::every_call(w)?;
    if refusals::no_task_in_use(w, n) {
        return Err(Refusal::NoSuchNumber);
    }
    Ok(())
}

// The deadline of task n, 0 where there is no such task.
fn deadline_of(w: &[u32; State::WORDS], n: usize) -> u32
    ensures { result ≡ (task (seen w.now) n).deadline }
{
    if n < State::TASKS {
        return words::deadline(w, n);
    }
    0
}

pub fn deadline_known(w: &[u32; State::WORDS], n: usize) -> Answer
    requires { Sound w.now }
    ensures { UnlentKnown (question (Calls.deadline n)) w.now w.now result }
{
    may_ask(w, n)?;
    Ok(deadline_of(w, n) as i64)
}

pub fn deadline(s: State, task: TaskNo) -> Reply
    ensures { Unlent (question (Calls.deadline task.0)) s result }
{
    refusals::handed(s, |w| deadline_known(w, task.0))
}

fn slack_of(w: &[u32; State::WORDS], n: usize) -> i64
    ensures { result ≡ pos (task (seen w.now) n).deadline -ℤ pos (seen w.now).clock }
{
    let deadline = deadline_of(w, n);
    let clock = words::clock(w);
    deadline as i64 - clock as i64
}

pub fn slack_known(w: &[u32; State::WORDS], n: usize) -> Answer
    requires { Sound w.now }
    ensures { UnlentKnown (question (Calls.slack n)) w.now w.now result }
{
    may_ask(w, n)?;
    Ok(slack_of(w, n))
}

// Deadline minus clock, below zero once the deadline has passed.
pub fn slack(s: State, task: TaskNo) -> Reply
    ensures { Unlent (question (Calls.slack task.0)) s result }
{
    refusals::handed(s, |w| slack_known(w, task.0))
}

// ---- period

// Whether task n is in use and has no period: it is NRT.
fn no_period(w: &[u32; State::WORDS], n: usize) -> bool
    ensures { result ≡ not (no_task_in_use (seen w.now) n || hard (task (seen w.now) n).class) }
{
    !refusals::no_task_in_use(w, n) && !refusals::is_hard(w, n)
}

pub fn may_ask_period(w: &[u32; State::WORDS], n: usize) -> Result<(), Refusal>
    ensures { Verdict (question (Calls.period n)) w.now result }
{
    refusals::every_call(w)?;
    if no_period(w, n) {
        return Err(Refusal::NotAllowed);
    }
    if refusals::no_task_in_use(w, n) {
        return Err(Refusal::NoSuchNumber);
    }
    Ok(())
}

// The period of task n, 0 where there is no such task.
fn period_of(w: &[u32; State::WORDS], n: usize) -> u32
    ensures { result ≡ period_of (task (seen w.now) n).class }
{
    if n < State::TASKS {
        let class = words::class(w, n);
        return kernel::period_of(class);
    }
    0
}

pub fn period_known(w: &[u32; State::WORDS], n: usize) -> Answer
    requires { Sound w.now }
    ensures { UnlentKnown (question (Calls.period n)) w.now w.now result }
{
    may_ask_period(w, n)?;
    Ok(period_of(w, n) as i64)
}

// The period of a HARD task.
pub fn period(s: State, task: TaskNo) -> Reply
    ensures { Unlent (question (Calls.period task.0)) s result }
{
    refusals::handed(s, |w| period_known(w, task.0))
}
