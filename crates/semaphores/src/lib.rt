// New semaphore, delete, wait and signal.
#![tactic(auto, using(refusals::proofs::Answers::behind), unfolding(kernel::specs::Calls::effect))]

ghost use Rattle.std.specs.Prelude.{◌≡◌, not, ◌||◌};
ghost use Rattle.kernel.specs.Status.{waiters};
ghost use Rattle.kernel.specs.Kernel.{queue, semaphore};
ghost use Rattle.kernel.specs.Semaphores as Semaphores;
ghost use Rattle.kernel.specs.Semaphores.{lowest_semaphore};
ghost use Rattle.kernel.specs.Calls as Calls;
ghost use Rattle.kernel.specs.Calls.{verb};
ghost use Rattle.kernel.specs.Refusals.{empty, main_runs, hard_runs, no_semaphore};
ghost use Rattle.kernel.specs.Seen.{seen};
ghost use Rattle.kernel.specs.Sound.{Sound};
ghost use Rattle.kernel.specs.Shows.{Shows};
ghost use Rattle.kernel.specs.Promise.{Unlent, UnlentKnown};
ghost use Rattle.refusals.specs.Tested.{Verdict, Legal};

use kernel::{Answer, Refusal, Reply, Semaphore, SemaphoreNo, State, Status};

// Whether a semaphore number is out of range, or unused.
fn no_semaphore(w: &[u32; State::WORDS], n: usize) -> bool
    ensures { result ≡ no_semaphore (seen w.now) n }
{
    if n >= State::SEMAPHORES {
        return true;
    }
    let a = words::semaphore(w, n);
    !a.used
}

// The count of semaphore n, 0 where there is no such semaphore.
fn count_of(w: &[u32; State::WORDS], n: usize) -> u32
    ensures { result ≡ (semaphore (seen w.now) n).count }
{
    if n < State::SEMAPHORES {
        let a = words::semaphore(w, n);
        return a.count;
    }
    0
}

// The lowest unused semaphore, SEMAPHORES where there is none.
fn lowest(w: &[u32; State::WORDS]) -> usize
    ensures { result ≡ lowest_semaphore (seen w.now) }
{
    (0..State::SEMAPHORES)
        .find(|n| no_semaphore(w, *n))
        .unwrap_or(State::SEMAPHORES)
}

// ---- new semaphore

// Semaphore n is the lowest unused one.
pub fn may_make(w: &[u32; State::WORDS], n: usize, count: u64) -> Result<(), Refusal>
    requires { n ≡ lowest_semaphore (seen w.now) }
    ensures { Verdict (verb (Calls.new_semaphore count)) w.now result }
{
    refusals::every_call(w)?;
    if count > State::HIGHEST_COUNT as u64 {
        return Err(Refusal::OutsideSizes);
    }
    if n == State::SEMAPHORES {
        return Err(Refusal::NoSemaphore);
    }
    Ok(())
}

pub fn made(w: &mut [u32; State::WORDS], n: usize, count: u64)
    requires legal { Legal (verb (Calls.new_semaphore count)) w.old }
    requires lowest { n ≡ lowest_semaphore (seen w.old) }
    ensures { Shows w.new (Semaphores.new_semaphore count (seen w.old)) }
{
    let a = Semaphore {
        used: true,
        count: count as u32,
    };
    words::set_semaphore(w, n, a);
}

pub fn new_semaphore_known(w: &mut [u32; State::WORDS], count: u64) -> Answer
    requires { Sound w.old }
    ensures { UnlentKnown (verb (Calls.new_semaphore count)) w.old w.new result }
{
    let n = lowest(w);
    may_make(w, n, count)?;
    made(w, n, count);
    refusals::done_with(n)
}

// Takes the lowest unused semaphore, with this count, and answers its number.
pub fn new_semaphore(s: State, count: u64) -> Reply
    ensures { Unlent (verb (Calls.new_semaphore count)) s result }
{
    refusals::handed(s, |w| new_semaphore_known(w, count))
}

// ---- delete

// Whether semaphore n has waiters.
fn has_waiters(w: &[u32; State::WORDS], n: usize) -> bool
    ensures { result ≡ not (empty (queue (seen w.now) (waiters n))) }
{
    if n < State::SEMAPHORES {
        let x = queues::first(w, State::WAITERS + n);
        return x < State::TASKS;
    }
    false
}

pub fn may_delete(w: &[u32; State::WORDS], n: usize) -> Result<(), Refusal>
    ensures { Verdict (verb (Calls.delete n)) w.now result }
{
    refusals::every_call(w)?;
    if no_semaphore(w, n) {
        return Err(Refusal::NoSuchNumber);
    }
    if has_waiters(w, n) {
        return Err(Refusal::WrongStatus);
    }
    Ok(())
}

pub fn deleted(w: &mut [u32; State::WORDS], n: usize)
    requires { Legal (verb (Calls.delete n)) w.old }
    ensures { Shows w.new (Semaphores.delete n (seen w.old)) }
{
    let a = Semaphore {
        used: false,
        count: 0,
    };
    words::set_semaphore(w, n, a);
}

pub fn delete_known(w: &mut [u32; State::WORDS], n: usize) -> Answer
    requires { Sound w.old }
    ensures { UnlentKnown (verb (Calls.delete n)) w.old w.new result }
{
    may_delete(w, n)?;
    deleted(w, n);
    Ok(0)
}

// A semaphore at which no one waits is unused again.
pub fn delete(s: State, semaphore: SemaphoreNo) -> Reply
    ensures { Unlent (verb (Calls.delete semaphore.0)) s result }
{
    refusals::handed(s, |w| delete_known(w, semaphore.0))
}

// ---- wait

// Whether the running task never waits: task 0 does not, and no HARD task does.
fn never_waits(w: &[u32; State::WORDS]) -> bool
    ensures { result ≡ main_runs (seen w.now) || hard_runs (seen w.now) }
{
    refusals::main_runs(w) || refusals::hard_runs(w)
}

pub fn may_wait(w: &[u32; State::WORDS], n: usize) -> Result<(), Refusal>
    ensures { Verdict (verb (Calls.wait n)) w.now result }
{
    refusals::every_call(w)?;
    if never_waits(w) {
        return Err(Refusal::NotAllowed);
    }
    if no_semaphore(w, n) {
        return Err(Refusal::NoSuchNumber);
    }
    Ok(())
}

pub fn waited(w: &mut [u32; State::WORDS], n: usize)
    requires { Legal (verb (Calls.wait n)) w.old }
    ensures { Shows w.new (Semaphores.wait n (seen w.old)) }
{
    let count = count_of(w, n);
    if 0 < count {
        let a = Semaphore {
            used: true,
            count: count - 1,
        };
        words::set_semaphore(w, n, a);
        return;
    }
    let i = words::running(w);
    let semaphore = SemaphoreNo(n);
    processor::restate(w, i, Status::Wait(semaphore));
    processor::dispatch(w);
}

pub fn wait_known(w: &mut [u32; State::WORDS], n: usize) -> Answer
    requires { Sound w.old }
    ensures { UnlentKnown (verb (Calls.wait n)) w.old w.new result }
{
    may_wait(w, n)?;
    waited(w, n);
    Ok(0)
}

// Count above 0 falls by 1, else the running task WAITs and the first ready task runs.
pub fn wait(s: State, semaphore: SemaphoreNo) -> Reply
    ensures { Unlent (verb (Calls.wait semaphore.0)) s result }
{
    refusals::handed(s, |w| wait_known(w, semaphore.0))
}

// ---- signal

pub fn may_signal(w: &[u32; State::WORDS], n: usize) -> Result<(), Refusal>
    ensures { Verdict (verb (Calls.signal n)) w.now result }
{
    refusals::every_call(w)?;
    if no_semaphore(w, n) {
        return Err(Refusal::NoSuchNumber);
    }
    if count_of(w, n) == State::HIGHEST_COUNT {
        return Err(Refusal::WrongStatus);
    }
    Ok(())
}

pub fn signalled(w: &mut [u32; State::WORDS], n: usize)
    requires { Legal (verb (Calls.signal n)) w.old }
    ensures { Shows w.new (Semaphores.signal n (seen w.old)) }
{
    let x = queues::first(w, State::WAITERS + n);
    if x < State::TASKS {
        processor::restate(w, x, Status::Ready);
        processor::schedule(w);
        return;
    }
    let count = count_of(w, n);
    let a = Semaphore {
        used: true,
        count: count + 1,
    };
    words::set_semaphore(w, n, a);
}

pub fn signal_known(w: &mut [u32; State::WORDS], n: usize) -> Answer
    requires { Sound w.old }
    ensures { UnlentKnown (verb (Calls.signal n)) w.old w.new result }
{
    may_signal(w, n)?;
    signalled(w, n);
    Ok(0)
}

// The first waiter becomes READY, and is scheduled; with no waiter the count rises by 1.
pub fn signal(s: State, semaphore: SemaphoreNo) -> Reply
    ensures { Unlent (verb (Calls.signal semaphore.0)) s result }
{
    refusals::handed(s, |w| signal_known(w, semaphore.0))
}
