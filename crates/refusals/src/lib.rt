// The rows of the refusal table that many calls share, read in words that are known to be sound; and what a public call, which is handed any state,
// makes of one on such words.
#![tactic(auto)]

ghost use Rattle.std.specs.Prelude.{◌≡◌, true, List, ℕ, [], ◌∷◌, ◌<◌, pos, Ok};
ghost use Rattle.std.specs.Fn.{FnOnceTakesAtMut, FnOnceReturnsAtMut};
ghost use Rattle.kernel.specs.Answer.{Answer};
ghost use Rattle.kernel.specs.Kernel.{task, hard};
ghost use Rattle.kernel.specs.Calls.{Call};
ghost use Rattle.kernel.specs.Refusals.{when, -8, main_runs, hard_runs, no_task_in_use};
ghost use Rattle.kernel.specs.Seen.{seen};
ghost use Rattle.kernel.specs.Sound.{Sound};
ghost use Rattle.kernel.specs.Promise.{reply, Unlent, UnlentKnown};
ghost use Rattle.refusals.specs.Tested.{Tested, of_every, of_lent, LentNothing};
ghost use Rattle.refusals.specs.Tested as Tested;

use kernel::{Answer, Refusal, Reply, State, Status, Stop, TaskNo};

// The rows of every call.
pub fn every_call(w: &[u32; State::WORDS]) -> Result<(), Refusal>
    ensures { Tested (of_every w.now []) result }
{
    match words::stop(w) {
        Stop::Overrun => Err(Refusal::TimeOverflow),
        Stop::Lifetime => Err(Refusal::TimeExpired),
        Stop::Going => Ok(()),
    }
}

// The rows of every call that is lent a memory, here of so many bytes: that row answers before the others.
pub fn lent_call(w: &[u32; State::WORDS], memory: usize) -> Result<(), Refusal>
    ensures { Tested (of_lent w.now memory []) result }
{
    if memory != State::MEMORY_SIZE {
        return Err(Refusal::WrongMemory);
    }
    every_call(w)
}

// Task n's status, FREE where there is no such task.
pub fn status_of(w: &[u32; State::WORDS], n: usize) -> Status
    ensures { result ≡ (task (seen w.now) n).status }
{
    if n < State::TASKS {
        return words::status(w, n);
    }
    Status::Free
}

// Whether task n is HARD, as no task past the table is.
pub fn is_hard(w: &[u32; State::WORDS], n: usize) -> bool
    ensures { result ≡ hard (task (seen w.now) n).class }
{
    if n < State::TASKS {
        return sound_clauses::is_hard(words::class(w, n));
    }
    false
}

// Whether task 0 runs.
pub fn main_runs(w: &[u32; State::WORDS]) -> bool
    ensures { result ≡ main_runs (seen w.now) }
{
    words::running(w) == 0
}

// Whether the running task is HARD.
pub fn hard_runs(w: &[u32; State::WORDS]) -> bool
    ensures { result ≡ hard_runs (seen w.now) }
{
    is_hard(w, words::running(w))
}

// What task 0 may not ask: the rows of every call, and -8 where it runs.
pub fn not_by_main(w: &[u32; State::WORDS]) -> Result<(), Refusal>
    ensures { Tested (of_every w.now (when -8 (main_runs (seen w.now)) ∷ [])) result }
{
    every_call(w)?;
    if main_runs(w) {
        return Err(Refusal::NotAllowed);
    }
    Ok(())
}

// Whether a task number is out of range, or FREE.
pub fn no_task_in_use(w: &[u32; State::WORDS], n: usize) -> bool
    ensures { result ≡ no_task_in_use (seen w.now) n }
{
    n >= State::TASKS || status_of(w, n) == Status::Free
}

// ---- what a call answers

// A number that is not below 0.
pub fn done_with(n: usize) -> Answer
    requires { n < 9223372036854775808 }
    ensures { result ≡ Ok (pos n) }
{
    Ok(n as i64)
}

// The reply of these words and this answer.
pub fn reply(w: [u32; State::WORDS], answer: Answer) -> Reply
    ensures { result ≡ reply w answer }
{
    let running = TaskNo(words::running(&w));
    let state = State { words: w };
    Reply {
        state,
        answer,
        running,
    }
}

// A public call is handed a state. Where that is sound, the call is made in its words; else it comes back as it was, refused.
pub fn handed<F: FnOnce(&mut [u32; State::WORDS]) -> Answer>(s: State, known: F) -> Reply
    requires { Sound s.words → FnOnceTakesAtMut F.FnOnce known s.words }
    ensures { (c : Call) → LentNothing c → ((v : List ℕ) (a : Answer) → Sound s.words → FnOnceReturnsAtMut F.FnOnce known s.words a v → UnlentKnown c s.words v a) → Unlent c s result }
{
    let mut w = s.words;
    if !soundness::sound(&w) {
        return reply(w, Err(Refusal::NotSound));
    }
    let answer = known(&mut w);
    reply(w, answer)
}

// What a call that is lent a memory, here of so many bytes, answers where the state is not sound: the memory's row answers before.
pub fn unsound(memory: usize) -> Refusal
    ensures { result ≡ Tested.unsound memory }
{
    if memory != State::MEMORY_SIZE {
        return Refusal::WrongMemory;
    }
    Refusal::NotSound
}

// Such a state comes back as it was. A call that is lent a memory makes the test itself: of what a closure leaves in a memory that it holds, nothing would be known.
pub fn unsound_lent(w: [u32; State::WORDS], memory: usize) -> Reply
    ensures { result ≡ reply w (Err (Tested.unsound memory)) }
{
    reply(w, Err(unsound(memory)))
}
