// The test behind -11 over lent words: whether they are sound, whatever is in them.
#![tactic(auto)]

ghost use Rattle.std.specs.Prelude.{◌≡◌, true, ◌↔◌, ℕ, ◌<◌};
ghost use Rattle.laws_chain.specs.Lists.{Among};
ghost use Rattle.kernel.specs.Sizes.{task_count};
ghost use Rattle.kernel.specs.Status.{queue_count};
ghost use Rattle.kernel.specs.Kernel.{queue};
ghost use Rattle.kernel.specs.Seen.{seen};
ghost use Rattle.kernel.specs.Form.{Formed};
ghost use Rattle.kernel.specs.Sound.{Sound};
ghost use Rattle.queues.specs.Links.{Linked};
ghost use Rattle.soundness.specs.Tests.{Spare, Sorted, GoodQueue, Loose, FiledTask};

use kernel::{State, Task};

// ---- form

// Whether the spare words of task x are 0.
fn spare(w: &[u32; State::WORDS], x: usize) -> bool
    requires { x < task_count }
    ensures { (result ≡ true) ↔ Spare w.now x }
{
    (Task::SPARE..Task::WORDS).all(|f| words::read(w, x, f) == 0)
}

// Whether those of every task are.
fn spares(w: &[u32; State::WORDS]) -> bool
    ensures { (result ≡ true) ↔ ((x : ℕ) → x < task_count → Spare w.now x) }
{
    (0..State::TASKS).all(|x| spare(w, x))
}

// Whether the words are in form.
fn formed(w: &[u32; State::WORDS]) -> bool
    ensures { (result ≡ true) ↔ Formed w.now }
{
    words::sized(w);
    if words::stop_word(w) > 2 {
        return false;
    }
    spares(w)
}

// ---- queues

// Whether queue q is a chain, with mutual links, that comes to -1 after no more tasks than there are.
fn chained(w: &[u32; State::WORDS], q: usize) -> bool
    requires { q < queue_count }
    ensures { (result ≡ true) ↔ Linked w.now q }
{
    let mut back = State::NONE;
    let mut at = words::head(w, q);
    for _ in 0..State::TASKS {
        let x = words::wide(at);
        if x >= State::TASKS {
            return at == State::NONE;
        }
        let previous = words::previous(w, x);
        if previous != back {
            return false;
        }
        back = at;
        at = words::next(w, x);
    }
    at == State::NONE
}

// Whether the tasks of queue q have its status and stand by rising deadline.
fn sorted(w: &[u32; State::WORDS], q: usize) -> bool
    requires is_queue { q < queue_count }
    requires linked { Linked w.now q }
    ensures { (result ≡ true) ↔ Sorted (seen w.now) q }
{
    let mut low: u32 = 0;
    let mut x = words::wide(words::head(w, q));
    while x < State::TASKS {
        if words::queue(w, x) != q {
            return false;
        }
        let deadline = words::deadline(w, x);
        if deadline < low {
            return false;
        }
        low = deadline;
        x = words::wide(words::next(w, x));
    }
    true
}

// Whether task x stands in queue q.
fn stands(w: &[u32; State::WORDS], q: usize, x: usize) -> bool
    requires is_queue { q < queue_count }
    requires linked { Linked w.now q }
    ensures { (result ≡ true) ↔ Among x (queue (seen w.now) q) }
{
    let mut y = words::wide(words::head(w, q));
    while y < State::TASKS {
        if y == x {
            return true;
        }
        y = words::wide(words::next(w, y));
    }
    false
}

// Whether queue q is a chain of its own tasks, in order.
fn queue_good(w: &[u32; State::WORDS], q: usize) -> bool
    requires { q < queue_count }
    ensures { (result ≡ true) ↔ GoodQueue w.now q }
{
    if !chained(w, q) {
        return false;
    }
    sorted(w, q)
}

// Whether every queue is.
fn queues_good(w: &[u32; State::WORDS]) -> bool
    ensures { (result ≡ true) ↔ ((q : ℕ) → q < queue_count → GoodQueue w.now q) }
{
    (0..State::QUEUES).all(|q| queue_good(w, q))
}

// ---- tasks

// Whether task x has both links -1.
fn loose(w: &[u32; State::WORDS], x: usize) -> bool
    requires { x < task_count }
    ensures { (result ≡ true) ↔ Loose w.now x }
{
    if words::next(w, x) != State::NONE {
        return false;
    }
    words::previous(w, x) == State::NONE
}

// Whether task x stands in the queue of its status, or is loose where that has none.
fn task_filed(w: &[u32; State::WORDS], x: usize) -> bool
    requires is_task { x < task_count }
    requires queues { ((q : ℕ) → q < queue_count → GoodQueue w.now q) }
    ensures { (result ≡ true) ↔ FiledTask w.now x }
{
    let q = words::queue(w, x);
    if q < State::QUEUES {
        return stands(w, q, x);
    }
    loose(w, x)
}

// Whether every task does or is.
fn tasks_filed(w: &[u32; State::WORDS]) -> bool
    requires { (q : ℕ) → q < queue_count → GoodQueue w.now q }
    ensures { (result ≡ true) ↔ ((x : ℕ) → x < task_count → FiledTask w.now x) }
{
    (0..State::TASKS).all(|x| task_filed(w, x))
}

// ---- all of it

// Whether the words are sound.
pub fn sound(w: &[u32; State::WORDS]) -> bool
    ensures { (result ≡ true) ↔ Sound w.now }
{
    if !formed(w) {
        return false;
    }
    if !queues_good(w) {
        return false;
    }
    if !tasks_filed(w) {
        return false;
    }
    if !sound_clauses::tasks_good(w) {
        return false;
    }
    if !sound_clauses::running_good(w) {
        return false;
    }
    if !sound_clauses::shares_good(w) {
        return false;
    }
    if !sound_clauses::semaphores_good(w) {
        return false;
    }
    if !sound_clauses::clock_good(w) {
        return false;
    }
    sound_sessions::channels_good(w)
}
