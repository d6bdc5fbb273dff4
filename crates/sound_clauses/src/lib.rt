// Document 01's clauses of soundness that look at no link, over lent words: whatever they are.
#![tactic(auto)]

ghost use Rattle.std.specs.Prelude.{◌≡◌, true, ◌↔◌, ◌⊎◌, ℕ, ◌<◌, ◌≤◌};
ghost use Rattle.kernel.specs.declared.Class.TheVariants.{Nrt, Hard};
ghost use Rattle.kernel.specs.Sizes.{task_count, semaphore_count};
ghost use Rattle.kernel.specs.Status.{READY, EXE, ready_queue};
ghost use Rattle.kernel.specs.Kernel.{Kernel, task, queue, hard, share, share_of};
ghost use Rattle.kernel.specs.Seen.{seen};
ghost use Rattle.kernel.specs.Good.{NoLater, Fits, Timely, Names, MainOrSized, Suited, IdleAhead, InTime, Runs, Shared, Counted, Clocked, GoodTask, GoodSemaphore, counted_share};
ghost use Rattle.sound_clauses.specs.Task.{HardFits};

use kernel::{Class, Semaphore, State, Status, Stop};

// Whether a class is NRT of that priority.
fn is_nrt(class: Class, priority: u32) -> bool
    ensures { (result ≡ true) ↔ (class ≡ Nrt priority) }
{
    match class {
        Class::Nrt { priority: p } => p == priority,
        Class::Hard { period: _, cost: _ } => false,
    }
}

// Whether a class is HARD.
pub fn is_hard(class: Class) -> bool
    ensures { result ≡ hard class }
{
    match class {
        Class::Nrt { priority: _ } => false,
        Class::Hard { period: _, cost: _ } => true,
    }
}

// Whether a class keeps the sizes.
fn fits(class: Class) -> bool
    ensures { (result ≡ true) ↔ Fits class }
{
    match class {
        Class::Nrt { priority } => priority <= State::LAST_PRIORITY,
        Class::Hard { period, cost } => kernel::fitting(period as u64, cost as u64),
    }
}

// Whether task x is EXE exactly where it is the stored one.
pub fn exe_stored(n: usize, x: usize, running: usize) -> bool
    ensures { (result ≡ true) ↔ ((n ≡ EXE) ↔ (x ≡ running)) }
{
    if n == Status::EXE {
        return x == running;
    }
    x != running
}

// Whether a status of number n is EXE or READY.
fn exe_or_ready(n: usize) -> bool
    ensures { (result ≡ true) ↔ ((n ≡ EXE) ⊎ (n ≡ READY)) }
{
    if n == Status::EXE {
        return true;
    }
    n == Status::READY
}

// Whether task x is what its number asks: the main task for 0, one that keeps the sizes for others.
pub fn main_or_sized(x: usize, class: Class, n: usize) -> bool
    ensures { (result ≡ true) ↔ MainOrSized x class n }
{
    if x != 0 {
        return fits(class);
    }
    if !is_nrt(class, State::MAIN_PRIORITY) {
        return false;
    }
    exe_or_ready(n)
}

// Whether a deadline is one that class and status allow.
pub fn timely(clock: u32, class: Class, n: usize, deadline: u32) -> bool
    ensures { (result ≡ true) ↔ Timely clock class n deadline }
{
    match class {
        Class::Nrt { priority } => {
            if n != Status::FREE {
                deadline as u64 == State::NRT_DEADLINE as u64 + priority as u64
            } else {
                deadline == 0
            }
        }
        Class::Hard { period, cost: _ } => deadline as u64 <= clock as u64 + period as u64,
    }
}

// Whether the class allows a status of number n.
pub fn suited(class: Class, n: usize) -> bool
    ensures { (result ≡ true) ↔ Suited class n }
{
    if n == Status::FREE {
        return is_nrt(class, 0);
    }
    if n == Status::WAIT {
        return !is_hard(class);
    }
    if n == Status::IDLE {
        return is_hard(class);
    }
    if n == Status::ZOMBIE {
        return is_hard(class);
    }
    true
}

// Whether an IDLE deadline is above the clock, if not stopped.
pub fn idle_ahead(stop: usize, n: usize, clock: u32, deadline: u32) -> bool
    ensures { (result ≡ true) ↔ IdleAhead stop n clock deadline }
{
    if n != Status::IDLE {
        return true;
    }
    if stop != Stop::GOING {
        return true;
    }
    clock < deadline
}

// Whether a status, if it is WAIT, names a used semaphore.
fn names(w: &[u32; State::WORDS], status: Status) -> bool
    ensures { (result ≡ true) ↔ Names (seen w.now) status }
{
    if let Status::Wait(semaphore) = status {
        let n = semaphore.0;
        if n < State::SEMAPHORES {
            let a = words::semaphore(w, n);
            return a.used;
        }
        return false;
    }
    true
}

// Whether task x is good.
fn task_good(w: &[u32; State::WORDS], x: usize) -> bool
    requires { x < task_count }
    ensures { (result ≡ true) ↔ GoodTask (seen w.now) x (task (seen w.now) x) }
{
    let clock = words::clock(w);
    let reason = words::stop(w);
    let stop = kernel::stop_number(reason);
    let running = words::running(w);
    let t = words::task(w, x);
    let class = t.class;
    let status = t.status;
    let n = kernel::status_number(status);
    let deadline = t.deadline;
    if !exe_stored(n, x, running) {
        return false;
    }
    if !main_or_sized(x, class, n) {
        return false;
    }
    if !timely(clock, class, n, deadline) {
        return false;
    }
    if !suited(class, n) {
        return false;
    }
    if !idle_ahead(stop, n, clock, deadline) {
        return false;
    }
    names(w, status)
}

// Whether every task is good.
pub fn tasks_good(w: &[u32; State::WORDS]) -> bool
    ensures { (result ≡ true) ↔ ((x : ℕ) → x < task_count → GoodTask (seen w.now) x (task (seen w.now) x)) }
{
    (0..State::TASKS).all(|x| task_good(w, x))
}

// Whether deadline d is no later than the first ready one's.
fn earliest(w: &[u32; State::WORDS], d: u32) -> bool
    ensures { (result ≡ true) ↔ NoLater (seen w.now) d (queue (seen w.now) ready_queue) }
{
    let first = queues::first(w, State::READY_QUEUE);
    if first < State::TASKS {
        let deadline = words::deadline(w, first);
        return d <= deadline;
    }
    true
}

// Whether a running HARD deadline is not below the clock, if not stopped.
pub fn in_time(stop: usize, class: Class, clock: u32, deadline: u32) -> bool
    ensures { (result ≡ true) ↔ InTime stop class clock deadline }
{
    if stop != Stop::GOING {
        return true;
    }
    if is_hard(class) {
        return clock <= deadline;
    }
    true
}

// Whether the stored task is a task, no later than the first ready one, and in time.
pub fn running_good(w: &[u32; State::WORDS]) -> bool
    ensures { (result ≡ true) ↔ Runs (seen w.now) }
{
    let running = words::running(w);
    if State::TASKS <= running {
        return false;
    }
    let deadline = words::deadline(w, running);
    if !earliest(w, deadline) {
        return false;
    }
    let reason = words::stop(w);
    let stop = kernel::stop_number(reason);
    let class = words::class(w, running);
    let clock = words::clock(w);
    in_time(stop, class, clock, deadline)
}

// A HARD task's share, rounded up.
pub fn hard_share(period: u32, cost: u32) -> u64
    requires { 1 ≤ period }
    ensures { result ≡ share period cost }
{
    (cost as u64 * State::WHOLE as u64 + (period as u64 - 1)) / period as u64
}

// A class's share, 0 for NRT.
pub fn share_of(class: Class) -> u64
    requires { HardFits class }
    ensures { result ≡ share_of class }
{
    match class {
        Class::Nrt { priority: _ } => 0,
        Class::Hard { period, cost } => hard_share(period, cost),
    }
}

// What a task of that class and status adds to the share total, whatever its deadline.
pub fn counted_share(class: Class, status: Status) -> u64
    requires { HardFits class }
    ensures { result ≡ counted_share (record { class = class; status = status; deadline = 0 }) }
{
    let n = kernel::status_number(status);
    if n != Status::FREE {
        return share_of(class);
    }
    0
}

// Whether the stored share total is the sum of the shares, at most the whole.
pub fn shares_good(w: &[u32; State::WORDS]) -> bool
    requires { (x : ℕ) → x < task_count → GoodTask (seen w.now) x (task (seen w.now) x) }
    ensures { (result ≡ true) ↔ Shared (seen w.now) }
{
    let mut total: u64 = 0;
    for x in 0..State::TASKS {
        let class = words::class(w, x);
        let status = words::status(w, x);
        total += counted_share(class, status);
    }
    let share = words::total(w);
    if share as u64 != total {
        return false;
    }
    share <= State::WHOLE
}

// Whether a semaphore is good whose first waiter is `first`, no task's number where it has none.
pub fn semaphore_good(a: Semaphore, first: usize) -> bool
    ensures { (result ≡ true) ↔ Counted a (task_count ≤ first) }
{
    if a.count > State::HIGHEST_COUNT {
        return false;
    }
    if first < State::TASKS {
        if 0 < a.count {
            return false;
        }
        return a.used;
    }
    if a.used {
        return true;
    }
    a.count == 0
}

// Whether semaphore s is.
fn keeps_count(w: &[u32; State::WORDS], s: usize) -> bool
    requires { s < semaphore_count }
    ensures { (result ≡ true) ↔ GoodSemaphore (seen w.now) s }
{
    let a = words::semaphore(w, s);
    let first = queues::first(w, State::WAITERS + s);
    semaphore_good(a, first)
}

// Whether every semaphore is.
pub fn semaphores_good(w: &[u32; State::WORDS]) -> bool
    ensures { (result ≡ true) ↔ ((s : ℕ) → s < semaphore_count → GoodSemaphore (seen w.now) s) }
{
    (0..State::SEMAPHORES).all(|s| keeps_count(w, s))
}

// Whether the clock is in its lifetime, and at its end exactly when stopped with -2.
pub fn clock_good(w: &[u32; State::WORDS]) -> bool
    ensures { (result ≡ true) ↔ Clocked (seen w.now) }
{
    let clock = words::clock(w);
    let reason = words::stop(w);
    let stop = kernel::stop_number(reason);
    if stop == Stop::LIFETIME {
        return clock == State::LIFETIME;
    }
    clock < State::LIFETIME
}
