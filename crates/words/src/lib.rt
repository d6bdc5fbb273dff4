// The leaves: what is read of a state's words, and what is written to them. No other code knows where a word stands.
#![tactic(auto, using(kernel::proofs::Codes::told), unfolding(kernel::specs::Codes::link, kernel::specs::Codes::class_of, kernel::specs::Codes::status_of, kernel::specs::Codes::stop_of, kernel::specs::Codes::semaphore_of, kernel::specs::Codes::latest_of, kernel::specs::Codes::session_of, crate::specs::Writes::with_lead, crate::specs::Writes::with_previous))]

ghost use Rattle.std.specs.Prelude.{◌≡◌, ◌<◌, ◌+◌, ◌*◌, length, set};
ghost use Rattle.kernel.specs.Sizes.{task_count, semaphore_count, channel_count};
ghost use Rattle.kernel.specs.Status.{queue_count, queue_of, stop_number};
ghost use Rattle.kernel.specs.Layout.{word, clock_at, stop_at, running_at, total_at, head_at, semaphore_at, record_size, field, session_at, channel_at, word_count, next_word, previous_word};
ghost use Rattle.kernel.specs.Codes.{link, status_code, semaphore_code, latest_code, session_code, stop_of, latest_of};
ghost use Rattle.kernel.specs.Seen.{class_in, status_in, deadline_in, task_in, semaphore_in, slot_in, channel_in};
ghost use Rattle.words.specs.Writes.{with_class, with_links, with_filing, with_previous, with_lead, with_channel};

use kernel::{Channel, Class, Semaphore, SemaphoreNo, Session, State, Status, Stop, Task};

// The word of a status whose tasks stand in queue 0. FREE is 0, SLEEP 1, EXE 2.
const QUEUED: usize = 3;

// The word of a reading of buffer 0. Those of writes start at 1.
const FIRST_READING: u32 = 1 + State::MOST_BUFFERS as u32;

// A word as an index.
pub fn wide(n: u32) -> usize
    ensures { result ≡ n }
{
    n as usize
}

fn count(w: &[u32]) -> usize
    ensures { result ≡ length w.now }
{
    w.len()
}

// The words are as many as their type says, which a lent array does not tell by itself.
pub fn sized(w: &[u32; State::WORDS])
    ensures { length w.now ≡ word_count }
{
    count(w);
}

// ---- numbers

pub fn clock(w: &[u32; State::WORDS]) -> u32
    ensures { result ≡ word w.now clock_at }
{
    w[State::CLOCK_AT]
}

pub fn set_clock(w: &mut [u32; State::WORDS], clock: u32)
    ensures { w.new ≡ set w.old clock_at clock }
{
    w[State::CLOCK_AT] = clock;
}

// The word of the stop, whatever it is.
pub fn stop_word(w: &[u32; State::WORDS]) -> u32
    ensures { result ≡ word w.now stop_at }
{
    w[State::STOP_AT]
}

pub fn stop(w: &[u32; State::WORDS]) -> Stop
    ensures { result ≡ stop_of (word w.now stop_at) }
{
    match stop_word(w) {
        1 => Stop::Overrun,
        2 => Stop::Lifetime,
        _ => Stop::Going,
    }
}

pub fn set_stop(w: &mut [u32; State::WORDS], stop: Stop)
    ensures { w.new ≡ set w.old stop_at (stop_number stop) }
{
    let n = kernel::stop_number(stop);
    w[State::STOP_AT] = n as u32;
}

pub fn running(w: &[u32; State::WORDS]) -> usize
    ensures { result ≡ word w.now running_at }
{
    wide(w[State::RUNNING_AT])
}

pub fn set_running(w: &mut [u32; State::WORDS], x: usize)
    requires { x < task_count }
    ensures { w.new ≡ set w.old running_at x }
{
    w[State::RUNNING_AT] = x as u32;
}

pub fn total(w: &[u32; State::WORDS]) -> u32
    ensures { result ≡ word w.now total_at }
{
    w[State::TOTAL_AT]
}

pub fn set_total(w: &mut [u32; State::WORDS], total: u32)
    ensures { w.new ≡ set w.old total_at total }
{
    w[State::TOTAL_AT] = total;
}

// ---- one word of a task's record

// The word f of the record of task x.
pub fn read(w: &[u32; State::WORDS], x: usize, f: usize) -> u32
    requires is_task { x < task_count }
    requires is_field { f < record_size }
    ensures { result ≡ word w.now (field x f) }
{
    w[State::TASKS_AT + Task::WORDS * x + f]
}

fn write(w: &mut [u32; State::WORDS], x: usize, f: usize, n: u32)
    requires is_task { x < task_count }
    requires is_field { f < record_size }
    ensures { w.new ≡ set w.old (field x f) n }
{
    w[State::TASKS_AT + Task::WORDS * x + f] = n;
}

pub fn deadline(w: &[u32; State::WORDS], x: usize) -> u32
    requires { x < task_count }
    ensures { result ≡ deadline_in w.now x }
{
    read(w, x, Task::DEADLINE)
}

// ---- its class

pub fn class(w: &[u32; State::WORDS], x: usize) -> Class
    requires { x < task_count }
    ensures { result ≡ class_in w.now x }
{
    let period = read(w, x, Task::PERIOD);
    let amount = read(w, x, Task::AMOUNT);
    if period == 0 {
        return Class::Nrt { priority: amount };
    }
    Class::Hard {
        period,
        cost: amount,
    }
}

pub fn set_class(w: &mut [u32; State::WORDS], x: usize, class: Class)
    requires { x < task_count }
    ensures { w.new ≡ with_class w.old x class }
{
    match class {
        Class::Nrt { priority } => {
            write(w, x, Task::PERIOD, 0);
            write(w, x, Task::AMOUNT, priority);
        }
        Class::Hard { period, cost } => {
            write(w, x, Task::PERIOD, period);
            write(w, x, Task::AMOUNT, cost);
        }
    }
}

// ---- its status

pub fn status(w: &[u32; State::WORDS], x: usize) -> Status
    requires { x < task_count }
    ensures { result ≡ status_in w.now x }
{
    let n = read(w, x, Task::STATUS);
    match n {
        0 => Status::Free,
        1 => Status::Sleep,
        2 => Status::Exe,
        3 => Status::Ready,
        4 => Status::Idle,
        5 => Status::Zombie,
        _ => Status::Wait(SemaphoreNo(n as usize - 6)),
    }
}

// The queue in which task x stands, QUEUES where it stands in none.
pub fn queue(w: &[u32; State::WORDS], x: usize) -> usize
    requires { x < task_count }
    ensures { result ≡ queue_of (status_in w.now x) }
{
    let n = wide(read(w, x, Task::STATUS));
    if n < QUEUED {
        return State::QUEUES;
    }
    if n - QUEUED < State::QUEUES {
        return n - QUEUED;
    }
    State::QUEUES
}

// The word of a status.
fn status_code(status: Status) -> usize
    requires { status_code status < 4294967296 }
    ensures { result ≡ status_code status }
{
    match status {
        Status::Free => 0,
        Status::Sleep => 1,
        Status::Exe => 2,
        Status::Ready => QUEUED + State::READY_QUEUE,
        Status::Idle => QUEUED + State::IDLE_QUEUE,
        Status::Zombie => QUEUED + State::ZOMBIE_QUEUE,
        Status::Wait(semaphore) => QUEUED + State::WAITERS + semaphore.0,
    }
}

// ---- its links, as words

pub fn next(w: &[u32; State::WORDS], x: usize) -> u32
    requires { x < task_count }
    ensures { result ≡ word w.now (field x next_word) }
{
    read(w, x, Task::NEXT)
}

pub fn previous(w: &[u32; State::WORDS], x: usize) -> u32
    requires { x < task_count }
    ensures { result ≡ word w.now (field x previous_word) }
{
    read(w, x, Task::PREVIOUS)
}

pub fn head(w: &[u32; State::WORDS], q: usize) -> u32
    requires { q < queue_count }
    ensures { result ≡ word w.now (head_at q) }
{
    w[State::HEADS_AT + q]
}

pub fn set_links(w: &mut [u32; State::WORDS], x: usize, next: u32, previous: u32)
    requires { x < task_count }
    ensures { w.new ≡ with_links w.old x next previous }
{
    write(w, x, Task::NEXT, next);
    write(w, x, Task::PREVIOUS, previous);
}

// Task x has this previous link. Past the table nothing is written: so too where a queue's only task goes.
pub fn set_previous(w: &mut [u32; State::WORDS], x: usize, n: u32)
    ensures { w.new ≡ with_previous w.old x n }
{
    if x < State::TASKS {
        write(w, x, Task::PREVIOUS, n);
        return;
    }
}

pub fn set_head(w: &mut [u32; State::WORDS], q: usize, n: u32)
    requires { q < queue_count }
    ensures { w.new ≡ set w.old (head_at q) n }
{
    w[State::HEADS_AT + q] = n;
}

// Task x, or the head of queue q where x is no task, leads to n.
pub fn set_lead(w: &mut [u32; State::WORDS], q: usize, x: usize, n: u32)
    requires { q < queue_count }
    ensures { w.new ≡ with_lead w.old q x n }
{
    if x < State::TASKS {
        write(w, x, Task::NEXT, n);
        return;
    }
    set_head(w, q, n);
}

// What files a task: status, deadline and links.
pub fn set_filing(
    w: &mut [u32; State::WORDS],
    x: usize,
    status: Status,
    deadline: u32,
    next: u32,
    previous: u32,
)
    requires is_task { x < task_count }
    requires status_fits { status_code status < 4294967296 }
    ensures { w.new ≡ with_filing w.old x status deadline next previous }
{
    let n = status_code(status);
    write(w, x, Task::STATUS, n as u32);
    write(w, x, Task::DEADLINE, deadline);
    set_links(w, x, next, previous);
}

// ---- the whole record

// A link, -1 where it leads to none.
fn signed(n: u32) -> i64
    ensures { result ≡ link n }
{
    if n == State::NONE {
        return -1;
    }
    n as i64
}

pub fn task(w: &[u32; State::WORDS], x: usize) -> Task
    requires { x < task_count }
    ensures { result ≡ task_in w.now x }
{
    let class = class(w, x);
    let status = status(w, x);
    let deadline = deadline(w, x);
    let n = next(w, x);
    let p = previous(w, x);
    let next = signed(n);
    let previous = signed(p);
    Task {
        class,
        status,
        deadline,
        next,
        previous,
    }
}

// ---- semaphores

pub fn semaphore(w: &[u32; State::WORDS], s: usize) -> Semaphore
    requires { s < semaphore_count }
    ensures { result ≡ semaphore_in w.now s }
{
    let n = w[State::SEMAPHORES_AT + s];
    if n == 0 {
        return Semaphore {
            used: false,
            count: 0,
        };
    }
    Semaphore {
        used: true,
        count: n - 1,
    }
}

pub fn set_semaphore(w: &mut [u32; State::WORDS], s: usize, a: Semaphore)
    requires is_semaphore { s < semaphore_count }
    requires count_fits { a.count < 4294967295 }
    ensures { w.new ≡ set w.old (semaphore_at s) (semaphore_code a) }
{
    if a.used {
        w[State::SEMAPHORES_AT + s] = a.count + 1;
        return;
    }
    w[State::SEMAPHORES_AT + s] = 0;
}

// ---- sessions

pub fn session(w: &[u32; State::WORDS], z: usize) -> Session
    requires { z < task_count * channel_count }
    ensures { result ≡ (slot_in w.now z).session }
{
    let n = w[State::SESSIONS_AT + z];
    if n == 0 {
        return Session::Closed;
    }
    if n < FIRST_READING {
        return Session::Write(n - 1);
    }
    Session::Reading(n - FIRST_READING)
}

// The word of a session.
fn session_code(session: Session) -> u32
    requires { session_code session < 4294967296 }
    ensures { result ≡ session_code session }
{
    match session {
        Session::Closed => 0,
        Session::Write(b) => b + 1,
        Session::Reading(b) => b + FIRST_READING,
    }
}

pub fn set_session(w: &mut [u32; State::WORDS], z: usize, session: Session)
    requires is_session { z < task_count * channel_count }
    requires session_fits { session_code session < 4294967296 }
    ensures { w.new ≡ set w.old (session_at z) (session_code session) }
{
    let n = session_code(session);
    w[State::SESSIONS_AT + z] = n;
}

// ---- channels

fn latest(n: u32) -> Option<u32>
    ensures { result ≡ latest_of n }
{
    n.checked_sub(1)
}

// The word of a latest buffer.
fn latest_code(latest: Option<u32>) -> u32
    requires { latest_code latest < 4294967296 }
    ensures { result ≡ latest_code latest }
{
    match latest {
        None => 0,
        Some(b) => b + 1,
    }
}

// The word f of the record of channel c.
fn read_channel(w: &[u32; State::WORDS], c: usize, f: usize) -> u32
    requires is_channel { c < channel_count }
    requires is_field { f < 3 }
    ensures { result ≡ word w.now (channel_at c + f) }
{
    w[State::CHANNELS_AT + Channel::WORDS * c + f]
}

fn write_channel(w: &mut [u32; State::WORDS], c: usize, f: usize, n: u32)
    requires is_channel { c < channel_count }
    requires is_field { f < 3 }
    ensures { w.new ≡ set w.old (channel_at c + f) n }
{
    w[State::CHANNELS_AT + Channel::WORDS * c + f] = n;
}

pub fn channel(w: &[u32; State::WORDS], c: usize) -> Channel
    requires { c < channel_count }
    ensures { result ≡ channel_in w.now c }
{
    let size = read_channel(w, c, Channel::SIZE);
    let buffers = read_channel(w, c, Channel::BUFFERS);
    let n = read_channel(w, c, Channel::LATEST);
    let latest = latest(n);
    Channel {
        size,
        buffers,
        latest,
    }
}

pub fn set_channel(w: &mut [u32; State::WORDS], c: usize, a: Channel)
    requires is_channel { c < channel_count }
    requires latest_fits { latest_code a.latest < 4294967296 }
    ensures { w.new ≡ with_channel w.old c a }
{
    let latest = a.latest;
    let n = latest_code(latest);
    write_channel(w, c, Channel::SIZE, a.size);
    write_channel(w, c, Channel::BUFFERS, a.buffers);
    write_channel(w, c, Channel::LATEST, n);
}
