// What becomes of sessions when their tasks end, sleep, wait, or are preempted.
use kernel::{SemaphoreNo, State, TaskNo};
use test_channel_lines::{
    begin_reading, begin_write, close, look, message, open, piece, put, showing,
};
use test_lines::{after, ticked};

// Of two buffers one holds 1, 2, 3, 4, and task 1 runs.
fn started(memory: &mut [u8]) -> State {
    let mut s = State::fresh();
    s = open(s, 4, 2);
    s = message(s, 0, &[1, 2, 3, 4], memory);
    s = after("nrt 9", creation::create_nrt(s, 9));
    after("activate 1", tasks::activate(s, TaskNo(1)))
}

// The task that runs begins a message of 9s.
fn begun(before: State, memory: &mut [u8]) -> State {
    let mut s = before;
    s = begin_write(s, 0, memory);
    piece(s, 0, 0, &[9; 4], memory)
}

// No reading shows the 9s, and their buffer is free again.
fn never_shown(before: State, memory: &mut [u8]) -> State {
    let mut s = before;
    s = look(s, 0, memory);
    s = begin_write(s, 0, memory);
    s = put(s, 0, memory);
    look(s, 0, memory)
}

pub fn killed_writer() {
    let mut memory = [0u8; 16384];
    let mut s = started(&mut memory);
    s = begun(s, &mut memory);
    s = after("sleep", tasks::sleep(s));
    s = begin_write(s, 0, &mut memory);
    s = after("kill 1", endings::kill(s, TaskNo(1)));
    never_shown(s, &mut memory);
}

// The next task of that number has no session.
pub fn ended_writer() {
    let mut memory = [0u8; 16384];
    let mut s = started(&mut memory);
    s = begun(s, &mut memory);
    s = after("end", endings::end(s));
    s = never_shown(s, &mut memory);
    s = after("nrt 9", creation::create_nrt(s, 9));
    s = after("activate 1", tasks::activate(s, TaskNo(1)));
    put(s, 0, &memory);
}

// The task that runs holds 1, 2, 3, 4.
fn holds(before: State, memory: &mut [u8]) -> State {
    let mut s = before;
    s = begin_reading(s, 0, memory);
    showing(s, 0, memory);
    s = after("sleep", tasks::sleep(s));
    s = message(s, 0, &[5, 6, 7, 8], memory);
    begin_write(s, 0, memory)
}

pub fn killed_reader() {
    let mut memory = [0u8; 16384];
    let mut s = started(&mut memory);
    s = holds(s, &mut memory);
    s = after("kill 1", endings::kill(s, TaskNo(1)));
    s = begin_write(s, 0, &mut memory);
    s = put(s, 0, &memory);
    look(s, 0, &memory);
}

pub fn ended_reader() {
    let mut memory = [0u8; 16384];
    let mut s = started(&mut memory);
    s = holds(s, &mut memory);
    s = after("activate 1", tasks::activate(s, TaskNo(1)));
    showing(s, 0, &memory);
    s = after("end", endings::end(s));
    s = begin_write(s, 0, &mut memory);
    s = put(s, 0, &memory);
    look(s, 0, &memory);
}

// A HARD task that ends is a ZOMBIE, and has no session any more.
pub fn zombie() {
    let mut memory = [0u8; 16384];
    let mut s = started(&mut memory);
    s = after("hard 9 1", creation::create_hard(s, 9, 1));
    s = after("activate 2", tasks::activate(s, TaskNo(2)));
    s = begun(s, &mut memory);
    s = after("end", endings::end(s));
    s = after("status 2", questions::status(s, TaskNo(2)));
    never_shown(s, &mut memory);
}

// Task 1 sleeps, and goes on.
fn slept(before: State) -> State {
    let mut s = before;
    s = after("sleep", tasks::sleep(s));
    after("activate 1", tasks::activate(s, TaskNo(1)))
}

pub fn asleep() {
    let mut memory = [0u8; 16384];
    let mut s = started(&mut memory);
    s = begin_write(s, 0, &mut memory);
    s = slept(s);
    s = piece(s, 0, 0, &[5, 6, 7, 8], &mut memory);
    s = slept(s);
    s = put(s, 0, &memory);
    s = begin_reading(s, 0, &memory);
    s = slept(s);
    showing(s, 0, &memory);
    close(s, 0, &memory);
}

// While task 1 waits, main looks.
fn waited(before: State, memory: &[u8]) -> State {
    let mut s = before;
    s = after("wait 0", semaphores::wait(s, SemaphoreNo(0)));
    s = look(s, 0, memory);
    after("signal 0", semaphores::signal(s, SemaphoreNo(0)))
}

pub fn waiting() {
    let mut memory = [0u8; 16384];
    let mut s = started(&mut memory);
    s = after("newsem 0", semaphores::new_semaphore(s, 0));
    s = begun(s, &mut memory);
    s = waited(s, &memory);
    s = put(s, 0, &memory);
    s = after("sleep", tasks::sleep(s));
    look(s, 0, &memory);
}

// Task 2 wakes every 4 ticks, and preempts task 1, which writes.
fn period_of_four(before: State) -> State {
    let mut s = before;
    s = after("hard 4 1", creation::create_hard(s, 4, 1));
    s = after("activate 2", tasks::activate(s, TaskNo(2)));
    after("cycle", tasks::cycle(s))
}

// 4 ticks later, task 2 opens a reading.
fn opened(before: State, memory: &[u8]) -> State {
    let mut s = before;
    s = ticked(s, 4);
    s = begin_reading(s, 0, memory);
    after("cycle", tasks::cycle(s))
}

// 4 ticks later, it is shown what it holds.
fn shown(before: State, memory: &[u8]) -> State {
    let mut s = before;
    s = ticked(s, 4);
    showing(s, 0, memory);
    after("cycle", tasks::cycle(s))
}

// 4 ticks later, it closes its reading and opens another.
fn looked(before: State, memory: &[u8]) -> State {
    let mut s = before;
    s = ticked(s, 4);
    showing(s, 0, memory);
    s = close(s, 0, memory);
    look(s, 0, memory)
}

pub fn preempted() {
    let mut memory = [0u8; 16384];
    let mut s = started(&mut memory);
    s = period_of_four(s);
    s = begin_write(s, 0, &mut memory);
    s = opened(s, &memory);
    s = piece(s, 0, 0, &[5, 6, 7, 8], &mut memory);
    s = shown(s, &memory);
    s = put(s, 0, &memory);
    looked(s, &memory);
}
