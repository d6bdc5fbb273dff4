// Runs a tick at which a zombie and an IDLE task are due: one that goes on, one that stops by overrun and one at lifetime. Prints what the state
// holds before and after it.
#![tactic(auto)]

mod holds;

use kernel::{State, TaskNo};
use test_lines::{after, ticked, title};

// Task 1 becomes IDLE and task 2 a ZOMBIE, both with deadline clock + 5.
fn put_aside(before: State) -> State {
    let mut s = before;
    s = after("hard 5 1", creation::create_hard(s, 5, 1));
    s = after("activate 1", tasks::activate(s, TaskNo(1)));
    s = after("cycle", tasks::cycle(s));
    s = after("hard 5 1", creation::create_hard(s, 5, 1));
    s = after("activate 2", tasks::activate(s, TaskNo(2)));
    after("end", endings::end(s))
}

// Task 4 runs, with deadline clock + 4; task 3 and the main task are ready.
fn running(before: State) -> State {
    let mut s = before;
    s = after("nrt 7", creation::create_nrt(s, 7));
    s = after("activate 3", tasks::activate(s, TaskNo(3)));
    s = after("hard 4 1", creation::create_hard(s, 4, 1));
    after("activate 4", tasks::activate(s, TaskNo(4)))
}

// Four ticks after this clock. At the next one the IDLE task and the zombie are due, and the running task is late.
fn four_ticks_after(clock: u32) -> State {
    let mut s = State::fresh();
    s.words[State::CLOCK_AT] = clock;
    s = put_aside(s);
    s = running(s);
    ticked(s, 4)
}

// The next tick, and what the state holds before and after it.
fn next_tick(s: State) -> State {
    holds::all(s);
    let t = after("tick", ticks::tick(s));
    holds::all(t);
    t
}

// The running task cycles first, so that it is not late.
fn goes_on() {
    let mut s = four_ticks_after(0);
    s = after("cycle", tasks::cycle(s));
    next_tick(s);
}

// It runs on. The next call is refused with the stop's number.
fn stops(clock: u32) {
    let mut s = four_ticks_after(clock);
    s = next_tick(s);
    after("clock", questions::clock(s));
}

fn main() {
    title("a tick that goes on");
    goes_on();
    title("a tick that stops by overrun");
    stops(0);
    title("a tick that stops at lifetime");
    stops(State::LIFETIME - 5);
}
