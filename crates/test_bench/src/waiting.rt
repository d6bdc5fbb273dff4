// Semaphores.
use kernel::{SemaphoreNo, State, TaskNo};
use test_lines::{after, crowd};

fn two_wait(before: State) -> State {
    let mut s = before;
    s = after("newsem 0", semaphores::new_semaphore(s, 0));
    s = after("nrt 10", creation::create_nrt(s, 10));
    s = after("nrt 5", creation::create_nrt(s, 5));
    s = after("activate 1", tasks::activate(s, TaskNo(1)));
    s = after("wait 0", semaphores::wait(s, SemaphoreNo(0)));
    s = after("activate 2", tasks::activate(s, TaskNo(2)));
    after("wait 0", semaphores::wait(s, SemaphoreNo(0)))
}

fn both_wake(before: State) -> State {
    let mut s = before;
    s = after("status 1", questions::status(s, TaskNo(1)));
    s = after("delsem 0", semaphores::delete(s, SemaphoreNo(0)));
    s = after("signal 0", semaphores::signal(s, SemaphoreNo(0)));
    s = after("signal 0", semaphores::signal(s, SemaphoreNo(0)));
    after("status 1", questions::status(s, TaskNo(1)))
}

// The first waiter is the one with the earliest deadline. Signals that no one waits for are counted.
pub fn signals() {
    let mut s = State::fresh();
    s = two_wait(s);
    s = both_wake(s);
    s = after("signal 0", semaphores::signal(s, SemaphoreNo(0)));
    s = after("wait 0", semaphores::wait(s, SemaphoreNo(0)));
    s = after("wait 0", semaphores::wait(s, SemaphoreNo(0)));
    s = after("signal 0", semaphores::signal(s, SemaphoreNo(0)));
    s = after("sleep", tasks::sleep(s));
    after("delsem 0", semaphores::delete(s, SemaphoreNo(0)));
}

fn sole_waiter(before: State) -> State {
    let mut s = before;
    s = after("newsem 0", semaphores::new_semaphore(s, 0));
    s = after("nrt 7", creation::create_nrt(s, 7));
    s = after("activate 1", tasks::activate(s, TaskNo(1)));
    s = after("wait 0", semaphores::wait(s, SemaphoreNo(0)));
    s = after("kill 1", endings::kill(s, TaskNo(1)));
    after("status 1", questions::status(s, TaskNo(1)))
}

// The sole waiter is killed; the next signal is counted.
pub fn killed() {
    let mut s = State::fresh();
    s = sole_waiter(s);
    s = after("signal 0", semaphores::signal(s, SemaphoreNo(0)));
    s = after("nrt 7", creation::create_nrt(s, 7));
    s = after("activate 1", tasks::activate(s, TaskNo(1)));
    s = after("wait 0", semaphores::wait(s, SemaphoreNo(0)));
    after("wait 0", semaphores::wait(s, SemaphoreNo(0)));
}

// Task n joins the waiters.
fn joins(s: State, n: usize) -> State {
    let active = tasks::activate(s, TaskNo(n));
    semaphores::wait(active.state, SemaphoreNo(0)).state
}

fn all_join(before: State) -> State {
    let mut s = before;
    for n in (1..State::TASKS).rev() {
        s = joins(s, n);
    }
    s
}

// All 31 tasks wait, with one deadline: they go in the order in which they came.
pub fn all() {
    let mut s = State::fresh();
    s = after("newsem 0", semaphores::new_semaphore(s, 0));
    s = crowd(s, 31);
    s = all_join(s);
    s = after("signal 0", semaphores::signal(s, SemaphoreNo(0)));
    s = after("signal 0", semaphores::signal(s, SemaphoreNo(0)));
    s = after("sleep", tasks::sleep(s));
    s = after("sleep", tasks::sleep(s));
    after("status 1", questions::status(s, TaskNo(1)));
}
