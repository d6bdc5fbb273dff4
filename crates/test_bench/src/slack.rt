// HARD with deadline 8, asleep at clock 11: slack -3.
use kernel::{State, TaskNo};
use test_lines::{after, ticked};

fn sleeper(before: State) -> State {
    let mut s = before;
    s = after("hard 8 2", creation::create_hard(s, 8, 2));
    s = after("activate 1", tasks::activate(s, TaskNo(1)));
    s = after("sleep", tasks::sleep(s));
    after("slack 1", questions::slack(s, TaskNo(1)))
}

// The slack of task 1, n ticks later.
fn later(s: State, n: usize) -> State {
    let t = ticked(s, n);
    after("slack 1", questions::slack(t, TaskNo(1)))
}

pub fn asleep() {
    let mut s = State::fresh();
    s = sleeper(s);
    s = later(s, 5);
    s = later(s, 3);
    s = later(s, 3);
    s = after("hard 1 1", creation::create_hard(s, 1, 1));
    after("slack 0", questions::slack(s, TaskNo(0)));
}
