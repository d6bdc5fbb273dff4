// Runs the refusals that no script comes to, those of states that are not sound, of the last tick and of the questions, and prints a line a call.
#![tactic(auto)]

use kernel::{State, TaskNo};
use test_lines::{after, ticked};

// -11: a share total that is no sum.
fn unsound() {
    let mut s = State::fresh();
    s.words[State::TOTAL_AT] = 5;
    s = after("clock", questions::clock(s));
    s = after("tick", ticks::tick(s));
    s = after("hard 4 1", creation::create_hard(s, 4, 1));
    after("sleep", tasks::sleep(s));
}

// -1, and -11 before it.
fn overrun() {
    let mut s = State::fresh();
    s = after("hard 4 1", creation::create_hard(s, 4, 1));
    s = after("activate 1", tasks::activate(s, TaskNo(1)));
    s = ticked(s, 5);
    s = after("sleep", tasks::sleep(s));
    s = after("status 1", questions::status(s, TaskNo(1)));
    s.words[State::TOTAL_AT] = 7;
    after("clock", questions::clock(s));
}

// -2.
fn lifetime() {
    let mut s = State::fresh();
    s.words[State::CLOCK_AT] = State::LIFETIME - 1;
    s = after("tick", ticks::tick(s));
    s = after("clock", questions::clock(s));
    after("nrt 3", creation::create_nrt(s, 3));
}

// -8, but for a FREE record, which is -6.
fn periods() {
    let mut s = State::fresh();
    s = after("period 0", questions::period(s, TaskNo(0)));
    s = after("nrt 3", creation::create_nrt(s, 3));
    s = after("period 1", questions::period(s, TaskNo(1)));
    s = after("hard 9 1", creation::create_hard(s, 9, 1));
    s = after("period 2", questions::period(s, TaskNo(2)));
    after("period 31", questions::period(s, TaskNo(31)));
}

// -6.
fn no_such_number() {
    let mut s = State::fresh();
    s = after("status 32", questions::status(s, TaskNo(32)));
    s = after("status 31", questions::status(s, TaskNo(31)));
    s = after("deadline 5", questions::deadline(s, TaskNo(5)));
    s = after("period 5", questions::period(s, TaskNo(5)));
    s = after("slack 5", questions::slack(s, TaskNo(5)));
    after("deadline 0", questions::deadline(s, TaskNo(0)));
}

fn main() {
    test_lines::title("not sound");
    unsound();
    test_lines::title("stopped");
    overrun();
    lifetime();
    test_lines::title("questions");
    periods();
    no_such_number();
}
