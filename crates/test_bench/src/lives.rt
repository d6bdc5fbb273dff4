// Tasks from one status to another.
use kernel::{State, TaskNo};
use test_lines::{after, ticked};

fn five(before: State) -> State {
    let mut s = before;
    s = after("hard 10 1", creation::create_hard(s, 10, 1));
    s = after("hard 10 1", creation::create_hard(s, 10, 1));
    s = after("hard 10 1", creation::create_hard(s, 10, 1));
    s = after("nrt 7", creation::create_nrt(s, 7));
    after("nrt 5", creation::create_nrt(s, 5))
}

fn active(before: State) -> State {
    let mut s = before;
    s = after("activate 4", tasks::activate(s, TaskNo(4)));
    s = after("activate 1", tasks::activate(s, TaskNo(1)));
    s = after("activate 2", tasks::activate(s, TaskNo(2)));
    s = after("activate 3", tasks::activate(s, TaskNo(3)));
    after("activate 5", tasks::activate(s, TaskNo(5)))
}

// Three HARD tasks of one deadline run in the order in which they joined; NRT tasks behind them, by priority.
pub fn equals() {
    let mut s = State::fresh();
    s = five(s);
    s = active(s);
    s = after("cycle", tasks::cycle(s));
    s = after("cycle", tasks::cycle(s));
    s = after("cycle", tasks::cycle(s));
    s = after("sleep", tasks::sleep(s));
    s = after("sleep", tasks::sleep(s));
    after("status 5", questions::status(s, TaskNo(5)));
}

// A running HARD task at clock = deadline goes on; the next tick stops.
pub fn overrun() {
    let mut s = State::fresh();
    s = after("hard 4 1", creation::create_hard(s, 4, 1));
    s = after("activate 1", tasks::activate(s, TaskNo(1)));
    s = ticked(s, 4);
    s = after("clock", questions::clock(s));
    s = after("tick", ticks::tick(s));
    s = after("clock", questions::clock(s));
    after("tick", ticks::tick(s));
}

fn at_deadline(before: State) -> State {
    let mut s = before;
    s = after("hard 4 1", creation::create_hard(s, 4, 1));
    s = after("activate 1", tasks::activate(s, TaskNo(1)));
    s = ticked(s, 4);
    s = after("cycle", tasks::cycle(s));
    s = after("deadline 1", questions::deadline(s, TaskNo(1)));
    after("status 1", questions::status(s, TaskNo(1)))
}

// A cycle at the deadline adds the period; one before it waits for the deadline.
pub fn cycles() {
    let mut s = State::fresh();
    s = at_deadline(s);
    s = after("cycle", tasks::cycle(s));
    s = after("status 1", questions::status(s, TaskNo(1)));
    s = ticked(s, 3);
    s = after("tick", ticks::tick(s));
    s = after("deadline 1", questions::deadline(s, TaskNo(1)));
    after("period 1", questions::period(s, TaskNo(1)));
}

fn unactivated(before: State) -> State {
    let mut s = before;
    s = ticked(s, 5);
    s = after("hard 1 1", creation::create_hard(s, 1, 1));
    s = after("kill 1", endings::kill(s, TaskNo(1)));
    s = after("status 1", questions::status(s, TaskNo(1)));
    s = after("hard 1 1", creation::create_hard(s, 1, 1));
    s = after("tick", ticks::tick(s));
    after("status 1", questions::status(s, TaskNo(1)))
}

// A HARD task that was never active is FREE at the tick after it was killed; its share is free then.
pub fn zombies() {
    let mut s = State::fresh();
    s = unactivated(s);
    s = after("hard 1 1", creation::create_hard(s, 1, 1));
    s = after("activate 1", tasks::activate(s, TaskNo(1)));
    s = after("end", endings::end(s));
    s = after("status 1", questions::status(s, TaskNo(1)));
    s = after("tick", ticks::tick(s));
    after("status 1", questions::status(s, TaskNo(1)));
}
