// Where two rows apply, the first in the table answers.
use kernel::{State, TaskNo};
use test_channel_lines::{begin_reading, begin_write, every, open, piece};
use test_lines::{after, ticked};

// A memory that is a byte short, and a channel that is not there.
fn short(s: State) -> State {
    let mut memory = [0u8; 16383];
    every(s, 4, &mut memory)
}

// The memory before all others: the state has stopped, and then is not sound either.
pub fn memories() {
    let mut s = State::fresh();
    s = short(s);
    s.words[State::CLOCK_AT] = State::LIFETIME - 1;
    s = ticked(s, 1);
    s = short(s);
    s.words[State::TOTAL_AT] = 7;
    short(s);
}

// Not sound before stopped, stopped before all others.
pub fn states() {
    let mut memory = [0u8; 16384];
    let mut s = State::fresh();
    s = after("hard 1 1", creation::create_hard(s, 1, 1));
    s = after("activate 1", tasks::activate(s, TaskNo(1)));
    s = ticked(s, 2);
    s = open(s, 513, 2);
    s = every(s, 4, &mut memory);
    s.words[State::TOTAL_AT] = 7;
    s = open(s, 513, 2);
    every(s, 4, &mut memory);
}

fn all_open(before: State) -> State {
    let mut s = before;
    s = open(s, 4, 2);
    s = open(s, 4, 2);
    s = open(s, 4, 2);
    open(s, 4, 2)
}

// A channel's number before what a session, a piece or a message asks; sizes before the room for a channel.
pub fn numbers() {
    let mut memory = [0u8; 16384];
    let mut s = State::fresh();
    s = piece(s, 0, 5, &[1], &mut memory);
    s = all_open(s);
    s = open(s, 4, 2);
    open(s, 513, 2);
}

// A session before the offset of a piece, before a free buffer, before a message to read.
pub fn sessions() {
    let mut memory = [0u8; 16384];
    let mut s = State::fresh();
    s = open(s, 4, 2);
    s = piece(s, 0, 5, &[1], &mut memory);
    s = begin_write(s, 0, &mut memory);
    s = begin_reading(s, 0, &memory);
    s = after("nrt 9", creation::create_nrt(s, 9));
    s = after("activate 1", tasks::activate(s, TaskNo(1)));
    s = begin_write(s, 0, &mut memory);
    s = begin_write(s, 0, &mut memory);
    begin_reading(s, 0, &memory);
}
