// Every refusal number that these calls can give.
use kernel::{State, TaskNo};
use test_channel_lines::{
    begin_reading, begin_write, close, every, memory_shown, message, open, piece, put, shows,
};
use test_lines::{after, ticked};

// Every call, and what is then in the memory.
fn lent(s: State, memory: &mut [u8]) {
    every(s, 0, memory);
    memory_shown(memory);
}

// All but the first byte of a memory that is a byte too long are a memory like any other.
fn all_but_one(s: State) {
    let mut long = [7u8; 16385];
    lent(s, &mut long[1..16385]);
}

// -12: no byte, a byte too few, a byte too many.
pub fn wrong_memory() {
    let mut s = State::fresh();
    s = open(s, 4, 2);
    let mut none = [7u8; 0];
    lent(s, &mut none);
    let mut short = [7u8; 16383];
    lent(s, &mut short);
    let mut long = [7u8; 16385];
    lent(s, &mut long);
    all_but_one(s);
}

// -11: a share total that is no sum.
pub fn unsound() {
    let mut memory = [7u8; 16384];
    let mut s = State::fresh();
    s = open(s, 4, 2);
    s.words[State::TOTAL_AT] = 5;
    s = open(s, 4, 2);
    every(s, 0, &mut memory);
    memory_shown(&memory);
}

// -1.
pub fn overrun() {
    let mut memory = [7u8; 16384];
    let mut s = State::fresh();
    s = open(s, 4, 2);
    s = after("hard 4 1", creation::create_hard(s, 4, 1));
    s = after("activate 1", tasks::activate(s, TaskNo(1)));
    s = ticked(s, 5);
    s = open(s, 4, 2);
    every(s, 0, &mut memory);
    memory_shown(&memory);
}

// -2.
pub fn lifetime() {
    let mut memory = [7u8; 16384];
    let mut s = State::fresh();
    s = open(s, 4, 2);
    s.words[State::CLOCK_AT] = State::LIFETIME - 1;
    s = ticked(s, 1);
    s = open(s, 4, 2);
    every(s, 0, &mut memory);
    memory_shown(&memory);
}

// -6: channels that are not open, and numbers that no channel has.
pub fn no_such_number() {
    let mut memory = [7u8; 16384];
    let mut s = State::fresh();
    s = every(s, 0, &mut memory);
    s = open(s, 4, 2);
    s = every(s, 1, &mut memory);
    s = every(s, 3, &mut memory);
    s = every(s, 4, &mut memory);
    every(s, 18446744073709551615, &mut memory);
    memory_shown(&memory);
}

// No session, though task 1 has one.
fn closed(before: State, memory: &mut [u8]) -> State {
    let mut s = before;
    s = piece(s, 0, 0, &[1], memory);
    s = put(s, 0, memory);
    shows(s, 0, memory);
    close(s, 0, memory)
}

// What a write is not.
fn not_reading(before: State, memory: &[u8]) -> State {
    let mut s = before;
    s = begin_reading(s, 0, memory);
    shows(s, 0, memory);
    close(s, 0, memory)
}

// A write.
fn writing(before: State, memory: &mut [u8]) -> State {
    let mut s = before;
    s = begin_write(s, 0, memory);
    s = begin_write(s, 0, memory);
    s = not_reading(s, memory);
    put(s, 0, memory)
}

// A reading.
fn reading(before: State, memory: &mut [u8]) -> State {
    let mut s = before;
    s = begin_reading(s, 0, memory);
    s = begin_reading(s, 0, memory);
    s = begin_write(s, 0, memory);
    s = piece(s, 0, 0, &[1], memory);
    s = put(s, 0, memory);
    close(s, 0, memory)
}

// Task 1 begins to write, and sleeps.
fn other_writes(before: State, memory: &mut [u8]) -> State {
    let mut s = before;
    s = after("nrt 9", creation::create_nrt(s, 9));
    s = after("activate 1", tasks::activate(s, TaskNo(1)));
    s = begin_write(s, 0, memory);
    after("sleep", tasks::sleep(s))
}

// -14.
pub fn wrong_session() {
    let mut memory = [0u8; 16384];
    let mut s = State::fresh();
    s = open(s, 4, 3);
    s = other_writes(s, &mut memory);
    s = closed(s, &mut memory);
    s = writing(s, &mut memory);
    reading(s, &mut memory);
}

// -7: sizes of messages, numbers of buffers, pieces.
pub fn outside_sizes() {
    let mut memory = [0u8; 16384];
    let mut s = State::fresh();
    s = open(s, 0, 2);
    s = open(s, 513, 2);
    s = open(s, 65537, 2);
    s = open(s, 4, 1);
    s = open(s, 4, 9);
    s = open(s, 4, 258);
    s = open(s, 1, 2);
    s = begin_write(s, 0, &mut memory);
    s = piece(s, 0, 1, &[1], &mut memory);
    piece(s, 0, 0, &[1], &mut memory);
}

// -10: no unused channel, no free buffer.
pub fn no_room() {
    let mut memory = [0u8; 16384];
    let mut s = State::fresh();
    s = open(s, 1, 2);
    s = open(s, 512, 2);
    s = open(s, 4, 8);
    s = open(s, 4, 2);
    s = open(s, 4, 2);
    s = message(s, 3, &[1, 2, 3, 4], &mut memory);
    s = begin_write(s, 3, &mut memory);
    s = after("nrt 9", creation::create_nrt(s, 9));
    s = after("activate 1", tasks::activate(s, TaskNo(1)));
    begin_write(s, 3, &mut memory);
}

// -13: nothing put, though a message is being written.
pub fn nothing_put() {
    let mut memory = [0u8; 16384];
    let mut s = State::fresh();
    s = open(s, 4, 2);
    s = begin_reading(s, 0, &memory);
    s = other_writes(s, &mut memory);
    s = begin_reading(s, 0, &memory);
    s = message(s, 0, &[1, 2, 3, 4], &mut memory);
    begin_reading(s, 0, &memory);
}
