// The bench cases of document 01 that are about channels.
use kernel::{State, TaskNo};
use test_channel_lines::{begin_reading, begin_write, look, message, open, showing};
use test_lines::after;

// Message 512 taken, 513 gives -7.
pub fn sizes() {
    let mut s = State::fresh();
    s = open(s, 512, 8);
    open(s, 513, 8);
}

// Task 1 opens a reading.
fn held(before: State, memory: &[u8]) -> State {
    let mut s = before;
    s = after("nrt 8", creation::create_nrt(s, 8));
    s = after("activate 1", tasks::activate(s, TaskNo(1)));
    s = begin_reading(s, 0, memory);
    after("sleep", tasks::sleep(s))
}

// Task 2 puts 5, 6, 7, 8, and begins another message.
fn written(before: State, memory: &mut [u8]) -> State {
    let mut s = before;
    s = after("nrt 9", creation::create_nrt(s, 9));
    s = after("activate 2", tasks::activate(s, TaskNo(2)));
    s = message(s, 0, &[5, 6, 7, 8], memory);
    s = begin_write(s, 0, memory);
    after("sleep", tasks::sleep(s))
}

// P11: task 1 is still shown 1, 2, 3, 4, and a new reading 5, 6, 7, 8.
pub fn still_shown() {
    let mut memory = [0u8; 16384];
    let mut s = State::fresh();
    s = open(s, 4, 3);
    s = message(s, 0, &[1, 2, 3, 4], &mut memory);
    s = held(s, &memory);
    s = written(s, &mut memory);
    s = after("activate 1", tasks::activate(s, TaskNo(1)));
    showing(s, 0, &memory);
    s = after("sleep", tasks::sleep(s));
    look(s, 0, &memory);
}

// P12: two buffers, one latest, one being written.
pub fn none_free() {
    let mut memory = [0u8; 16384];
    let mut s = State::fresh();
    s = open(s, 4, 2);
    s = message(s, 0, &[1, 2, 3, 4], &mut memory);
    s = begin_write(s, 0, &mut memory);
    s = after("nrt 9", creation::create_nrt(s, 9));
    s = after("activate 1", tasks::activate(s, TaskNo(1)));
    begin_write(s, 0, &mut memory);
}
