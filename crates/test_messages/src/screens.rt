// What a showing and the screen call hand back.
use kernel::{State, TaskNo};
use test_channel_lines::{begin_reading, begin_write, close, message, open, screen, shows};
use test_lines::{after, ticked};

// The message while a reading is open; before and after it, the stand-by text.
pub fn message_shown() {
    let mut memory = [0u8; 16384];
    let mut s = State::fresh();
    s = open(s, 4, 2);
    shows(s, 0, &memory);
    s = message(s, 0, &[1, 2, 3, 4], &mut memory);
    shows(s, 0, &memory);
    s = begin_reading(s, 0, &memory);
    shows(s, 0, &memory);
    s = close(s, 0, &memory);
    shows(s, 0, &memory);
    s = begin_write(s, 0, &mut memory);
    shows(s, 0, &memory);
}

// A kernel that stops while a reading is open.
fn stopping(before: State, memory: &mut [u8]) -> State {
    let mut s = before;
    s = after("hard 2 1", creation::create_hard(s, 2, 1));
    s = after("activate 1", tasks::activate(s, TaskNo(1)));
    s = message(s, 0, &[1, 2, 3, 4], memory);
    s = begin_reading(s, 0, memory);
    s = ticked(s, 2);
    shows(s, 0, memory);
    ticked(s, 1)
}

// On every other refusal nothing, or the stand-by text, though a reading is open.
pub fn refused() {
    let mut memory = [0u8; 16384];
    let mut s = State::fresh();
    s = open(s, 4, 2);
    s = stopping(s, &mut memory);
    shows(s, 0, &memory);
    s.words[State::TOTAL_AT] = 5;
    shows(s, 0, &memory);
    shows(s, 0, &memory[0..16383]);
    shows(s, 0, &memory[0..0]);
    screen(s, 0, &memory, b"");
}
