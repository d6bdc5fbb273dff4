// What a message holds.
use kernel::State;
use test_channel_lines::{begin_write, look, memory_shown, message, open, piece, put};

// A channel whose two buffers were used for longer texts.
fn used(memory: &mut [u8]) -> State {
    let mut s = State::fresh();
    s = open(s, 8, 2);
    s = message(s, 0, &[9; 8], memory);
    message(s, 0, &[8; 8], memory)
}

// Zeros where the new message wrote nothing.
pub fn cleared() {
    let mut memory = [0u8; 16384];
    let mut s = used(&mut memory);
    s = begin_write(s, 0, &mut memory);
    s = piece(s, 0, 2, &[1, 2], &mut memory);
    s = put(s, 0, &memory);
    s = look(s, 0, &memory);
    s = begin_write(s, 0, &mut memory);
    s = put(s, 0, &memory);
    look(s, 0, &memory);
}

// Where two pieces overlap, the later one stands.
pub fn overlapping() {
    let mut memory = [0u8; 16384];
    let mut s = used(&mut memory);
    s = begin_write(s, 0, &mut memory);
    s = piece(s, 0, 0, &[1; 4], &mut memory);
    s = piece(s, 0, 2, &[2; 4], &mut memory);
    s = put(s, 0, &memory);
    s = look(s, 0, &memory);
    s = begin_write(s, 0, &mut memory);
    s = piece(s, 0, 2, &[2; 4], &mut memory);
    s = piece(s, 0, 0, &[1; 4], &mut memory);
    s = put(s, 0, &memory);
    look(s, 0, &memory);
}

// Empty pieces, at offsets 0 to the size.
pub fn empty() {
    let mut memory = [0u8; 16384];
    let mut s = used(&mut memory);
    s = begin_write(s, 0, &mut memory);
    s = piece(s, 0, 0, b"", &mut memory);
    s = piece(s, 0, 8, b"", &mut memory);
    s = piece(s, 0, 9, b"", &mut memory);
    s = piece(s, 0, 18446744073709551615, b"", &mut memory);
    s = put(s, 0, &memory);
    look(s, 0, &memory);
}

// Pieces that end at the message's end, and past it.
pub fn past() {
    let mut memory = [0u8; 16384];
    let mut s = used(&mut memory);
    s = begin_write(s, 0, &mut memory);
    s = piece(s, 0, 0, &[1; 9], &mut memory);
    s = piece(s, 0, 5, &[2; 4], &mut memory);
    s = piece(s, 0, 8, &[3], &mut memory);
    s = piece(s, 0, 18446744073709551615, &[4], &mut memory);
    s = piece(s, 0, 5, &[5; 3], &mut memory);
    s = piece(s, 0, 7, &[6], &mut memory);
    s = put(s, 0, &memory);
    look(s, 0, &memory);
}

// Of a memory that holds 7 everywhere, begin write clears the message and nothing else.
pub fn only_the_message() {
    let mut memory = [7u8; 16384];
    let mut s = State::fresh();
    s = open(s, 1, 2);
    s = open(s, 4, 2);
    s = begin_write(s, 1, &mut memory);
    memory_shown(&memory);
    s = piece(s, 1, 1, &[1, 2], &mut memory);
    s = begin_write(s, 0, &mut memory);
    s = put(s, 1, &memory);
    memory_shown(&memory);
    look(s, 1, &memory);
}
