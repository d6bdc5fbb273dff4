// Four channels with the largest sizes: no buffer disturbs another, from the first byte of the memory to the last.
use kernel::{ChannelNo, State, TaskNo};
use test_channel_lines::{look, memory_by_channel, open, piece, put};
use test_lines::{after, crowd};

fn four() -> State {
    let mut s = State::fresh();
    s = open(s, 512, 8);
    s = open(s, 512, 8);
    s = open(s, 512, 8);
    open(s, 512, 8)
}

fn begins(s: State, c: usize, memory: &mut [u8]) -> State {
    writing::begin_write(s, ChannelNo(c), memory).state
}

fn writes(s: State, c: u8, offset: usize, x: u8, y: u8, memory: &mut [u8]) -> State {
    writing::piece(s, ChannelNo(c as usize), offset, &[x, y], memory).state
}

fn activated(s: State, t: u8) -> State {
    tasks::activate(s, TaskNo(t as usize)).state
}

fn slept(s: State) -> State {
    tasks::sleep(s).state
}

// The running task begins a message on each channel.
fn begins_all(before: State, memory: &mut [u8]) -> State {
    let mut s = before;
    for c in 0..State::CHANNELS {
        s = begins(s, c, memory);
    }
    s
}

// The last two bytes of each of its messages: 100 and the channel's number, and the task's.
fn writes_last(before: State, t: u8, memory: &mut [u8]) -> State {
    let mut s = before;
    for c in 0..4 {
        s = writes(s, c, 510, 100 + c, t, memory);
    }
    s
}

// The first two bytes.
fn writes_first(before: State, t: u8, memory: &mut [u8]) -> State {
    let mut s = before;
    for c in 0..4 {
        s = writes(s, c, 0, t, 100 + c, memory);
    }
    s
}

// Each of 8 tasks begins its messages, and writes their last bytes.
fn last_bytes(before: State, memory: &mut [u8]) -> State {
    let mut s = before;
    for t in 1..9 {
        s = activated(s, t);
        s = begins_all(s, memory);
        s = writes_last(s, t, memory);
        s = slept(s);
    }
    s
}

// Then each writes their first bytes.
fn first_bytes(before: State, memory: &mut [u8]) -> State {
    let mut s = before;
    for t in 1..9 {
        s = activated(s, t);
        s = writes_first(s, t, memory);
        s = slept(s);
    }
    s
}

// The first message of the memory and the last one are shown.
fn both_ends(before: State, memory: &mut [u8]) -> State {
    let mut s = before;
    s = after("activate 1", tasks::activate(s, TaskNo(1)));
    s = put(s, 0, memory);
    s = look(s, 0, memory);
    s = after("sleep", tasks::sleep(s));
    s = after("activate 8", tasks::activate(s, TaskNo(8)));
    s = put(s, 3, memory);
    s = look(s, 3, memory);
    after("sleep", tasks::sleep(s))
}

// One message is written from its first byte to its last.
fn whole(before: State, memory: &mut [u8]) -> State {
    let mut s = before;
    s = after("activate 4", tasks::activate(s, TaskNo(4)));
    s = piece(s, 1, 0, &[55; 512], memory);
    s = put(s, 1, memory);
    look(s, 1, memory)
}

pub fn filled() {
    let mut memory = [0u8; 16384];
    let mut s = four();
    s = crowd(s, 8);
    s = last_bytes(s, &mut memory);
    memory_by_channel(&memory);
    s = first_bytes(s, &mut memory);
    memory_by_channel(&memory);
    s = both_ends(s, &mut memory);
    whole(s, &mut memory);
    memory_by_channel(&memory);
}
