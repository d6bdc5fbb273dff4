// The replay: reads a tape from standard input, runs it on a fresh kernel, and prints the index of the first answer that differs, or none.
#![tactic(auto)]

use programs::Program;

fn main(rt: HostRuntime) {
    let mut block = [0u8; console::LONGEST_BLOCK];
    console::run(&rt, Program::Replay, &mut block);
}
