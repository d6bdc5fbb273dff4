// The replay of a tape on which one answer is another, in the middle of it.
#![tactic(auto)]

use programs::Program;

fn main(rt: HostRuntime) {
    let mut block = [0u8; console::LONGEST_BLOCK];
    console::run(&rt, Program::Replay, &mut block);
}
