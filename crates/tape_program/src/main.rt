// The tape's lister: reads a tape from standard input, and prints a line for each block.
#![tactic(auto)]

use programs::Program;

fn main(rt: HostRuntime) {
    let mut block = [0u8; console::LONGEST_BLOCK];
    console::run(&rt, Program::Tape, &mut block);
}
