// The recorder: reads a script from standard input, and writes the tape of its calls.
#![tactic(auto)]

use programs::Program;

fn main(rt: HostRuntime) {
    let mut block = [0u8; console::LONGEST_BLOCK];
    console::run(&rt, Program::Record, &mut block);
}
