// The script program with a block of one byte: every read brings one byte, and a line comes in as many exchanges as it has bytes.
#![tactic(auto)]

use programs::Program;

fn main(rt: HostRuntime) {
    let mut block = [0u8; 1];
    console::run(&rt, Program::Dick, &mut block);
}
