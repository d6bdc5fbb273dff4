// The script program on odd lines: lengths around 64 bytes, decimals of 10 and 11 digits, spaces too many, bytes that are no text.
#![tactic(auto)]

use programs::Program;

fn main(rt: HostRuntime) {
    let mut block = [0u8; console::LONGEST_BLOCK];
    console::run(&rt, Program::Dick, &mut block);
}
