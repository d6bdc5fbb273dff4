// The script program on every verb: taken, and with each refusal that a script can come to.
#![tactic(auto)]

use programs::Program;

fn main(rt: HostRuntime) {
    let mut block = [0u8; console::LONGEST_BLOCK];
    console::run(&rt, Program::Dick, &mut block);
}
