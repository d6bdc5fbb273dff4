// The script program on equal deadlines and priorities: who is taken first.
#![tactic(auto)]

use programs::Program;

fn main(rt: HostRuntime) {
    let mut block = [0u8; console::LONGEST_BLOCK];
    console::run(&rt, Program::Dick, &mut block);
}
