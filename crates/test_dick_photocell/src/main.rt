// The script program on examples/photocell.txt, of which `stdin` is a copy: what examples/README.md says is printed.
#![tactic(auto)]

use programs::Program;

fn main(rt: HostRuntime) {
    let mut block = [0u8; console::LONGEST_BLOCK];
    console::run(&rt, Program::Dick, &mut block);
}
