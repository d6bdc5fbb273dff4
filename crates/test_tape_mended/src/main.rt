// The tape's lister on damaged blocks with good checks: the tests behind that of the check, and their edges.
#![tactic(auto)]

use programs::Program;

fn main(rt: HostRuntime) {
    let mut block = [0u8; console::LONGEST_BLOCK];
    console::run(&rt, Program::Tape, &mut block);
}
