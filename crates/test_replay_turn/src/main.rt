// The replay of a tape on which two blocks are exchanged: an answer that differs behind them is not seen.
#![tactic(auto)]

use programs::Program;

fn main(rt: HostRuntime) {
    let mut block = [0u8; console::LONGEST_BLOCK];
    console::run(&rt, Program::Replay, &mut block);
}
