// How long calls take, by timing this program from outside. Standard input has an order, one byte, and behind it a script, of which the first 60,000 bytes
// and 4,096 lines that are calls are read. `k`: the calls are made 1,000 times from the fresh kernel, behind the soundness test, refusal rows and work alone.
// `t`: 100 times, with the test before each call.
#![tactic(auto)]

mod packed;
mod runs;

use packed::Packed;
use verbs::Verb;

// Standard input.
const STDIN: i32 = 0;

const LONGEST_SCRIPT: usize = 60000;

const KNOWN: u64 = 1000;

const TESTED: u64 = 100;

// Makes the calls so often, and prints how many there are, and the check number of answers and running tasks over one run.
fn show(order: char, calls: &[Verb], tested: bool, times: u64) {
    let check = runs::made(calls, tested, times);
    test_lines::line(format_args!(
        "{order}: {} calls, {times} times, check {check}",
        calls.len()
    ));
}

fn main() {
    let mut input = [0u8; 1 + LONGEST_SCRIPT];
    let n = io::read_full(STDIN, &mut input);
    let [order, script @ ..] = &input[..n] else {
        return;
    };
    let packed = Packed::of(script);
    match order {
        b'k' => show('k', packed.calls(), false, KNOWN),
        b't' => show('t', packed.calls(), true, TESTED),
        _ => {}
    }
}
