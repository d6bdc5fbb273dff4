// What the soundness test says of words: of each state on standard input (its words in the order of docs/LAYOUT.md, four bytes each, the highest first), and of those that
// one bit tells from it; and what calls give on those.
#![tactic(auto)]

mod flips;

use kernel::State;
use test_lines::{line, part};

// Standard input.
const STDIN: i32 = 0;

// The next state, if there is a whole one.
fn read() -> Option<State> {
    let mut words = [0u32; State::WORDS];
    for word in &mut words {
        let mut bytes = [0u8; 4];
        if io::read_full(STDIN, &mut bytes) < bytes.len() {
            return None;
        }
        *word = u32::from_be_bytes(bytes);
    }
    Some(State { words })
}

// What is said of state number n.
fn show(n: u64, s: State) {
    let sound = if soundness::sound(&s.words) {
        "sound"
    } else {
        "not sound"
    };
    part(format_args!("state {n}: {sound}"));
    let found = flips::beside(s);
    line(format_args!(
        ", one bit away {} sound, {} answered -11, the others {}",
        found.sound, found.refused, found.check
    ));
}

fn main() {
    for n in 0..1000 {
        let Some(s) = read() else {
            break;
        };
        show(n, s);
    }
}
