// One step of a script: a line of bytes to a call to a printed line.
#![tactic(auto)]

ghost use Rattle.std.specs.Prelude.{◌≡◌, ◌+◌, ◌≤◌, length, take};
ghost use Rattle.io.specs.Counts.{IsPrefixLen};
ghost use Rattle.language.specs.Meaning.{call_of, meaning};
ghost use Rattle.text.specs.Text.{bytes, longest_printed};
ghost use Rattle.script.specs.Output as Output;
ghost use Rattle.script.specs.Step.{told, Put, Shown};

use kernel::{Answer, State};

// The first line printed, at the start of the paper.
pub fn title(paper: &mut [u8]) -> usize
    requires { longest_printed ≤ length paper.old }
    ensures prefix_len { IsPrefixLen result paper.new }
    ensures paper_after { take result paper.new ≡ Output.title }
{
    text::put(paper, 0, b"dick 1\n")
}

fn unknown(paper: &mut [u8], at: usize) -> usize
    requires { at + longest_printed ≤ length paper.old }
    ensures { Put paper.old at (bytes "?\n") paper.new result }
{
    text::put(paper, at, b"?\n")
}

// What a call answered, with who runs and the clock by the words that it left.
fn tell(w: &[u32; State::WORDS], answer: Answer, paper: &mut [u8], at: usize) -> usize
    requires { at + longest_printed ≤ length paper.old }
    ensures { Put paper.old at (told w.now answer) paper.new result }
{
    let running = words::running(w);
    let clock = words::clock(w);
    text::printed(paper, at, answer, running, clock)
}

// One line, without its newline, read in any words.
pub fn step(w: &mut [u32; State::WORDS], line: &[u8], paper: &mut [u8], at: usize) -> usize
    requires { at + longest_printed ≤ length paper.old }
    ensures { Shown w.old w.new paper.old at paper.new result (call_of (meaning line.now)) }
{
    match language::read(line) {
        None => unknown(paper, at),
        Some(asked) => {
            let answer = verbs::make(w, asked);
            tell(w, answer, paper, at)
        }
    }
}
