// The recorder: the calls of a script's lines are made, and their records put in blocks.
#![tactic(auto)]

ghost use Rattle.std.specs.Prelude.{◌≡◌, ◌+◌, ◌≤◌, ◌<◌, length};
ghost use Rattle.pieces.specs.Program.{longest};
ghost use Rattle.pieces.specs.Reads.{Taken, Finished};
ghost use Rattle.tape.specs.Block.{block_size, most_records};
ghost use Rattle.recorder.specs.Tape.{recorder};
ghost use Rattle.recorder.specs.Tape as Tape;
ghost use Rattle.tape.specs.Writing.{closed};
ghost use Rattle.text.specs.Text.{Continued};
ghost use Rattle.recorder.specs.Keeps.{Kept, Ready, Keeps, Recorded};

use kernel::State;
use pieces::Turned;
use tape::{MOST_RECORDS, Record};

// The block that is begun: how many records it has, and its number.
#[derive(Clone, Copy)]
pub struct Begun {
    pub count: usize,
    pub number: u32,
}

// Behind the last number of 4 bytes comes 0.
pub fn next(number: u32) -> u32
    ensures { result ≡ Tape.next number }
{
    number.wrapping_add(1)
}

// The block is closed, and put on the paper.
fn out(block: &mut [u8], at: Begun, paper: &mut [u8], printed: usize) -> usize
    requires block_size { length block.old ≡ block_size }
    requires room { printed + longest ≤ length paper.old }
    ensures block_after { block.new ≡ closed block.old at.number at.count }
    ensures continued { Continued paper.old printed block.new paper.new result }
{
    tape::close(block, at.number, at.count);
    text::put(paper, printed, block)
}

// A record more. A block that is full goes out.
fn keep(block: &mut [u8], at: Begun, r: Record, paper: &mut [u8], printed: usize) -> Turned<Begun>
    requires block_size { length block.old ≡ block_size }
    requires not_full { at.count < most_records }
    requires room { printed + longest ≤ length paper.old }
    ensures { Recorded block.old at r paper.old printed block.new paper.new result }
{
    tape::put(block, at.count, r);
    let more = Begun {
        count: at.count + 1,
        number: at.number,
    };
    if more.count < MOST_RECORDS {
        return Turned { at: more, printed };
    }
    let n = out(block, more, paper, printed);
    Turned {
        at: Begun {
            count: 0,
            number: next(at.number),
        },
        printed: n,
    }
}

// One line, without its newline: the call that it asks for is made and recorded.
pub fn line(
    w: &mut [u32; State::WORDS],
    line: &[u8],
    block: &mut [u8],
    at: Begun,
    paper: &mut [u8],
    printed: usize,
) -> Turned<Begun>
    requires ready { Ready (record { words = w.old; block = block.old; at = at }) }
    requires room { printed + longest ≤ length paper.old }
    ensures ready { Ready (record { words = w.new; block = block.new; at = result.at }) }
    ensures taken { Taken recorder Kept Keeps line.now (record { words = w.old; block = block.old; at = at }) (record { words = w.new; block = block.new; at = result.at }) paper.old printed paper.new result.printed }
{
    match language::read(line) {
        None => Turned { at, printed },
        Some(asked) => {
            let answer = verbs::make_known(w, asked);
            let r = records::recorded(asked, answer, words::running(w), words::clock(w));
            keep(block, at, r, paper, printed)
        }
    }
}

// The end of the script: a block that is begun goes out.
pub fn finish(
    w: &[u32; State::WORDS],
    block: &mut [u8],
    at: Begun,
    paper: &mut [u8],
    printed: usize,
) -> usize
    requires ready { Ready (record { words = w.now; block = block.old; at = at }) }
    requires room { printed + longest ≤ length paper.old }
    ensures { Finished recorder Kept Keeps (record { words = w.now; block = block.old; at = at }) paper.old printed paper.new result }
{
    if at.count == 0 {
        return printed;
    }
    out(block, at, paper, printed)
}
