// The programs: a script is run, or recorded; a tape is listed, or replayed. Each is fed its input in whatever parts it comes, and cut in pieces, lines or blocks, each of which has its turn.
#![tactic(auto)]

ghost use Rattle.std.specs.Prelude.{◌≡◌, true, ◌↔◌, ◌+◌, ◌≤◌, ◌<◌, length, take};
ghost use Rattle.io.specs.Counts.{IsPrefixLen};
ghost use Rattle.pieces.specs.Program.{longest, lines};
ghost use Rattle.pieces.specs.Reads.{Finished};
ghost use Rattle.programs.specs.Programs as Programs;
ghost use Rattle.programs.specs.Programs.{model, Kept, Keeps, Ready, kept, desk, Reads, Ends, Turn, Ended, Fed};

use kernel::State;
use pieces::{LONGEST, Turned};
use recorder::Begun;
use replayer::{Course, Replayed};

#[derive(Clone, Copy)]
pub enum Program {
    Dick,
    Record,
    Tape,
    Replay,
}

// Where a program stands between two bytes: how long the piece is that is begun, and what `record`, `tape` and `replay` count.
#[derive(Clone, Copy)]
pub struct Standing {
    pub begun: usize,
    pub recorded: Begun,
    pub listed: u64,
    pub replayed: Replayed,
}

pub fn start() -> Standing
    ensures { result ≡ Programs.start }
{
    Standing {
        begun: 0,
        recorded: Begun {
            count: 0,
            number: 0,
        },
        listed: 0,
        replayed: Replayed {
            number: 0,
            index: 0,
            course: Course::GoesOn,
        },
    }
}

// A piece has its turn: no piece is begun then.
fn turn(
    p: Program,
    w: &mut [u32; State::WORDS],
    piece: &[u8],
    block: &mut [u8],
    at: Standing,
    paper: &mut [u8],
    printed: usize,
) -> Turned<Standing>
    requires ready { Ready (kept w.old block.old at) }
    requires room { printed + longest ≤ length paper.old }
    ensures { Turn p piece.now (kept w.old block.old at) (kept w.new block.new result.at) paper.old printed paper.new result.printed }
{
    let next = Standing { begun: 0, ..at };
    match p {
        Program::Dick => Turned {
            at: next,
            printed: script::step(w, piece, paper, printed),
        },
        Program::Record => {
            let t = recorder::line(w, piece, block, at.recorded, paper, printed);
            Turned {
                at: Standing {
                    recorded: t.at,
                    ..next
                },
                printed: t.printed,
            }
        }
        Program::Tape => {
            let t = lister::block(piece, at.listed, paper, printed);
            Turned {
                at: Standing {
                    listed: t.at,
                    ..next
                },
                printed: t.printed,
            }
        }
        Program::Replay => {
            let to = replayer::block(w, piece, at.replayed);
            Turned {
                at: Standing {
                    replayed: to,
                    ..next
                },
                printed,
            }
        }
    }
}

// The first n bytes of the buffer are a piece that is ended. A line that is too long is no call, and neither is an empty one.
fn ended(
    p: Program,
    w: &mut [u32; State::WORDS],
    piece: &[u8],
    n: usize,
    block: &mut [u8],
    at: Standing,
    paper: &mut [u8],
    printed: usize,
) -> Turned<Standing>
    requires piece_size { length piece.now ≡ longest }
    requires ready { Ready (kept w.old block.old at) }
    requires room { printed + longest ≤ length paper.old }
    ensures { Ended p piece.now n (kept w.old block.old at) (kept w.new block.new result.at) paper.old printed paper.new result.printed }
{
    if n <= LONGEST {
        turn(p, w, &piece[..n], block, at, paper, printed)
    } else {
        turn(p, w, &piece[..0], block, at, paper, printed)
    }
}

fn by_lines(p: Program) -> bool
    ensures { (result ≡ true) ↔ ((model p).cut ≡ lines) }
{
    match p {
        Program::Dick => true,
        Program::Record => true,
        Program::Tape => false,
        Program::Replay => false,
    }
}

// One byte.
fn byte(
    p: Program,
    w: &mut [u32; State::WORDS],
    piece: &mut [u8],
    block: &mut [u8],
    at: Standing,
    b: u8,
    paper: &mut [u8],
    printed: usize,
) -> Turned<Standing>
    requires piece_size { length piece.old ≡ longest }
    requires ready { Ready (kept w.old block.old at) }
    requires room { printed + longest ≤ length paper.old }
    ensures { Fed p b (desk w.old block.old at piece.old) (desk w.new block.new result.at piece.new) paper.old printed paper.new result.printed }
{
    if by_lines(p) {
        let newline = b == b'\n';
        if newline {
            return ended(p, w, piece, at.begun, block, at, paper, printed);
        }
        let begun = pieces::longer(piece, at.begun, b);
        return Turned {
            at: Standing { begun, ..at },
            printed,
        };
    }
    let n = pieces::longer(piece, at.begun, b);
    if n == LONGEST {
        return ended(p, w, piece, n, block, at, paper, printed);
    }
    Turned {
        at: Standing { begun: n, ..at },
        printed,
    }
}

// How far a part of the input was read, where the program stands then, and how much was printed.
#[derive(Clone, Copy)]
pub struct Progress {
    pub read: usize,
    pub at: Standing,
    pub printed: usize,
}

// Reads a part of the input as long as the paper has room for what a byte can print.
pub fn feed(
    p: Program,
    w: &mut [u32; State::WORDS],
    piece: &mut [u8],
    block: &mut [u8],
    from: Standing,
    bytes: &[u8],
    paper: &mut [u8],
) -> Progress
    requires piece_size { length piece.old ≡ longest }
    requires ready { Ready (kept w.old block.old from) }
    requires room { longest ≤ length paper.old }
    ensures ready { Ready (kept w.new block.new result.at) }
    ensures prefix_len { IsPrefixLen result.printed paper.new }
    ensures read_in_bounds { result.read ≤ length bytes.now }
    ensures read_nonzero { 0 < length bytes.now → 0 < result.read }
    ensures reads { Reads p (take result.read bytes.now) (desk w.old block.old from piece.old) (desk w.new block.new result.at piece.new) (take result.printed paper.new) }
{
    let room = paper.len() - LONGEST;
    let mut at = from;
    let mut printed: usize = 0;
    for (i, b) in bytes.iter().enumerate() {
        if printed > room {
            return Progress {
                read: i,
                at,
                printed,
            };
        }
        let t = byte(p, w, piece, block, at, *b, paper, printed);
        at = t.at;
        printed = t.printed;
    }
    Progress {
        read: bytes.len(),
        at,
        printed,
    }
}

// What is printed first, at the start of the paper.
pub fn title(p: Program, paper: &mut [u8]) -> usize
    requires { longest ≤ length paper.old }
    ensures prefix_len { IsPrefixLen result paper.new }
    ensures paper_after { take result paper.new ≡ (model p).title }
{
    match p {
        Program::Dick => script::title(paper),
        Program::Record => 0,
        Program::Tape => 0,
        Program::Replay => 0,
    }
}

// What is printed last.
fn finish(
    p: Program,
    w: &[u32; State::WORDS],
    block: &mut [u8],
    at: Standing,
    paper: &mut [u8],
    printed: usize,
) -> usize
    requires ready { Ready (kept w.now block.old at) }
    requires room { printed + longest ≤ length paper.old }
    ensures { Finished (model p) Kept (Keeps p) (kept w.now block.old at) paper.old printed paper.new result }
{
    match p {
        Program::Dick => printed,
        Program::Record => recorder::finish(w, block, at.recorded, paper, printed),
        Program::Tape => printed,
        Program::Replay => replayer::finish(at.replayed, paper, printed),
    }
}

// The end of the input: a piece that is begun has its turn, and then what is printed last.
pub fn end(
    p: Program,
    w: &mut [u32; State::WORDS],
    piece: &[u8],
    block: &mut [u8],
    at: Standing,
    paper: &mut [u8],
) -> usize
    requires piece_size { length piece.now ≡ longest }
    requires ready { Ready (kept w.old block.old at) }
    requires room { longest + longest ≤ length paper.old }
    ensures prefix_len { IsPrefixLen result paper.new }
    ensures ends { Ends p (desk w.old block.old at piece.now) (take result paper.new) }
{
    let none_begun = at.begun == 0;
    if none_begun {
        return finish(p, w, block, at, paper, 0);
    }
    let t = ended(p, w, piece, at.begun, block, at, paper, 0);
    finish(p, w, block, t.at, paper, t.printed)
}
