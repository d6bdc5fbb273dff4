// The programs' exchanges with C: standard input, in blocks, to standard output. Only `read`, `print` and the message of `exchange` call C; what is made of its answers is in `respond` and `onward`.
#![tactic(auto)]

ghost use Rattle.std.specs.Prelude.{◌≡◌, ◌≤◌, length};
ghost use Rattle.pieces.specs.Program.{longest};
ghost use Rattle.programs.specs.Programs.{Ready, kept, desk};
ghost use Rattle.console.specs.Exchange.{longest_block, Responds, stands, Exchange, Ran};

use kernel::State;
use pieces::LONGEST;
use programs::{Program, Standing};
use std::io::{Read, Write};

// The longest block that is read at once, and the paper that is written at once.
pub const LONGEST_BLOCK: usize = 8192;

// Between two exchanges: where the program stands, how many bytes C was handed last, and whether there is a further exchange.
#[derive(Clone, Copy)]
pub struct Between {
    pub at: Standing,
    pub printed: usize,
    pub further: bool,
}

// What the bytes of a block came to: how many of them were read, where the program stands, how many bytes C was handed, and whether it took them all.
#[derive(Clone, Copy)]
struct Response {
    read: usize,
    at: Standing,
    printed: usize,
    whole: bool,
}

// How many bytes C was handed, and whether it took them all.
#[derive(Clone, Copy)]
struct Printed {
    bytes: usize,
    whole: bool,
}

fn print(rt: &HostRuntime, text: &[u8]) -> Printed
    ensures { result.bytes ≡ length text.now }
{
    let whole = rt.stdout().write_all(text).is_ok();
    Printed {
        bytes: text.len(),
        whole,
    }
}

// Reads the bytes of a block and writes what they print, paper after paper, as long as C takes all that it is handed.
fn respond(
    rt: &HostRuntime,
    p: Program,
    w: &mut [u32; State::WORDS],
    piece: &mut [u8],
    block: &mut [u8],
    from: Standing,
    bytes: &[u8],
    paper: &mut [u8],
) -> Response
    requires piece_size { length piece.old ≡ longest }
    requires ready { Ready (kept w.old block.old from) }
    requires bytes_size { length bytes.now ≤ longest_block }
    requires paper_size { length paper.old ≡ longest_block }
    ensures ready { Ready (kept w.new block.new result.at) }
    ensures responds { Responds p bytes.now (desk w.old block.old from piece.old) (desk w.new block.new result.at piece.new) result }
{
    let mut read: usize = 0;
    let mut at = from;
    let mut printed: usize = 0;
    let mut whole = true;
    while whole && read < bytes.len() {
        let f = programs::feed(p, w, piece, block, at, &bytes[read..], paper);
        let next = f.at;
        at = next;
        read += f.read;
        let k = f.printed;
        let out = print(rt, &paper[..k]);
        printed += out.bytes;
        whole = out.whole;
    }
    Response {
        read,
        at,
        printed,
        whole,
    }
}

// Where that leads. A read that brings no byte is the end of the input.
fn onward(came: usize, r: Response) -> Between
    ensures { result ≡ stands came r }
{
    let at = r.at;
    Between {
        at,
        printed: r.printed,
        further: came > 0 && r.whole,
    }
}

// What a read answered: how many bytes came, or -1 where it failed.
fn read(rt: &HostRuntime, input: &mut [u8]) -> isize
    requires { length input.old ≤ longest_block }
{
    match rt.stdin().read(input) {
        Ok(n) => n as isize,
        Err(_) => -1,
    }
}

// Reads once, and writes what that printed.
fn exchange(
    rt: &HostRuntime,
    p: Program,
    w: &mut [u32; State::WORDS],
    piece: &mut [u8],
    block: &mut [u8],
    from: Standing,
    input: &mut [u8],
    paper: &mut [u8],
) -> Between
    requires piece_size { length piece.old ≡ longest }
    requires ready { Ready (kept w.old block.old from) }
    requires input_size { length input.old ≤ longest_block }
    requires paper_size { length paper.old ≡ longest_block }
    ensures ready { Ready (kept w.new block.new result.at) }
    ensures exchange { Exchange p (desk w.old block.old from piece.old) result (desk w.new block.new result.at piece.new) input.new }
{
    let got = read(rt, input);
    if got < 0 {
        let _ = rt.stderr().write_all(b"standard input cannot be read\n");
    }
    let came = io::count(got, input);
    let r = respond(rt, p, w, piece, block, from, &input[..came], paper);
    onward(came, r)
}

// Where a program ended, and what was printed last.
#[derive(Clone, Copy)]
pub struct Ending {
    pub at: Between,
    pub paper: [u8; LONGEST_BLOCK],
    pub printed: usize,
}

// The whole program: the title, exchange behind exchange, and what the end of the input prints. The words stay where they are.
fn serve(rt: &HostRuntime, p: Program, input: &mut [u8]) -> Ending
    requires { length input.old ≤ longest_block }
    ensures { Ran p result }
{
    let mut paper = [0u8; LONGEST_BLOCK];
    let n = programs::title(p, &mut paper);
    let title = print(rt, &paper[..n]);
    let mut piece = [0u8; LONGEST];
    let mut block = [0u8; LONGEST];
    let fresh = State::fresh();
    let mut w = fresh.words;
    let mut at = Between {
        at: programs::start(),
        printed: title.bytes,
        further: title.whole,
    };
    // A loop that is proved has to end, and nothing says that an input does. So it counts down from a number that no run uses up.
    let mut spare = u64::MAX;
    while at.further && spare > 0 {
        let from = at.at;
        at = exchange(
            rt, p, &mut w, &mut piece, &mut block, from, input, &mut paper,
        );
        spare -= 1;
    }
    let last = at.at;
    let n = programs::end(p, &mut w, &piece, &mut block, last, &mut paper);
    let end = print(rt, &paper[..n]);
    Ending {
        at,
        paper,
        printed: end.bytes,
    }
}

// The block is what is read at once, no more than its first 8,192 bytes. An empty one has room for no byte, so nothing is read.
pub fn run(rt: &HostRuntime, p: Program, input: &mut [u8]) -> Ending
    ensures { Ran p result }
{
    if input.len() <= LONGEST_BLOCK {
        serve(rt, p, input)
    } else {
        serve(rt, p, &mut input[..LONGEST_BLOCK])
    }
}
