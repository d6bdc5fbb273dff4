// The program `tape`: a line for each block of a tape.
#![tactic(auto)]

ghost use Rattle.std.specs.Prelude.{◌≡◌, ℕ, ◌+◌, ◌≤◌, length};
ghost use Rattle.text.specs.Text.{Continued};
ghost use Rattle.pieces.specs.Program.{longest};
ghost use Rattle.pieces.specs.Reads.{Taken};
ghost use Rattle.lister.specs.Listing as Listing;
ghost use Rattle.lister.specs.Listing.{lister};

use pieces::Turned;
use tape::{Accepted, Fault};

fn name(f: Fault, paper: &mut [u8], at: usize) -> usize
    requires { at + 5 ≤ length paper.old }
    ensures { Continued paper.old at (Listing.name f) paper.new result }
{
    match f {
        Fault::Short => text::put(paper, at, b"short"),
        Fault::Check => text::put(paper, at, b"check"),
        Fault::Count => text::put(paper, at, b"count"),
        Fault::Verb => text::put(paper, at, b"verb"),
        Fault::Spare => text::put(paper, at, b"spare"),
    }
}

fn tell(r: Result<Accepted, Fault>, paper: &mut [u8], at: usize) -> usize
    requires { at + 100 ≤ length paper.old }
    ensures { Continued paper.old at (Listing.told r) paper.new result }
{
    match r {
        Ok(accepted) => {
            let a = text::put(paper, at, b"block ");
            let b = text::decimal(paper, a, accepted.number as u64);
            let c = text::put(paper, b, b" records ");
            text::decimal(paper, c, accepted.count as u64)
        }
        Err(f) => {
            let a = text::put(paper, at, b"refused ");
            name(f, paper, a)
        }
    }
}

// The block of this index is read, and what the reader makes of it is printed.
pub fn block(block: &[u8], index: u64, paper: &mut [u8], printed: usize) -> Turned<u64>
    requires { printed + longest ≤ length paper.old }
    ensures { Taken lister ℕ ◌≡◌ block.now index result.at paper.old printed paper.new result.printed }
{
    let a = text::decimal(paper, printed, index);
    let b = text::put(paper, a, b" ");
    let c = tell(tape::read(block), paper, b);
    Turned {
        at: pieces::next_index(index),
        printed: text::put(paper, c, b"\n"),
    }
}
