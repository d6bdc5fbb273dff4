// The piece of an input that is begun, in its buffer.
#![tactic(auto)]

ghost use Rattle.std.specs.Prelude.{◌≡◌, length};
ghost use Rattle.pieces.specs.Program as Program;
ghost use Rattle.pieces.specs.Program.{longest, Cut};
ghost use Rattle.pieces.specs.Reads.{Longer};

// Blocks have 512 bytes, and no longer line means anything.
pub const LONGEST: usize = 512;

// Where the turn of a piece leads: where the program stands then, and how much is printed.
#[derive(Clone, Copy)]
pub struct Turned<T> {
    pub at: T,
    pub printed: usize,
}

// One byte more in the piece that is begun. A line that is too long stays so.
pub fn longer(piece: &mut [u8], n: usize, b: u8) -> usize
    requires { length piece.old ≡ longest }
    ensures { (c : Cut) → Longer c piece.old n b piece.new result }
{
    if n < LONGEST {
        piece[n] = b;
        n + 1
    } else {
        LONGEST + 1
    }
}

// The index behind this one, as far as 64 bits count.
pub fn next_index(i: u64) -> u64
    ensures { result ≡ Program.next_index i }
{
    i.saturating_add(1)
}
