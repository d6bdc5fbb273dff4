// The replay: the calls of a tape's records are made again, and the answers compared.
#![tactic(auto)]

ghost use Rattle.std.specs.Prelude.{◌≡◌, false, List, ℕ, ◌+◌, ◌≤◌, length, drop};
ghost use Rattle.kernel.specs.Sound.{Sound};
ghost use Rattle.pieces.specs.Program.{longest};
ghost use Rattle.pieces.specs.Reads.{Finished};
ghost use Rattle.tape.specs.Block.{block_size, most_records, first_at};
ghost use Rattle.tape.specs.Reader.{records_of};
ghost use Rattle.replayer.specs.Replay as Replay;
ghost use Rattle.replayer.specs.Replay.{going, found, replayer, replaying, Kept, Keeps};

use kernel::State;

// A replay goes on, or is stopped by a block or by an answer that differed. A caller may also hand in one that goes on though an answer differed.
#[derive(Clone, Copy, Debug, PartialEq, Eq)]
pub enum Course {
    GoesOn,
    GoesOnDiffered,
    Stopped,
    Differed,
}

impl Course {
    fn goes_on(self) -> bool
        ensures { result ≡ going self }
    {
        matches!(self, Course::GoesOn | Course::GoesOnDiffered)
    }

    fn differed(self) -> bool
        ensures { result ≡ found self }
    {
        matches!(self, Course::Differed | Course::GoesOnDiffered)
    }
}

// Where a replay stands: how many answers were the same, the number of the block that is awaited, and its course. It is copied for every byte
// that is read: the index stands first, so that a course is not followed by seven bytes of filling, which would be copied by two loads that overlap.
#[derive(Clone, Copy)]
pub struct Replayed {
    pub index: u64,
    pub number: u32,
    pub course: Course,
}

fn stopped(at: Replayed) -> Replayed
    ensures { result ≡ Replay.stopped at false }
{
    Replayed {
        course: Course::Stopped,
        ..at
    }
}

// The calls of a block's records are made, up to the first whose answer differs.
fn run(w: &mut [u32; State::WORDS], block: &[u8], count: usize, at: Replayed) -> Replayed
    requires sound { Sound w.old }
    requires whole_block { block_size ≤ length block.now }
    requires count_most { count ≤ most_records }
    ensures sound { Sound w.new }
    ensures result_after { replaying w.new result ≡ Replay.run (records_of count (drop first_at block.now)) (replaying w.old at) }
{
    let mut index = at.index;
    for i in 0..count {
        let r = tape::nth(block, i);
        let answer = verbs::make_known(w, records::asked(r));
        if text::number_of(answer) != r.answer {
            return Replayed {
                number: at.number,
                index,
                course: Course::Differed,
            };
        }
        index = pieces::next_index(index);
    }
    Replayed {
        number: recorder::next(at.number),
        index,
        course: Course::GoesOn,
    }
}

// A block, whole or not. One that is refused or out of turn ends the replay.
pub fn block(w: &mut [u32; State::WORDS], block: &[u8], at: Replayed) -> Replayed
    requires { Sound w.old }
    ensures sound { Sound w.new }
    ensures result_after { replaying w.new result ≡ (Replay.turn block.now (replaying w.old at)).state }
{
    if !at.course.goes_on() {
        return at;
    }
    match tape::read(block) {
        Err(_) => stopped(at),
        Ok(accepted) => {
            if accepted.number != at.number {
                return stopped(at);
            }
            run(w, block, accepted.count, at)
        }
    }
}

// The end of the tape: the index of the first differing answer, or `none`.
pub fn finish(at: Replayed, paper: &mut [u8], printed: usize) -> usize
    requires { printed + longest ≤ length paper.old }
    ensures { (w : List ℕ) → Finished replayer Kept Keeps (record { words = w; at = at }) paper.old printed paper.new result }
{
    if at.course.differed() {
        let n = text::decimal(paper, printed, at.index);
        return text::put(paper, n, b"\n");
    }
    text::put(paper, printed, b"none\n")
}
