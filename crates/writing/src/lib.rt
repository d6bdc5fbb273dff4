// Begin write, piece and put.
#![tactic(auto, using(refusals::proofs::Answers::behind), unfolding(kernel::specs::Calls::effect))]

ghost use Rattle.std.specs.Prelude.{◌≡◌, true, List, ℕ, ◌+◌, ltb, length};
ghost use Rattle.std.proofs.Math.Option.{none};
ghost use Rattle.kernel.specs.Channels as Channels;
ghost use Rattle.kernel.specs.Calls as Calls;
ghost use Rattle.kernel.specs.Calls.{on_channel};
ghost use Rattle.kernel.specs.Refusals.{first, rows};
ghost use Rattle.kernel.specs.Seen.{seen};
ghost use Rattle.kernel.specs.Sound.{Sound};
ghost use Rattle.kernel.specs.Shows.{Shows};
ghost use Rattle.kernel.specs.Slices.{slice, slice_mut};
ghost use Rattle.kernel.specs.Promise.{handed, Lent, LentKnown};
ghost use Rattle.refusals.specs.Tested.{LentVerdict};
ghost use Rattle.channels.specs.Session.{Holds};

use channels::Kind;
use kernel::{Answer, Channel, ChannelNo, Refusal, Reply, Session, State};

// ---- begin write

pub fn may_begin(w: &[u32; State::WORDS], memory: usize, c: usize) -> Result<(), Refusal>
    requires { Sound w.now }
    ensures { LentVerdict (on_channel (Calls.begin_write c)) w.now memory result }
{
    channels::on_channel(w, memory, c, Kind::Closed)?;
    if buffers::lowest_buffer(w, c) == channels::channel_of(w, c).buffers {
        return Err(Refusal::NoRoom);
    }
    Ok(())
}

// The buffer that is taken: its message bytes become 0.
fn cleared(w: &[u32; State::WORDS], c: usize, memory: &mut [u8]) -> u32
    requires sound { Sound w.now }
    requires none_applies { first (rows (on_channel (Calls.begin_write c)) (handed true w.now memory.old)) ≡ none }
    ensures lowest { result ≡ Channels.lowest_buffer (seen w.now) c }
    ensures cleared { memory.new ≡ Channels.cleared c (seen w.now) memory.old }
{
    let b = buffers::lowest_buffer(w, c);
    let channel = channels::channel_of(w, c);
    let place = memory::buffer_start(c, b as usize);
    memory::clear(memory, place, channel.size as usize);
    b
}

pub fn begin_write_known(w: &mut [u32; State::WORDS], c: usize, memory: &mut [u8]) -> Answer
    requires { Sound w.old }
    ensures { LentKnown (on_channel (Calls.begin_write c)) w.old (slice_mut memory.entry) w.new result memory.new }
{
    may_begin(w, memory.len(), c)?;
    let b = cleared(w, c, memory);
    buffers::with_own(w, c, Session::Write(b));
    Ok(0)
}

// The running task begins to write: it takes the lowest buffer that is not latest, not read and not being written, whose message bytes
// become 0.
pub fn begin_write(s: State, channel: ChannelNo, memory: &mut [u8]) -> Reply
    ensures { Lent (on_channel (Calls.begin_write channel.0)) s (slice_mut memory.entry) result memory.new }
{
    let mut w = s.words;
    if !soundness::sound(&w) {
        return refusals::unsound_lent(w, memory.len());
    }
    let answer = begin_write_known(&mut w, channel.0, memory);
    refusals::reply(w, answer)
}

// ---- piece

// Whether n bytes at that offset pass a message of that size, whatever the numbers.
fn past_message(size: usize, offset: usize, n: usize) -> bool
    ensures { result ≡ ltb size (offset + n) }
{
    offset > size || n > size - offset
}

pub fn may_write(
    w: &[u32; State::WORDS],
    memory: usize,
    c: usize,
    offset: usize,
    n: usize,
) -> Result<(), Refusal>
    requires { Sound w.now }
    ensures { (bytes : List ℕ) → length bytes ≡ n → LentVerdict (on_channel (Calls.piece c offset bytes)) w.now memory result }
{
    channels::on_channel(w, memory, c, Kind::Write)?;
    let channel = channels::channel_of(w, c);
    if past_message(channel.size as usize, offset, n) {
        return Err(Refusal::OutsideSizes);
    }
    Ok(())
}

pub fn piece_known(
    w: &[u32; State::WORDS],
    c: usize,
    offset: usize,
    bytes: &[u8],
    memory: &mut [u8],
) -> Answer
    requires { Sound w.now }
    ensures { LentKnown (on_channel (Calls.piece c offset bytes.now)) w.now (slice_mut memory.entry) w.now result memory.new }
{
    may_write(w, memory.len(), c, offset, bytes.len())?;
    let place = channels::held(w, c);
    memory::write(memory, place + offset, bytes);
    Ok(0)
}

// Write these bytes at an offset of the message.
pub fn piece(s: State, channel: ChannelNo, offset: usize, bytes: &[u8], memory: &mut [u8]) -> Reply
    ensures { Lent (on_channel (Calls.piece channel.0 offset bytes.now)) s (slice_mut memory.entry) result memory.new }
{
    let w = s.words;
    if !soundness::sound(&w) {
        return refusals::unsound_lent(w, memory.len());
    }
    let answer = piece_known(&w, channel.0, offset, bytes, memory);
    refusals::reply(w, answer)
}

// ---- put

pub fn published(w: &mut [u32; State::WORDS], c: usize)
    requires { Holds w.old c }
    ensures { Shows w.new (Channels.put c (seen w.old)) }
{
    let session = buffers::own(w, c);
    let b = buffers::buffer(session);
    let before = channels::channel_of(w, c);
    let channel = Channel {
        size: before.size,
        buffers: before.buffers,
        latest: Some(b),
    };
    buffers::with_own(w, c, Session::Closed);
    channels::store(w, c, channel);
}

pub fn put_known(w: &mut [u32; State::WORDS], c: usize, memory: &[u8]) -> Answer
    requires { Sound w.old }
    ensures { LentKnown (on_channel (Calls.put c)) w.old (slice memory.entry) w.new result memory.now }
{
    channels::on_channel(w, memory.len(), c, Kind::Write)?;
    published(w, c);
    Ok(0)
}

// The buffer that the running task was writing is the latest, and its session is closed.
pub fn put(s: State, channel: ChannelNo, memory: &[u8]) -> Reply
    ensures { Lent (on_channel (Calls.put channel.0)) s (slice memory.entry) result memory.now }
{
    let mut w = s.words;
    if !soundness::sound(&w) {
        return refusals::unsound_lent(w, memory.len());
    }
    let answer = put_known(&mut w, channel.0, memory);
    refusals::reply(w, answer)
}
