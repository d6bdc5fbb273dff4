// Begin reading, showing, the screen call and close.
#![tactic(auto, using(refusals::proofs::Answers::behind), unfolding(kernel::specs::Calls::effect))]

ghost use Rattle.std.specs.Prelude.{◌≡◌};
ghost use Rattle.kernel.specs.Kernel.{channel};
ghost use Rattle.kernel.specs.Channels as Channels;
ghost use Rattle.kernel.specs.Calls as Calls;
ghost use Rattle.kernel.specs.Calls.{on_channel};
ghost use Rattle.kernel.specs.Seen.{seen};
ghost use Rattle.kernel.specs.Sound.{Sound};
ghost use Rattle.kernel.specs.Slices.{Slice, slice};
ghost use Rattle.kernel.specs.Promise.{Lent, Showing, LentKnown, ShowingKnown};
ghost use Rattle.refusals.specs.Tested.{LentVerdict};
ghost use Rattle.reading.specs.Message.{Shown};

use channels::Kind;
use kernel::{Answer, ChannelNo, Refusal, Reply, Session, State};

// ---- begin reading

pub fn may_begin(w: &[u32; State::WORDS], memory: usize, c: usize) -> Result<(), Refusal>
    requires { Sound w.now }
    ensures { LentVerdict (on_channel (Calls.begin_reading c)) w.now memory result }
{
    channels::on_channel(w, memory, c, Kind::Closed)?;
    if channels::channel_of(w, c).latest.is_none() {
        return Err(Refusal::NothingPut);
    }
    Ok(())
}

// The buffer of the latest message on channel c.
fn newest(w: &[u32; State::WORDS], c: usize) -> u32
    ensures { result ≡ Channels.newest (channel (seen w.now) c).latest }
{
    channels::channel_of(w, c).latest.unwrap_or(0)
}

pub fn begin_reading_known(w: &mut [u32; State::WORDS], c: usize, memory: &[u8]) -> Answer
    requires { Sound w.old }
    ensures { LentKnown (on_channel (Calls.begin_reading c)) w.old (slice memory.entry) w.new result memory.now }
{
    may_begin(w, memory.len(), c)?;
    let b = newest(w, c);
    buffers::with_own(w, c, Session::Reading(b));
    Ok(0)
}

// The running task begins to read: it holds the latest buffer.
pub fn begin_reading(s: State, channel: ChannelNo, memory: &[u8]) -> Reply
    ensures { Lent (on_channel (Calls.begin_reading channel.0)) s (slice memory.entry) result memory.now }
{
    let mut w = s.words;
    if !soundness::sound(&w) {
        return refusals::unsound_lent(w, memory.len());
    }
    let answer = begin_reading_known(&mut w, channel.0, memory);
    refusals::reply(w, answer)
}

// ---- showing, and the screen call

// What comes back of a showing: a slice, uncopied, and the answer.
#[derive(Clone, Copy)]
pub struct HandedBack<'a> {
    pub slice: &'a [u8],
    pub answer: Answer,
}

// The message that the running task's reading holds, as a part of the memory, uncopied; where that is refused, the other slice.
fn shown<'a>(w: &[u32; State::WORDS], c: usize, memory: &'a [u8], other: &'a [u8]) -> HandedBack<'a>
    requires { Sound w.now }
    ensures { Shown w.now c (slice memory.entry) (slice other.entry) result.answer (slice result.slice) }
{
    match channels::on_channel(w, memory.len(), c, Kind::Reading) {
        Err(refusal) => HandedBack {
            slice: other,
            answer: Err(refusal),
        },
        Ok(()) => {
            let place = channels::held(w, c);
            let size = channels::channel_of(w, c).size as usize;
            HandedBack {
                slice: memory::part(memory, place, size),
                answer: Ok(0),
            }
        }
    }
}

pub fn showing_known<'a>(w: &[u32; State::WORDS], c: usize, memory: &'a [u8]) -> HandedBack<'a>
    requires { Sound w.now }
    ensures { (text : Slice) → ShowingKnown (on_channel (Calls.showing c)) w.now (slice memory.entry) text result.answer (slice result.slice) }
{
    shown(w, c, memory, memory::part(memory, 0, 0))
}

// A showing hands back the message; refused, the empty part at the start of the memory.
pub fn showing<'a>(s: State, channel: ChannelNo, memory: &'a [u8]) -> HandedBack<'a>
    ensures { (text : Slice) → Showing (on_channel (Calls.showing channel.0)) s (slice memory.entry) text result.answer (slice result.slice) }
{
    let w = s.words;
    if !soundness::sound(&w) {
        return HandedBack {
            slice: memory::part(memory, 0, 0),
            answer: Err(refusals::unsound(memory.len())),
        };
    }
    showing_known(&w, channel.0, memory)
}

pub fn screen_known<'a>(
    w: &[u32; State::WORDS],
    c: usize,
    memory: &'a [u8],
    standby: &'a [u8],
) -> HandedBack<'a>
    requires { Sound w.now }
    ensures { ShowingKnown (on_channel (Calls.screen c standby.now)) w.now (slice memory.entry) (slice standby.entry) result.answer (slice result.slice) }
{
    shown(w, c, memory, standby)
}

// The screen call is a showing that is also lent a stand-by text: refused, it hands back that text itself, all of it.
pub fn screen<'a>(
    s: State,
    channel: ChannelNo,
    memory: &'a [u8],
    standby: &'a [u8],
) -> HandedBack<'a>
    ensures { Showing (on_channel (Calls.screen channel.0 standby.now)) s (slice memory.entry) (slice standby.entry) result.answer (slice result.slice) }
{
    let w = s.words;
    if !soundness::sound(&w) {
        return HandedBack {
            slice: standby,
            answer: Err(refusals::unsound(memory.len())),
        };
    }
    screen_known(&w, channel.0, memory, standby)
}

// ---- close

pub fn close_known(w: &mut [u32; State::WORDS], c: usize, memory: &[u8]) -> Answer
    requires { Sound w.old }
    ensures { LentKnown (on_channel (Calls.close c)) w.old (slice memory.entry) w.new result memory.now }
{
    channels::on_channel(w, memory.len(), c, Kind::Reading)?;
    buffers::with_own(w, c, Session::Closed);
    Ok(0)
}

// The running task's reading ends.
pub fn close(s: State, channel: ChannelNo, memory: &[u8]) -> Reply
    ensures { Lent (on_channel (Calls.close channel.0)) s (slice memory.entry) result memory.now }
{
    let mut w = s.words;
    if !soundness::sound(&w) {
        return refusals::unsound_lent(w, memory.len());
    }
    let answer = close_known(&mut w, channel.0, memory);
    refusals::reply(w, answer)
}
