// Open, and what the calls on an open channel share: their first rows, and the place of the buffer that a session holds.
#![tactic(auto, using(refusals::proofs::Answers::behind), unfolding(kernel::specs::Calls::effect))]

ghost use Rattle.std.specs.Prelude.{◌≡◌, ◌&&◌, [], ◌∷◌, ◌<◌};
ghost use Rattle.kernel.specs.Sizes.{channel_count, longest_message, fewest_buffers, most_buffers, within};
ghost use Rattle.kernel.specs.Kernel.{channel, with_channel};
ghost use Rattle.kernel.specs.Channels as Channels;
ghost use Rattle.kernel.specs.Channels.{own, lowest_channel};
ghost use Rattle.kernel.specs.Calls as Calls;
ghost use Rattle.kernel.specs.Calls.{on_channel};
ghost use Rattle.kernel.specs.Refusals.{when, unless, -6, -14, no_channel};
ghost use Rattle.kernel.specs.Codes.{latest_code};
ghost use Rattle.kernel.specs.Seen.{seen};
ghost use Rattle.kernel.specs.Sound.{Sound};
ghost use Rattle.kernel.specs.Shows.{Kept, Shows};
ghost use Rattle.kernel.specs.Promise.{Unlent, UnlentKnown};
ghost use Rattle.refusals.specs.Tested.{Tested, Verdict, Legal, of_lent};
ghost use Rattle.channels.specs.Session.{fits, Holds};

use kernel::{Answer, Channel, Refusal, Reply, Session, State};

// Channel c, an unused one where there is none of that number.
pub fn channel_of(w: &[u32; State::WORDS], c: usize) -> Channel
    ensures { result ≡ channel (seen w.now) c }
{
    if c < State::CHANNELS {
        return words::channel(w, c);
    }
    Channel {
        size: 0,
        buffers: 0,
        latest: None,
    }
}

// Channel c is this from now on.
pub fn store(w: &mut [u32; State::WORDS], c: usize, channel: Channel)
    requires kept { Kept w.old }
    requires is_channel { c < channel_count }
    requires latest_fits { latest_code channel.latest < 4294967296 }
    ensures { Shows w.new (with_channel (seen w.old) c channel) }
{
    words::set_channel(w, c, channel);
}

// ---- open

// Whether n is from low to high.
fn within(low: usize, n: usize, high: usize) -> bool
    ensures { result ≡ within low n high }
{
    low <= n && n <= high
}

// Whether the size of a message and the number of buffers are inside their sizes.
fn fit(size: usize, buffers: usize) -> bool
    ensures { result ≡ within 1 size longest_message && within fewest_buffers buffers most_buffers }
{
    within(1, size, State::LONGEST_MESSAGE)
        && within(State::FEWEST_BUFFERS, buffers, State::MOST_BUFFERS)
}

pub fn may_open(w: &[u32; State::WORDS], size: usize, buffers: usize) -> Result<(), Refusal>
    ensures { Verdict (on_channel (Calls.open_channel size buffers)) w.now result }
{
    refusals::every_call(w)?;
    if !fit(size, buffers) {
        return Err(Refusal::OutsideSizes);
    }
    if buffers::lowest_channel(w) == State::CHANNELS {
        return Err(Refusal::NoRoom);
    }
    Ok(())
}

// The number is that of the channel.
pub fn opened(w: &mut [u32; State::WORDS], size: usize, buffers: usize) -> usize
    requires { Legal (on_channel (Calls.open_channel size buffers)) w.old }
    ensures number { result ≡ lowest_channel (seen w.old) }
    ensures shows { Shows w.new (Channels.open_channel size buffers (seen w.old)) }
{
    let c = buffers::lowest_channel(w);
    let channel = Channel {
        size: size as u32,
        buffers: buffers as u32,
        latest: None,
    };
    store(w, c, channel);
    c
}

pub fn open_channel_known(w: &mut [u32; State::WORDS], size: usize, buffers: usize) -> Answer
    requires { Sound w.old }
    ensures { UnlentKnown (on_channel (Calls.open_channel size buffers)) w.old w.new result }
{
    may_open(w, size, buffers)?;
    let c = opened(w, size, buffers);
    refusals::done_with(c)
}

// Open the lowest unused channel, for messages of this size in so many buffers: its number.
pub fn open_channel(s: State, size: usize, buffers: usize) -> Reply
    ensures { Unlent (on_channel (Calls.open_channel size buffers)) s result }
{
    refusals::handed(s, |w| open_channel_known(w, size, buffers))
}

// ---- calls on an open channel

// What a call needs of the running task's session on the channel: that there is none, or one of this kind.
#[derive(Clone, Copy)]
pub enum Kind {
    Closed,
    Write,
    Reading,
}

fn fits(session: Session, kind: Kind) -> bool
    ensures { result ≡ fits kind session }
{
    matches!(
        (kind, session),
        (Kind::Closed, Session::Closed)
            | (Kind::Write, Session::Write(_))
            | (Kind::Reading, Session::Reading(_))
    )
}

// The rows of a call on channel c that needs such a session, where a memory of so many bytes is lent.
pub fn on_channel(
    w: &[u32; State::WORDS],
    memory: usize,
    c: usize,
    kind: Kind,
) -> Result<(), Refusal>
    requires { Sound w.now }
    ensures { Tested (of_lent w.now memory (when -6 (no_channel (seen w.now) c) ∷ unless -14 (fits kind (own (seen w.now) c)) ∷ [])) result }
{
    refusals::lent_call(w, memory)?;
    if buffers::no_channel(w, c) {
        return Err(Refusal::NoSuchNumber);
    }
    if !fits(buffers::own(w, c), kind) {
        return Err(Refusal::WrongSession);
    }
    Ok(())
}

// Where the buffer starts that the running task's session on channel c holds.
pub fn held(w: &[u32; State::WORDS], c: usize) -> usize
    requires { Holds w.now c }
    ensures { result ≡ Channels.buffer_start c (Channels.buffer (own (seen w.now) c)) }
{
    let session = buffers::own(w, c);
    let b = buffers::buffer(session);
    memory::buffer_start(c, b as usize)
}
