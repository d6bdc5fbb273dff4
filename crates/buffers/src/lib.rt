// Channels, sessions, and which buffer is free.
#![tactic(auto)]

ghost use Rattle.std.specs.Prelude.{◌≡◌, ◌||◌, ◌<◌};
ghost use Rattle.kernel.specs.Sizes.{task_count, channel_count, most_buffers};
ghost use Rattle.kernel.specs.Channels as Channels;
ghost use Rattle.kernel.specs.Channels.{with_own, is_latest, reads, writes, some_session, free_buffer, lowest_buffer, lowest_channel};
ghost use Rattle.kernel.specs.Refusals.{no_channel};
ghost use Rattle.kernel.specs.Seen.{seen};
ghost use Rattle.kernel.specs.Shows.{Kept, Shows};

use kernel::{Session, State};

// Whether a channel number is out of range, or unused.
pub fn no_channel(w: &[u32; State::WORDS], c: usize) -> bool
    ensures { result ≡ no_channel (seen w.now) c }
{
    if c >= State::CHANNELS {
        return true;
    }
    let channel = words::channel(w, c);
    channel.size == 0
}

// The lowest unused channel, CHANNELS where there is none.
pub fn lowest_channel(w: &[u32; State::WORDS]) -> usize
    ensures { result ≡ lowest_channel (seen w.now) }
{
    (0..State::CHANNELS)
        .find(|c| words::channel(w, *c).size == 0)
        .unwrap_or(State::CHANNELS)
}

// ---- sessions

// The buffer of a session, 0 where it is closed.
pub fn buffer(z: Session) -> u32
    ensures { result ≡ Channels.buffer z }
{
    match z {
        Session::Closed => 0,
        Session::Write(b) => b,
        Session::Reading(b) => b,
    }
}

// The session that the running task has on channel c, Closed where there is no such task or no such channel.
pub fn own(w: &[u32; State::WORDS], c: usize) -> Session
    ensures { c < channel_count → (seen w.now).running < task_count → result ≡ Channels.own (seen w.now) c }
{
    let t = words::running(w);
    if c < State::CHANNELS {
        if t < State::TASKS {
            return words::session(w, State::TASKS * c + t);
        }
    }
    Session::Closed
}

// The running task has this session on channel c from now on.
pub fn with_own(w: &mut [u32; State::WORDS], c: usize, z: Session)
    requires kept { Kept w.old }
    requires is_channel { c < channel_count }
    requires runs_task { (seen w.old).running < task_count }
    requires is_buffer { Channels.buffer z < most_buffers }
    ensures { Shows w.new (with_own (seen w.old) c z) }
{
    let t = words::running(w);
    words::set_session(w, State::TASKS * c + t, z);
}

// ---- buffers

// Whether buffer b is the latest.
fn is_latest(latest: Option<u32>, b: u32) -> bool
    ensures { result ≡ is_latest latest b }
{
    latest == Some(b)
}

// Whether a session reads buffer b or is writing it.
fn holds(z: Session, b: u32) -> bool
    ensures { result ≡ reads b z || writes b z }
{
    match z {
        Session::Closed => false,
        Session::Write(x) => x == b,
        Session::Reading(x) => x == b,
    }
}

// Whether buffer b of channel c is read or being written.
fn in_session(w: &[u32; State::WORDS], c: usize, b: u32) -> bool
    requires { c < channel_count }
    ensures { result ≡ some_session (reads b) task_count (seen w.now) c || some_session (writes b) task_count (seen w.now) c }
{
    (0..State::TASKS).any(|t| holds(words::session(w, State::TASKS * c + t), b))
}

// Whether buffer b of channel c is not latest, not read and not being written.
fn free_buffer(w: &[u32; State::WORDS], c: usize, b: u32) -> bool
    requires { c < channel_count }
    ensures { result ≡ free_buffer (seen w.now) c b }
{
    let channel = words::channel(w, c);
    let latest = channel.latest;
    if is_latest(latest, b) {
        return false;
    }
    !in_session(w, c, b)
}

// The lowest such buffer, the number of buffers where there is none.
pub fn lowest_buffer(w: &[u32; State::WORDS], c: usize) -> u32
    ensures { c < channel_count → result ≡ lowest_buffer (seen w.now) c }
{
    if c >= State::CHANNELS {
        return 0;
    }
    let buffers = words::channel(w, c).buffers;
    (0..buffers)
        .find(|b| free_buffer(w, c, *b))
        .unwrap_or(buffers)
}
