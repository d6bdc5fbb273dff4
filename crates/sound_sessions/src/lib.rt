// The clauses of soundness about channels and sessions, over lent words: whatever they are.
#![tactic(auto)]

ghost use Rattle.std.specs.Prelude.{◌≡◌, true, ◌↔◌, ℕ, ◌<◌, Some, None};
ghost use Rattle.kernel.specs.Sizes.{task_count, channel_count};
ghost use Rattle.kernel.specs.Status.{status_number};
ghost use Rattle.kernel.specs.Kernel.{session};
ghost use Rattle.kernel.specs.Good.{Opens, GoodSession, GoodChannel};
ghost use Rattle.kernel.specs.Seen.{seen};
ghost use Rattle.sound_sessions.specs.Channel.{KeepsSizes, NamesLatest, KeepsChannel};
ghost use Rattle.sound_sessions.specs.Session.{KeepsSession, Alone, KeptIn};

use kernel::{Channel, Session, State, Status};

// Whether an unused channel has no buffers, and a used one keeps its sizes.
fn keeps_sizes(size: u32, buffers: u32) -> bool
    ensures { (result ≡ true) ↔ KeepsSizes size buffers }
{
    if size as usize > State::LONGEST_MESSAGE {
        return false;
    }
    if buffers as usize > State::MOST_BUFFERS {
        return false;
    }
    if size == 0 {
        return buffers == 0;
    }
    buffers as usize >= State::FEWEST_BUFFERS
}

// Whether the latest is one of so many buffers, or none.
fn names_latest(latest: Option<u32>, buffers: u32) -> bool
    ensures { (result ≡ true) ↔ NamesLatest buffers latest }
{
    match latest {
        None => true,
        Some(b) => b < buffers,
    }
}

// Whether a channel's own record is in order. An unused one, which has no buffers, can then have no latest and no session.
pub fn keeps_channel(channel: Channel) -> bool
    ensures { (result ≡ true) ↔ KeepsChannel channel }
{
    if !keeps_sizes(channel.size, channel.buffers) {
        return false;
    }
    let latest = channel.latest;
    names_latest(latest, channel.buffers)
}

// Whether a task of that status may have a session open on buffer b of so many: it is neither FREE nor ZOMBIE.
fn may_hold(status: Status, b: u32, buffers: u32) -> bool
    ensures { (result ≡ true) ↔ GoodSession (status_number status) b buffers }
{
    let n = kernel::status_number(status);
    if n == Status::FREE {
        return false;
    }
    if n == Status::ZOMBIE {
        return false;
    }
    b < buffers
}

// Whether buffer b is not the latest.
fn not_latest(latest: Option<u32>, b: u32) -> bool
    ensures { (result ≡ true) ↔ (latest ≡ Some b → ⊥) }
{
    latest != Some(b)
}

// Whether anything was put.
fn put_first(latest: Option<u32>) -> bool
    ensures { (result ≡ true) ↔ (latest ≡ None → ⊥) }
{
    latest.is_some()
}

// Whether a session is open and names buffer b.
pub fn names(session: Session, b: u32) -> bool
    ensures { (result ≡ true) ↔ Opens session b }
{
    match session {
        Session::Closed => false,
        Session::Write(a) => a == b,
        Session::Reading(a) => a == b,
    }
}

// Whether a session of a task of that status keeps the rules by itself.
pub fn keeps_session(session: Session, status: Status, channel: Channel) -> bool
    ensures { (result ≡ true) ↔ KeepsSession channel (status_number status) session }
{
    let latest = channel.latest;
    match session {
        Session::Closed => true,
        Session::Write(b) => {
            if !may_hold(status, b, channel.buffers) {
                return false;
            }
            not_latest(latest, b)
        }
        Session::Reading(b) => {
            if !may_hold(status, b, channel.buffers) {
                return false;
            }
            put_first(latest)
        }
    }
}

// Whether no other task's session on channel c names buffer b, for a write or a reading.
fn alone(w: &[u32; State::WORDS], c: usize, t: usize, b: u32) -> bool
    requires { c < channel_count }
    ensures { (result ≡ true) ↔ Alone task_count (session (seen w.now) c) t b }
{
    (0..State::TASKS).all(|u| u == t || !names(words::session(w, State::TASKS * c + u), b))
}

// Whether the session of every task on channel c keeps the rules. Readers may share a buffer, so only a writer must be alone.
fn keeps_sessions(w: &[u32; State::WORDS], c: usize) -> bool
    requires { c < channel_count }
    ensures { (result ≡ true) ↔ ((t : ℕ) → t < task_count → KeptIn (seen w.now) c t) }
{
    let channel = words::channel(w, c);
    (0..State::TASKS).all(|t| {
        let session = words::session(w, State::TASKS * c + t);
        if let Session::Write(b) = session {
            if !alone(w, c, t, b) {
                return false;
            }
        }
        keeps_session(session, words::status(w, t), channel)
    })
}

// Whether every channel and every session on it keeps the rules.
pub fn channels_good(w: &[u32; State::WORDS]) -> bool
    ensures { (result ≡ true) ↔ ((c : ℕ) → c < channel_count → GoodChannel (seen w.now) c) }
{
    (0..State::CHANNELS).all(|c| keeps_channel(words::channel(w, c)) && keeps_sessions(w, c))
}
