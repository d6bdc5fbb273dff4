// The language of scripts: a line of bytes to the call that it asks for.
#![tactic(auto)]

ghost use Rattle.std.specs.Prelude.{◌≡◌, true, false, ◌==◌, option_map, MatchOption};
ghost use Rattle.std.specs.List.{find, position};
ghost use Rattle.std.specs.Str.{bytes_eq};
ghost use Rattle.language.specs.Meaning as Meaning;
ghost use Rattle.language.specs.Meaning.{before, behind, has_space, number_of, meaning};

use kernel::{SemaphoreNo, TaskNo};
use verbs::Verb;

// Ten digits have room in 64 bits.
fn value(digits: &[u8]) -> Option<u64>
    ensures { result ≡ number_of digits.now }
{
    if digits.is_empty() || digits.len() > 10 {
        return None;
    }
    let mut n: u64 = 0;
    for b in digits {
        if !b.is_ascii_digit() {
            return None;
        }
        n = n * 10 + u64::from(*b - b'0');
    }
    Some(n)
}

// What a word asks for, sought among the verbs listed.
fn sought(word: &[u8], verbs: &[(&[u8], Verb)]) -> Option<Verb>
    ensures { result ≡ option_map (λ v. v.1) (find (λ v. bytes_eq word.now v.0.now) verbs.now) }
{
    verbs.iter().find(|v| word == v.0).map(|v| v.1)
}

fn alone(verb: &[u8]) -> Option<Verb>
    ensures { result ≡ Meaning.alone verb.now }
{
    sought(
        verb,
        &[
            (b"tick", Verb::Tick),
            (b"sleep", Verb::Sleep),
            (b"cycle", Verb::Cycle),
            (b"end", Verb::End),
        ],
    )
}

fn with_one(verb: &[u8], n: u64) -> Option<Verb>
    ensures { result ≡ Meaning.with_one verb.now n }
{
    let task = TaskNo(n as usize);
    let semaphore = SemaphoreNo(n as usize);
    sought(
        verb,
        &[
            (b"nrt", Verb::Nrt(n)),
            (b"activate", Verb::Activate(task)),
            (b"kill", Verb::Kill(task)),
            (b"newsem", Verb::Newsem(n)),
            (b"delsem", Verb::Delsem(semaphore)),
            (b"wait", Verb::Wait(semaphore)),
            (b"signal", Verb::Signal(semaphore)),
        ],
    )
}

// Where the first space of a line stands.
fn space(line: &[u8]) -> Option<usize>
    ensures { result ≡ position (λ b. b == 32) line.now }
{
    line.iter().position(|b| *b == b' ')
}

// What stands before it, and behind it.
fn cut_at_space(line: &[u8]) -> Option<(&[u8], &[u8])>
    ensures { MatchOption result (has_space line.now ≡ false) (λ p. (has_space line.now ≡ true) × (p.0.now ≡ before line.now) × (p.1.now ≡ behind line.now)) }
{
    let end = space(line)?;
    Some((&line[..end], &line[end + 1..]))
}

fn hard(numbers: &[u8]) -> Option<Verb>
    ensures { result ≡ Meaning.hard numbers.now }
{
    let (period, cost) = cut_at_space(numbers)?;
    Some(Verb::Hard(value(period)?, value(cost)?))
}

fn followed(verb: &[u8], rest: &[u8]) -> Option<Verb>
    ensures { result ≡ Meaning.followed verb.now rest.now }
{
    if verb == b"hard".as_slice() {
        return hard(rest);
    }
    with_one(verb, value(rest)?)
}

#[tactic(auto, unfolding(crate::specs::Meaning::meaning))]
pub fn read(line: &[u8]) -> Option<Verb>
    ensures { result ≡ meaning line.now }
{
    match cut_at_space(line) {
        Some((verb, rest)) => followed(verb, rest),
        None => alone(line),
    }
}
