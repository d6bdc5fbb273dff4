// The states that one bit tells from a state, and what calls give on them.
use kernel::{Refusal, SemaphoreNo, State, TaskNo};
use test_lines::CheckNumber;
use verbs::Verb;

// The calls that are made on each state.
const CALLS: [Verb; 12] = [
    Verb::Tick,
    Verb::Hard(4, 1),
    Verb::Nrt(3),
    Verb::Activate(TaskNo(3)),
    Verb::Sleep,
    Verb::Cycle,
    Verb::End,
    Verb::Kill(TaskNo(2)),
    Verb::Newsem(5),
    Verb::Delsem(SemaphoreNo(1)),
    Verb::Wait(SemaphoreNo(0)),
    Verb::Signal(SemaphoreNo(0)),
];

// Of some states: how many are sound, how many a tick answers with -11, and a check number of what the calls give on the others.
#[derive(Clone, Copy)]
pub struct Found {
    pub sound: u64,
    pub refused: u64,
    pub check: CheckNumber,
}

// Whether the public call answers -11, and gives back the very words that it was handed.
fn refused(s: State) -> bool {
    let reply = ticks::tick(s);
    reply.answer == Err(Refusal::NotSound) && reply.state.words == s.words
}

// The calls, each made on a copy in place: its answer, and all words behind it.
fn called(before: CheckNumber, s: State) -> CheckNumber {
    let mut check = before;
    for asked in CALLS {
        let mut w = s.words;
        check = check.with_answer(verbs::make(&mut w, asked));
        for word in w {
            check = check.with(word);
        }
    }
    check
}

impl Found {
    fn none() -> Found {
        Found {
            sound: 0,
            refused: 0,
            check: CheckNumber::new(),
        }
    }

    // One state more.
    fn add(&mut self, s: State) {
        if soundness::sound(&s.words) {
            self.sound = self.sound.saturating_add(1);
        }
        if refused(s) {
            self.refused = self.refused.saturating_add(1);
        } else {
            self.check = called(self.check, s);
        }
    }
}

pub fn beside(s: State) -> Found {
    let mut found = Found::none();
    for j in 0..State::WORDS {
        for bit in 0..u32::BITS {
            let mut flipped = s;
            flipped.words[j] ^= 1 << bit;
            found.add(flipped);
        }
    }
    found
}
