// What is timed: the calls of a script, from the fresh kernel.
ghost use Rattle.kernel.specs.Sound.{Sound};

use kernel::{Answer, State};
use test_lines::CheckNumber;
use verbs::Verb;

fn make(w: &mut [u32; State::WORDS], tested: bool, asked: Verb) -> Answer
    requires { Sound w.old }
    ensures { Sound w.new }
{
    if tested {
        return verbs::make(w, asked);
    }
    verbs::make_known(w, asked)
}

// One run: of each call its answer and who runs then.
fn run(calls: &[Verb], tested: bool) -> CheckNumber {
    let mut w = State::fresh().words;
    let mut check = CheckNumber::new();
    for asked in calls {
        check = check.with_answer(make(&mut w, tested, *asked));
        check = check.with(w[State::RUNNING_AT]);
    }
    check
}

// Makes the calls so often: the check number of one run.
pub fn made(calls: &[Verb], tested: bool, times: u64) -> CheckNumber {
    let mut check = CheckNumber::new();
    for _ in 0..times {
        check = run(calls, tested);
    }
    check
}
