// Create, HARD and NRT.
#![tactic(auto, using(refusals::proofs::Answers::behind), unfolding(kernel::specs::Calls::effect))]

ghost use Rattle.std.specs.Prelude.{◌≡◌, ◌+◌, ◌≤◌, ltb};
ghost use Rattle.kernel.specs.declared.Class.TheVariants.{Hard};
ghost use Rattle.kernel.specs.Sizes.{whole};
ghost use Rattle.kernel.specs.Kernel.{share, share_of};
ghost use Rattle.kernel.specs.Tasks as Tasks;
ghost use Rattle.kernel.specs.Calls as Calls;
ghost use Rattle.kernel.specs.Calls.{verb};
ghost use Rattle.kernel.specs.Good.{Fits};
ghost use Rattle.kernel.specs.Seen.{seen};
ghost use Rattle.kernel.specs.Sound.{Sound};
ghost use Rattle.kernel.specs.Shows.{Shows};
ghost use Rattle.kernel.specs.Promise.{Unlent, UnlentKnown};
ghost use Rattle.refusals.specs.Tested.{Verdict};
ghost use Rattle.creation.specs.Creatable.{Creatable};

use kernel::{Answer, Class, Refusal, Reply, State, Status};

// The lowest FREE record, TASKS where there is none.
fn lowest_free(w: &[u32; State::WORDS]) -> usize
    ensures { result ≡ Tasks.lowest_free (seen w.now) }
{
    (0..State::TASKS)
        .find(|i| refusals::status_of(w, *i) == Status::Free)
        .unwrap_or(State::TASKS)
}

// The deadline of a new task: the clock, or as its priority says.
fn first_deadline(w: &[u32; State::WORDS], class: Class) -> u32
    requires { Fits class }
    ensures { result ≡ Tasks.first_deadline class (seen w.now).clock }
{
    let clock = words::clock(w);
    match class {
        Class::Nrt { priority } => State::NRT_DEADLINE + priority,
        Class::Hard { period: _, cost: _ } => clock,
    }
}

// The share total with one more task, of this class.
fn joined(w: &[u32; State::WORDS], class: Class) -> u32
    requires class_fits { Fits class }
    requires total_fits { (seen w.now).total + share_of class ≤ whole }
    ensures { result ≡ (seen w.now).total + share_of class }
{
    let share = sound_clauses::share_of(class);
    words::total(w) + share as u32
}

// Record i becomes a new task of this class. Its share joins the total.
pub fn created(w: &mut [u32; State::WORDS], i: usize, class: Class)
    requires { Creatable w.old i class }
    ensures { Shows w.new (Tasks.create class (seen w.old)) }
{
    let deadline = first_deadline(w, class);
    let total = joined(w, class);
    queues::recast(w, i, class, Status::Sleep, deadline);
    words::set_total(w, total);
}

// ---- HARD

// Whether the share total would pass the whole, of sizes that fit.
fn too_much(w: &[u32; State::WORDS], period: u64, cost: u64) -> bool
    ensures { Fits (Hard period cost) → result ≡ ltb whole ((seen w.now).total + share period cost) }
{
    if !kernel::fitting(period, cost) {
        return false;
    }
    let share = sound_clauses::hard_share(period as u32, cost as u32);
    words::total(w) as u64 + share > State::WHOLE as u64
}

// Record i is the lowest FREE one.
pub fn may_create_hard(
    w: &[u32; State::WORDS],
    i: usize,
    period: u64,
    cost: u64,
) -> Result<(), Refusal>
    requires { i ≡ Tasks.lowest_free (seen w.now) }
    ensures { Verdict (verb (Calls.create_hard period cost)) w.now result }
{
    refusals::every_call(w)?;
    if !kernel::fitting(period, cost) {
        return Err(Refusal::OutsideSizes);
    }
    if i == State::TASKS {
        return Err(Refusal::NoTask);
    }
    if too_much(w, period, cost) {
        return Err(Refusal::NoGuarantee);
    }
    Ok(())
}

pub fn create_hard_known(w: &mut [u32; State::WORDS], period: u64, cost: u64) -> Answer
    requires { Sound w.old }
    ensures { UnlentKnown (verb (Calls.create_hard period cost)) w.old w.new result }
{
    let i = lowest_free(w);
    may_create_hard(w, i, period, cost)?;
    let class = Class::Hard {
        period: period as u32,
        cost: cost as u32,
    };
    created(w, i, class);
    refusals::done_with(i)
}

// Create a HARD task of this period and cost: its number.
pub fn create_hard(s: State, period: u64, cost: u64) -> Reply
    ensures { Unlent (verb (Calls.create_hard period cost)) s result }
{
    refusals::handed(s, |w| create_hard_known(w, period, cost))
}

// ---- NRT

// Record i is the lowest FREE one.
pub fn may_create_nrt(w: &[u32; State::WORDS], i: usize, priority: u64) -> Result<(), Refusal>
    requires { i ≡ Tasks.lowest_free (seen w.now) }
    ensures { Verdict (verb (Calls.create_nrt priority)) w.now result }
{
    refusals::every_call(w)?;
    if priority > State::LAST_PRIORITY as u64 {
        return Err(Refusal::OutsideSizes);
    }
    if i == State::TASKS {
        return Err(Refusal::NoTask);
    }
    Ok(())
}

pub fn create_nrt_known(w: &mut [u32; State::WORDS], priority: u64) -> Answer
    requires { Sound w.old }
    ensures { UnlentKnown (verb (Calls.create_nrt priority)) w.old w.new result }
{
    let i = lowest_free(w);
    may_create_nrt(w, i, priority)?;
    let class = Class::Nrt {
        priority: priority as u32,
    };
    created(w, i, class);
    refusals::done_with(i)
}

// Create an NRT task of this priority: its number.
pub fn create_nrt(s: State, priority: u64) -> Reply
    ensures { Unlent (verb (Calls.create_nrt priority)) s result }
{
    refusals::handed(s, |w| create_nrt_known(w, priority))
}
