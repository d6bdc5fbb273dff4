// Activate, sleep and cycle.
#![tactic(auto, using(refusals::proofs::Answers::behind), unfolding(kernel::specs::Calls::effect))]

ghost use Rattle.std.specs.Prelude.{◌≡◌, not, ◌||◌, ◌<◌, ltb};
ghost use Rattle.kernel.specs.Sizes.{task_count};
ghost use Rattle.kernel.specs.Kernel.{task};
ghost use Rattle.kernel.specs.Tasks as Tasks;
ghost use Rattle.kernel.specs.Calls as Calls;
ghost use Rattle.kernel.specs.Calls.{verb};
ghost use Rattle.kernel.specs.Refusals.{main_runs, hard_runs, too_soon};
ghost use Rattle.kernel.specs.Seen.{seen};
ghost use Rattle.kernel.specs.Sound.{Sound};
ghost use Rattle.kernel.specs.Shows.{Shows};
ghost use Rattle.kernel.specs.Promise.{Unlent, UnlentKnown};
ghost use Rattle.refusals.specs.Tested.{Verdict, Legal};

use kernel::{Answer, Class, Refusal, Reply, State, Status, TaskNo};

// Whether the clock is before the deadline of task i.
fn early(w: &[u32; State::WORDS], i: usize) -> bool
    requires { i < task_count }
    ensures { result ≡ ltb (seen w.now).clock (task (seen w.now) i).deadline }
{
    let deadline = words::deadline(w, i);
    words::clock(w) < deadline
}

// ---- activate

// Whether task n is HARD, and the clock before its deadline.
fn too_soon(w: &[u32; State::WORDS], n: usize) -> bool
    ensures { result ≡ too_soon (seen w.now) n }
{
    refusals::is_hard(w, n) && early(w, n)
}

pub fn may_activate(w: &[u32; State::WORDS], n: usize) -> Result<(), Refusal>
    ensures { Verdict (verb (Calls.activate n)) w.now result }
{
    refusals::every_call(w)?;
    if refusals::no_task_in_use(w, n) {
        return Err(Refusal::NoSuchNumber);
    }
    if refusals::status_of(w, n) != Status::Sleep {
        return Err(Refusal::WrongStatus);
    }
    if too_soon(w, n) {
        return Err(Refusal::TooSoon);
    }
    Ok(())
}

// A HARD deadline becomes clock + period.
fn release(class: Class, clock: u32, deadline: u32) -> u32
    requires { Tasks.release class clock deadline < 4294967296 }
    ensures { result ≡ Tasks.release class clock deadline }
{
    match class {
        Class::Nrt { priority: _ } => deadline,
        Class::Hard { period, cost: _ } => clock + period,
    }
}

// The deadline that task n gets on activation.
fn released(w: &[u32; State::WORDS], n: usize) -> u32
    requires sound { Sound w.now }
    requires is_task { n < task_count }
    ensures { result ≡ Tasks.release (task (seen w.now) n).class (seen w.now).clock (task (seen w.now) n).deadline }
{
    let class = words::class(w, n);
    let clock = words::clock(w);
    let deadline = words::deadline(w, n);
    release(class, clock, deadline)
}

pub fn activated(w: &mut [u32; State::WORDS], n: usize)
    requires { Legal (verb (Calls.activate n)) w.old }
    ensures { Shows w.new (Tasks.activate n (seen w.old)) }
{
    let deadline = released(w, n);
    queues::move_task(w, n, Status::Ready, deadline);
    processor::schedule(w);
}

pub fn activate_known(w: &mut [u32; State::WORDS], n: usize) -> Answer
    requires { Sound w.old }
    ensures { UnlentKnown (verb (Calls.activate n)) w.old w.new result }
{
    may_activate(w, n)?;
    activated(w, n);
    Ok(0)
}

// Activate a SLEEP task, a HARD one not before its deadline: it joins the ready queue; then schedule.
pub fn activate(s: State, task: TaskNo) -> Reply
    ensures { Unlent (verb (Calls.activate task.0)) s result }
{
    refusals::handed(s, |w| activate_known(w, task.0))
}

// ---- sleep

pub fn slept(w: &mut [u32; State::WORDS])
    requires { Legal (verb Calls.sleep) w.old }
    ensures { Shows w.new (Tasks.sleep (seen w.old)) }
{
    let i = words::running(w);
    processor::restate(w, i, Status::Sleep);
    processor::dispatch(w);
}

pub fn sleep_known(w: &mut [u32; State::WORDS]) -> Answer
    requires { Sound w.old }
    ensures { UnlentKnown (verb Calls.sleep) w.old w.new result }
{
    refusals::not_by_main(w)?;
    slept(w);
    Ok(0)
}

// The running task goes to SLEEP, and the first ready task runs.
pub fn sleep(s: State) -> Reply
    ensures { Unlent (verb Calls.sleep) s result }
{
    refusals::handed(s, |w| sleep_known(w))
}

// ---- cycle

// Whether the running task never cycles: task 0 does not, and no NRT task does.
fn never_cycles(w: &[u32; State::WORDS]) -> bool
    ensures { result ≡ main_runs (seen w.now) || not (hard_runs (seen w.now)) }
{
    refusals::main_runs(w) || !refusals::hard_runs(w)
}

pub fn may_cycle(w: &[u32; State::WORDS]) -> Result<(), Refusal>
    ensures { Verdict (verb Calls.cycle) w.now result }
{
    refusals::every_call(w)?;
    if never_cycles(w) {
        return Err(Refusal::NotAllowed);
    }
    Ok(())
}

pub fn cycled(w: &mut [u32; State::WORDS])
    requires { Legal (verb Calls.cycle) w.old }
    ensures { Shows w.new (Tasks.cycle (seen w.old)) }
{
    let i = words::running(w);
    if early(w, i) {
        processor::restate(w, i, Status::Idle);
        processor::dispatch(w);
        return;
    }
    processor::renew(w, i);
    processor::dispatch(w);
}

pub fn cycle_known(w: &mut [u32; State::WORDS]) -> Answer
    requires { Sound w.old }
    ensures { UnlentKnown (verb Calls.cycle) w.old w.new result }
{
    may_cycle(w)?;
    cycled(w);
    Ok(0)
}

// The running HARD task is idle until its deadline; at its deadline it is ready again, a period later. The first ready task runs.
pub fn cycle(s: State) -> Reply
    ensures { Unlent (verb Calls.cycle) s result }
{
    refusals::handed(s, |w| cycle_known(w))
}
