// The clock tick.
#![tactic(auto, using(refusals::proofs::Answers::behind), unfolding(kernel::specs::Calls::effect))]

ghost use Rattle.std.specs.Prelude.{◌≡◌, ◌+◌, ◌-◌, ◌≤◌, ◌<◌};
ghost use Rattle.kernel.specs.Sizes.{task_count};
ghost use Rattle.kernel.specs.Status.{queue_count};
ghost use Rattle.kernel.specs.Kernel.{task, share_of, period_of};
ghost use Rattle.kernel.specs.Tick as Tick;
ghost use Rattle.kernel.specs.Calls as Calls;
ghost use Rattle.kernel.specs.Calls.{verb};
ghost use Rattle.kernel.specs.Seen.{seen};
ghost use Rattle.kernel.specs.Sound.{Sound};
ghost use Rattle.kernel.specs.Shows.{Kept, Shows};
ghost use Rattle.kernel.specs.Promise.{Unlent, UnlentKnown};
ghost use Rattle.laws_effects.specs.UnderWay.{Freeing, Ticking};
ghost use Rattle.sound_clauses.specs.Task.{HardFits};
ghost use Rattle.refusals.specs.Tested.{Legal};
ghost use Rattle.ticks.specs.Due.{FirstDue};

use kernel::{Answer, Class, Refusal, Reply, State, Status, Stop};

// The first task of queue q if it is due, and a number that no task has else.
fn first_due(w: &[u32; State::WORDS], q: usize) -> usize
    requires kept { Kept w.now }
    requires is_queue { q < queue_count }
    ensures { FirstDue w.now q result }
{
    let x = queues::first(w, q);
    if x < State::TASKS {
        let deadline = words::deadline(w, x);
        let clock = words::clock(w);
        if deadline <= clock {
            return x;
        }
    }
    State::TASKS
}

// The total without the share of task x.
fn total_without(w: &[u32; State::WORDS], x: usize) -> u32
    requires is_task { x < task_count }
    requires hard_fits { HardFits (task (seen w.now) x).class }
    requires share_counted { share_of (task (seen w.now) x).class ≤ (seen w.now).total }
    ensures { result ≡ (seen w.now).total - share_of (task (seen w.now) x).class }
{
    let class = words::class(w, x);
    let share = sound_clauses::share_of(class);
    let total = words::total(w);
    let left = total as u64 - share;
    left as u32
}

// A zombie becomes FREE, and its share goes out of the total.
fn free(w: &mut [u32; State::WORDS], x: usize)
    requires kept { Kept w.old }
    requires is_task { x < task_count }
    requires hard_fits { HardFits (task (seen w.old) x).class }
    requires share_counted { share_of (task (seen w.old) x).class ≤ (seen w.old).total }
    ensures { Shows w.new (Tick.free (seen w.old) x) }
{
    let left = total_without(w, x);
    queues::recast(w, x, Class::Nrt { priority: 0 }, Status::Free, 0);
    words::set_total(w, left);
}

// Free every zombie that is due.
fn free_zombies(w: &mut [u32; State::WORDS])
    requires kept { Kept w.old }
    requires freeing { Freeing (seen w.old) }
    ensures { Shows w.new (Tick.free_zombies (seen w.old)) }
{
    let mut zombie = first_due(w, State::ZOMBIE_QUEUE);
    while zombie < State::TASKS {
        free(w, zombie);
        zombie = first_due(w, State::ZOMBIE_QUEUE);
    }
}

// An IDLE task wakes: add its period, make it READY.
fn wake(w: &mut [u32; State::WORDS], x: usize)
    requires kept { Kept w.old }
    requires is_task { x < task_count }
    requires next_fits { (task (seen w.old) x).deadline + period_of (task (seen w.old) x).class < 4294967296 }
    ensures { Shows w.new (Tick.wake (seen w.old) x) }
{
    processor::renew(w, x);
}

// Wake every IDLE task that is due. If any woke, schedule.
fn wake_idle(w: &mut [u32; State::WORDS])
    requires kept { Kept w.old }
    requires ticking { Ticking (seen w.old) }
    ensures { Shows w.new (Tick.wake_idle (seen w.old)) }
{
    let mut idle = first_due(w, State::IDLE_QUEUE);
    let woke = idle < State::TASKS;
    while idle < State::TASKS {
        wake(w, idle);
        idle = first_due(w, State::IDLE_QUEUE);
    }
    if woke {
        processor::schedule(w);
        return;
    }
}

// Whether the running task is HARD and the clock is past its deadline.
fn overrun(w: &[u32; State::WORDS]) -> bool
    requires { (seen w.now).running < task_count }
    ensures { result ≡ Tick.overrun (seen w.now) }
{
    if refusals::hard_runs(w) {
        let i = words::running(w);
        let deadline = words::deadline(w, i);
        return deadline < words::clock(w);
    }
    false
}

// Clock + 1. At lifetime: stop with -2. Else if overrun: stop with -1. Else the zombies and the IDLE tasks.
pub fn ticked(w: &mut [u32; State::WORDS])
    requires { Legal (verb Calls.tick) w.old }
    ensures { Shows w.new (Tick.tick (seen w.old)) }
{
    let clock = words::clock(w) + 1;
    words::set_clock(w, clock);
    if clock == State::LIFETIME {
        words::set_stop(w, Stop::Lifetime);
        return;
    }
    if overrun(w) {
        words::set_stop(w, Stop::Overrun);
        return;
    }
    free_zombies(w);
    wake_idle(w);
}

pub fn tick_known(w: &mut [u32; State::WORDS]) -> Answer
    requires { Sound w.old }
    ensures { UnlentKnown (verb Calls.tick) w.old w.new result }
{
    refusals::every_call(w)?;
    ticked(w);
    Ok(0)
}

// A clock tick.
pub fn tick(s: State) -> Reply
    ensures { Unlent (verb Calls.tick) s result }
{
    refusals::handed(s, |w| tick_known(w))
}
