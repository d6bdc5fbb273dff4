// Who runs, in place: dispatch and schedule.
#![tactic(auto)]

ghost use Rattle.std.specs.Prelude.{◌≡◌, ◌+◌, ◌<◌};
ghost use Rattle.kernel.specs.Sizes.{task_count};
ghost use Rattle.kernel.specs.Kernel.{task, period_of, next_period, with_status};
ghost use Rattle.kernel.specs.Moves.{move, dispatch as dispatched, schedule as scheduled};
ghost use Rattle.kernel.specs.Codes.{status_code};
ghost use Rattle.kernel.specs.Seen.{seen};
ghost use Rattle.kernel.specs.Shows.{Kept, Shows};

use kernel::{State, Status};

// Task i gets another status, and goes to its queue.
pub fn restate(w: &mut [u32; State::WORDS], i: usize, status: Status)
    requires kept { Kept w.old }
    requires is_task { i < task_count }
    requires status_fits { status_code status < 4294967296 }
    ensures { Shows w.new (move (seen w.old) i (with_status (task (seen w.old) i) status)) }
{
    let deadline = words::deadline(w, i);
    queues::move_task(w, i, status, deadline);
}

// The deadline of task x with its period added.
fn next_deadline(w: &[u32; State::WORDS], x: usize) -> u32
    requires is_task { x < task_count }
    requires next_fits { (task (seen w.now) x).deadline + period_of (task (seen w.now) x).class < 4294967296 }
    ensures { result ≡ (task (seen w.now) x).deadline + period_of (task (seen w.now) x).class }
{
    let class = words::class(w, x);
    let period = kernel::period_of(class);
    words::deadline(w, x) + period
}

// Task x is READY, with its period added.
pub fn renew(w: &mut [u32; State::WORDS], x: usize)
    requires kept { Kept w.old }
    requires is_task { x < task_count }
    requires next_fits { (task (seen w.old) x).deadline + period_of (task (seen w.old) x).class < 4294967296 }
    ensures { Shows w.new (move (seen w.old) x (next_period (task (seen w.old) x))) }
{
    let deadline = next_deadline(w, x);
    queues::move_task(w, x, Status::Ready, deadline);
}

// The first ready task runs.
pub fn dispatch(w: &mut [u32; State::WORDS])
    requires { Kept w.old }
    ensures { Shows w.new (dispatched (seen w.old)) }
{
    let x = queues::first(w, State::READY_QUEUE);
    if x < State::TASKS {
        restate(w, x, Status::Exe);
        words::set_running(w, x);
        return;
    }
}

// Only if the first ready deadline is strictly below the running one, the running task goes to ready and the first ready task runs.
pub fn schedule(w: &mut [u32; State::WORDS])
    requires kept { Kept w.old }
    requires runs_task { (seen w.old).running < task_count }
    ensures { Shows w.new (scheduled (seen w.old)) }
{
    let x = queues::first(w, State::READY_QUEUE);
    if x < State::TASKS {
        let i = words::running(w);
        let first = words::deadline(w, x);
        let running = words::deadline(w, i);
        if first < running {
            restate(w, i, Status::Ready);
            dispatch(w);
            return;
        }
    }
}
