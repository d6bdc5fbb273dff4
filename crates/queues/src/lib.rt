// Chapter 10's queues, in place: insert, extract and getfirst. But for the fresh kernel, no other code writes a link or a head.
#![tactic(auto)]

ghost use Rattle.std.specs.Prelude.{◌≡◌, ◌<◌};
ghost use Rattle.kernel.specs.Sizes.{task_count};
ghost use Rattle.kernel.specs.Status.{queue_count, queue_of};
ghost use Rattle.kernel.specs.Codes.{Classed, status_code};
ghost use Rattle.kernel.specs.Seen.{seen};
ghost use Rattle.kernel.specs.Shows.{Kept};
ghost use Rattle.queues.specs.First.{First};
ghost use Rattle.queues.specs.Links.{Linked, Found, relinked, taken_out, FiledIn};
ghost use Rattle.queues.specs.Moved.{filed_record, Moved};

use kernel::{Class, State, Status};

// The first task of queue q, and a number that no task has where the queue is empty.
pub fn first(w: &[u32; State::WORDS], q: usize) -> usize
    requires { q < queue_count }
    ensures { First w.now q result }
{
    let head = words::head(w, q);
    words::wide(head)
}

// The links on both sides of a place in queue q are turned: what stands before it, or the head, leads to n, and what stands after it
// back to m.
fn relink(w: &mut [u32; State::WORDS], q: usize, before: u32, after: u32, n: u32, m: u32)
    requires { q < queue_count }
    ensures { w.new ≡ relinked w.old q before after n m }
{
    let earlier = words::wide(before);
    let later = words::wide(after);
    words::set_previous(w, later, m);
    words::set_lead(w, q, earlier, n);
}

// The links on both sides of a place, and how many tasks stand before it.
#[derive(Clone, Copy)]
struct Gap {
    before: u32,
    after: u32,
    passed: usize,
}

// Where a task of this deadline goes in queue q: past every deadline no later than its own.
fn scan(w: &[u32; State::WORDS], q: usize, deadline: u32) -> Gap
    requires is_queue { q < queue_count }
    requires linked { Linked w.now q }
    ensures { Found w.now q deadline result.before result.after result.passed }
{
    let mut before = State::NONE;
    let mut after = words::head(w, q);
    let mut x = words::wide(after);
    let mut passed: usize = 0;
    while x < State::TASKS {
        let d = words::deadline(w, x);
        if deadline < d {
            return Gap {
                before,
                after,
                passed,
            };
        }
        before = after;
        after = words::next(w, x);
        x = words::wide(after);
        passed += 1;
    }
    Gap {
        before,
        after,
        passed,
    }
}

// Task i goes out of whichever queue it is in. It keeps its record, with no links.
pub fn take_out(w: &mut [u32; State::WORDS], i: usize)
    requires { i < task_count }
    ensures { w.new ≡ taken_out w.old i }
{
    let q = words::queue(w, i);
    if q < State::QUEUES {
        let before = words::previous(w, i);
        let after = words::next(w, i);
        relink(w, q, before, after, after, before);
        words::set_links(w, i, State::NONE, State::NONE);
        return;
    }
}

// Task i, which is in no queue, gets this status and deadline, and goes into the queue of its status, if that has one: how many it
// passes there.
pub fn file(w: &mut [u32; State::WORDS], i: usize, status: Status, deadline: u32) -> usize
    requires is_task { i < task_count }
    requires status_fits { status_code status < 4294967296 }
    requires linked { (queue_of status < queue_count → Linked w.old (queue_of status)) }
    ensures { FiledIn w.old i status deadline w.new result }
{
    let q = kernel::queue_of(status);
    if q < State::QUEUES {
        let gap = scan(w, q, deadline);
        let before = gap.before;
        let after = gap.after;
        let passed = gap.passed;
        let link = i as u32;
        relink(w, q, before, after, link, link);
        words::set_filing(w, i, status, deadline, after, before);
        return passed;
    }
    words::set_filing(w, i, status, deadline, State::NONE, State::NONE);
    0
}

// Task i goes from its queue to that of its new status, with its new deadline: how many it passes there.
pub fn move_task(w: &mut [u32; State::WORDS], i: usize, status: Status, deadline: u32) -> usize
    requires kept { Kept w.old }
    requires is_task { i < task_count }
    requires status_fits { status_code status < 4294967296 }
    ensures { Moved w.old i (filed_record (seen w.old) i status deadline) w.new result }
{
    take_out(w, i);
    file(w, i, status, deadline)
}

// Task i becomes another: with this class, status and deadline it goes from its queue to that of its new status: how many it passes
// there.
pub fn recast(
    w: &mut [u32; State::WORDS],
    i: usize,
    class: Class,
    status: Status,
    deadline: u32,
) -> usize
    requires kept { Kept w.old }
    requires is_task { i < task_count }
    requires status_fits { status_code status < 4294967296 }
    requires classed { Classed class }
    ensures { Moved w.old i (record { class = class; status = status; deadline = deadline }) w.new result }
{
    words::set_class(w, i, class);
    move_task(w, i, status, deadline)
}
