// Runs the bench cases of tasks and semaphores that are to be run, and prints a line a call.
#![tactic(auto)]

mod lives;
mod slack;
mod waiting;

fn main() {
    test_lines::title("slack before, at and after the deadline");
    slack::asleep();
    test_lines::title("tasks");
    lives::equals();
    lives::overrun();
    lives::cycles();
    lives::zombies();
    test_lines::title("semaphores");
    waiting::signals();
    waiting::killed();
    waiting::all();
}
