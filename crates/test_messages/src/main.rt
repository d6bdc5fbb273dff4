// Runs the calls on channels: document 01's cases, pieces, sessions that end or go on, and what the readers are shown.
#![tactic(auto)]

mod document;
mod lives;
mod neighbours;
mod pieces;
mod screens;

fn main() {
    test_lines::title("document 01's cases");
    document::sizes();
    document::still_shown();
    document::none_free();
    test_lines::title("pieces");
    pieces::cleared();
    pieces::overlapping();
    pieces::empty();
    pieces::past();
    pieces::only_the_message();
    test_lines::title("sessions that end unput");
    lives::killed_writer();
    lives::ended_writer();
    lives::killed_reader();
    lives::ended_reader();
    lives::zombie();
    test_lines::title("sessions that go on");
    lives::asleep();
    lives::waiting();
    lives::preempted();
    test_lines::title("showing and screen");
    screens::message_shown();
    screens::refused();
    test_lines::title("all buffers of the largest size");
    neighbours::filled();
}
