// Two writers and two readers: every merge of the writers' steps, with the readers opening at every point of it.
#![tactic(auto)]

mod scene;
mod steps;

use test_lines::title;

fn main() {
    title(
        "A and B each begin, write and put a message. Before each step and behind the last, two readers are shown what they hold.",
    );
    title(
        "A line: whose steps come, the point where reader 1 opens, and for each point where reader 2 opens, what both are shown:",
    );
    title(
        "0 is the message before, A and B are theirs, - is nothing, and ! would be a message that is not whole.",
    );
    title("three buffers");
    scene::merges(3, 0);
    title("two buffers, and in front what became of the steps: x was refused");
    scene::merges(2, 6);
}
