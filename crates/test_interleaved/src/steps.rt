// One step of a task: main activates it, it makes its call and sleeps, and main runs again. Its session stays open.
use kernel::{ChannelNo, State, TaskNo};
use reading::HandedBack;

const CHANNEL: ChannelNo = ChannelNo(0);

// A kernel's state and its message memory.
#[derive(Drop)]
pub struct Controller {
    state: State,
    memory: [u8; State::MEMORY_SIZE],
}

impl Controller {
    // The first message is put, and tasks 1 and 2, the writers, and 3 and 4, the readers, are asleep.
    pub fn new(buffers: usize) -> Controller {
        let mut memory = [0u8; State::MEMORY_SIZE];
        let mut s = State::fresh();
        for priority in (1..5).rev() {
            s = creation::create_nrt(s, priority).state;
        }
        let open = channels::open_channel(s, 9, buffers);
        let begun = writing::begin_write(open.state, CHANNEL, &mut memory);
        let written = writing::piece(begun.state, CHANNEL, 0, b"the first", &mut memory);
        let state = writing::put(written.state, CHANNEL, &memory).state;
        Controller { state, memory }
    }

    fn activate(&mut self, task: TaskNo) {
        self.state = tasks::activate(self.state, task).state;
    }

    fn sleep(&mut self) {
        self.state = tasks::sleep(self.state).state;
    }
}

// The steps of a writer.
#[derive(Clone, Copy)]
enum Step {
    Begin,
    Write,
    Put,
}

// A writer: its task, its message, and which of its steps is the next.
#[derive(Clone, Copy)]
pub struct Writer {
    task: TaskNo,
    text: &'static [u8],
    next: Step,
}

impl Writer {
    pub fn new(task: TaskNo, text: &'static [u8]) -> Writer {
        Writer {
            task,
            text,
            next: Step::Begin,
        }
    }

    // Makes its next step, and says what became of it: . where the call took effect, x where it was refused.
    pub fn step(&mut self, controller: &mut Controller) -> char {
        controller.activate(self.task);
        let s = controller.state;
        let (reply, next) = match self.next {
            Step::Begin => (
                writing::begin_write(s, CHANNEL, &mut controller.memory),
                Step::Write,
            ),
            Step::Write => (
                writing::piece(s, CHANNEL, 0, self.text, &mut controller.memory),
                Step::Put,
            ),
            Step::Put => (writing::put(s, CHANNEL, &controller.memory), Step::Begin),
        };
        controller.state = reply.state;
        controller.sleep();
        self.next = next;
        match reply.answer {
            Ok(_) => '.',
            Err(_) => 'x',
        }
    }
}

// The message that is shown: 0, A or B. A refusal, with nothing shown, is -. Anything else is !.
fn letter(back: HandedBack) -> char {
    match (back.answer, back.slice) {
        (Err(_), []) => '-',
        (Ok(_), b"the first") => '0',
        (Ok(_), b"A's words") => 'A',
        (Ok(_), b"B's words") => 'B',
        _ => '!',
    }
}

// A reader, and the point where it opens.
#[derive(Clone, Copy)]
pub struct Reader {
    pub task: TaskNo,
    pub opens: usize,
}

impl Reader {
    // It begins to read.
    fn open(self, controller: &mut Controller) {
        controller.activate(self.task);
        controller.state = reading::begin_reading(
            controller.state,
            CHANNEL,
            &controller.memory,
        ).state;
        controller.sleep();
    }

    // It opens if this is the point, and is shown what it holds.
    pub fn look(self, controller: &mut Controller, point: usize) -> char {
        if point == self.opens {
            self.open(controller);
        }
        controller.activate(self.task);
        let letter = letter(reading::showing(controller.state, CHANNEL, &controller.memory));
        controller.sleep();
        letter
    }
}
