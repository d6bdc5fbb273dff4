// The state of one controller, with its sizes, its numbers and its fresh kernel, and what a call gives back.
#![tactic(auto)]

ghost use Rattle.std.specs.Prelude.{◌≡◌, ◌+◌, ◌*◌, ◌≤◌};
ghost use Rattle.kernel.specs.Status.{status_number, stop_number, waiting, queue_of};
ghost use Rattle.kernel.specs.Sizes.{fitting};
ghost use Rattle.kernel.specs.Answer.{refusal_number};
ghost use Rattle.kernel.specs.Layout.{word_count};
ghost use Rattle.kernel.specs.Kernel.{period_of};
ghost use Rattle.kernel.specs.Fresh.{with_none, fresh_state};

// Numbers of three kinds, which cannot be mixed. A caller may hand in any.
#[derive(Clone, Copy, Debug, PartialEq, Eq)]
pub struct TaskNo(pub usize);

#[derive(Clone, Copy, Debug, PartialEq, Eq)]
pub struct SemaphoreNo(pub usize);

#[derive(Clone, Copy, Debug, PartialEq, Eq)]
pub struct ChannelNo(pub usize);

#[derive(Clone, Copy, Debug, PartialEq, Eq)]
pub enum Class {
    Nrt { priority: u32 },
    Hard { period: u32, cost: u32 },
}

#[derive(Clone, Copy, Debug, PartialEq, Eq)]
pub enum Status {
    Free,
    Sleep,
    Exe,
    Ready,
    Idle,
    Zombie,
    Wait(SemaphoreNo),
}

// A task's record. Its links lead to its neighbours in its queue, and are -1 at the ends and outside every queue.
#[derive(Clone, Copy)]
pub struct Task {
    pub class: Class,
    pub status: Status,
    pub deadline: u32,
    pub next: i64,
    pub previous: i64,
}

// A mark beside the count, and no Option: the model has the count of an unused one too (`Counted`).
#[derive(Clone, Copy)]
pub struct Semaphore {
    pub used: bool,
    pub count: u32,
}

// Size 0 says that the channel is unused. The latest is the buffer of the last message put, if any was.
#[derive(Clone, Copy)]
pub struct Channel {
    pub size: u32,
    pub buffers: u32,
    pub latest: Option<u32>,
}

// A task's session on a channel, with its buffer.
#[derive(Clone, Copy, Debug, PartialEq, Eq)]
pub enum Session {
    Closed,
    Write(u32),
    Reading(u32),
}

#[derive(Clone, Copy)]
pub struct Slot {
    pub session: Session,
}

#[derive(Clone, Copy, Debug, PartialEq, Eq)]
pub enum Stop {
    Going,
    Overrun,
    Lifetime,
}

// The words of docs/LAYOUT.md, any words at all.
#[derive(Clone, Copy)]
pub struct State {
    pub words: [u32; State::WORDS],
}

// Why a call is refused. The numbers are the state's.
#[derive(Clone, Copy, Debug, PartialEq, Eq)]
pub enum Refusal {
    TimeOverflow = State::TIME_OVERFLOW as isize,
    TimeExpired = State::TIME_EXPIRED as isize,
    NoGuarantee = State::NO_GUARANTEE as isize,
    NoTask = State::NO_TASK as isize,
    NoSemaphore = State::NO_SEMAPHORE as isize,
    NoSuchNumber = State::NO_SUCH_NUMBER as isize,
    OutsideSizes = State::OUTSIDE_SIZES as isize,
    NotAllowed = State::NOT_ALLOWED as isize,
    WrongStatus = State::WRONG_STATUS as isize,
    NoRoom = State::NO_ROOM as isize,
    NotSound = State::NOT_SOUND as isize,
    WrongMemory = State::WRONG_MEMORY as isize,
    NothingPut = State::NOTHING_PUT as isize,
    WrongSession = State::WRONG_SESSION as isize,
    TooSoon = State::TOO_SOON as isize,
}

impl Refusal {
    // The document's number.
    pub fn number(self) -> i64
        ensures { result ≡ refusal_number self }
    {
        self as i64
    }
}

// Slack -3 is Ok(-3), refusal -3 is Err(Refusal::NoGuarantee).
pub type Answer = Result<i64, Refusal>;

// What a call gives back: the next state, the answer and the running task.
#[derive(Clone, Copy)]
pub struct Reply {
    pub state: State,
    pub answer: Answer,
    pub running: TaskNo,
}

// Sizes.
impl State {
    pub const TASKS: usize = 32;

    pub const SEMAPHORES: usize = 32;

    pub const CHANNELS: usize = 4;

    pub const QUEUES: usize = State::WAITERS + State::SEMAPHORES;

    pub const SESSIONS: usize = State::TASKS * State::CHANNELS;

    pub const LONGEST_PERIOD: u32 = 72000;

    pub const LAST_PRIORITY: u32 = 254;

    pub const MAIN_PRIORITY: u32 = 255;

    pub const HIGHEST_COUNT: u32 = 65535;

    pub const LONGEST_MESSAGE: usize = 512;

    pub const FEWEST_BUFFERS: usize = 2;

    pub const MOST_BUFFERS: usize = 8;

    pub const MEMORY_SIZE: usize = 16384;

    pub const NRT_DEADLINE: u32 = 2147483392;

    pub const LIFETIME: u32 = 2147411392;

    pub const WHOLE: u32 = 1000000;
}

// Where the words of a state stand, and how many there are: docs/LAYOUT.md.
impl State {
    pub const CLOCK_AT: usize = 0;

    pub const STOP_AT: usize = 1;

    pub const RUNNING_AT: usize = 2;

    pub const TOTAL_AT: usize = 3;

    pub const HEADS_AT: usize = 4;

    pub const SEMAPHORES_AT: usize = State::HEADS_AT + State::QUEUES;

    pub const TASKS_AT: usize = State::SEMAPHORES_AT + State::SEMAPHORES;

    pub const SESSIONS_AT: usize = State::TASKS_AT + Task::WORDS * State::TASKS;

    pub const CHANNELS_AT: usize = State::SESSIONS_AT + State::SESSIONS;

    pub const WORDS: usize = State::CHANNELS_AT + Channel::WORDS * State::CHANNELS;

    // The word of the link -1.
    pub const NONE: u32 = 4294967295;
}

// The words of a task's record; those from SPARE on are 0.
impl Task {
    pub const PERIOD: usize = 0;

    pub const AMOUNT: usize = 1;

    pub const STATUS: usize = 2;

    pub const DEADLINE: usize = 3;

    pub const NEXT: usize = 4;

    pub const PREVIOUS: usize = 5;

    pub const SPARE: usize = 6;

    pub const WORDS: usize = 8;

    // The word of the status EXE.
    pub const EXE: u32 = 2;
}

// The words of a channel's record.
impl Channel {
    pub const SIZE: usize = 0;

    pub const BUFFERS: usize = 1;

    pub const LATEST: usize = 2;

    pub const WORDS: usize = 3;
}

// Refusal numbers.
impl State {
    pub const TIME_OVERFLOW: i64 = -1;

    pub const TIME_EXPIRED: i64 = -2;

    pub const NO_GUARANTEE: i64 = -3;

    pub const NO_TASK: i64 = -4;

    pub const NO_SEMAPHORE: i64 = -5;

    pub const NO_SUCH_NUMBER: i64 = -6;

    pub const OUTSIDE_SIZES: i64 = -7;

    pub const NOT_ALLOWED: i64 = -8;

    pub const WRONG_STATUS: i64 = -9;

    pub const NO_ROOM: i64 = -10;

    pub const NOT_SOUND: i64 = -11;

    pub const WRONG_MEMORY: i64 = -12;

    pub const NOTHING_PUT: i64 = -13;

    pub const WRONG_SESSION: i64 = -14;

    pub const TOO_SOON: i64 = -15;
}

// -1 in so many words: the first at `from`, and each `step` behind the one before.
#[tactic(auto, unfolding(crate::specs::Fresh::with_none))]
fn none_at(w: &mut [u32; State::WORDS], from: usize, step: usize, count: usize)
    requires step_some { 1 ≤ step }
    requires inside { from + step * count ≤ word_count }
    ensures { w.new ≡ with_none w.old from step count }
{
    for i in 0..count {
        w[from + step * i] = State::NONE;
    }
}

impl State {
    // The fresh kernel: the main task runs, with its priority and its deadline.
    pub fn fresh() -> State
        ensures { result ≡ fresh_state }
    {
        let mut w = [0u32; State::WORDS];
        none_at(&mut w, State::HEADS_AT, 1, State::QUEUES);
        none_at(
            &mut w,
            State::TASKS_AT + Task::NEXT,
            Task::WORDS,
            State::TASKS,
        );
        none_at(
            &mut w,
            State::TASKS_AT + Task::PREVIOUS,
            Task::WORDS,
            State::TASKS,
        );
        w[State::TASKS_AT + Task::AMOUNT] = State::MAIN_PRIORITY;
        w[State::TASKS_AT + Task::STATUS] = Task::EXE;
        w[State::TASKS_AT + Task::DEADLINE] = State::NRT_DEADLINE + State::MAIN_PRIORITY;
        State { words: w }
    }
}

// The document's numbers of the statuses.
impl Status {
    pub const FREE: usize = 0;

    pub const READY: usize = 1;

    pub const EXE: usize = 2;

    pub const SLEEP: usize = 3;

    pub const IDLE: usize = 4;

    pub const WAIT: usize = 5;

    pub const ZOMBIE: usize = 6;
}

// The number of a status.
pub fn status_number(status: Status) -> usize
    ensures { result ≡ status_number status }
{
    match status {
        Status::Free => Status::FREE,
        Status::Ready => Status::READY,
        Status::Exe => Status::EXE,
        Status::Sleep => Status::SLEEP,
        Status::Idle => Status::IDLE,
        Status::Wait(_) => Status::WAIT,
        Status::Zombie => Status::ZOMBIE,
    }
}

// Whether period and cost are inside their sizes.
pub fn fitting(period: u64, cost: u64) -> bool
    ensures { result ≡ fitting period cost }
{
    if period < 1 {
        return false;
    }
    if period > State::LONGEST_PERIOD as u64 {
        return false;
    }
    if cost < 1 {
        return false;
    }
    cost <= period
}

// The period of a HARD class, 0 for NRT.
pub fn period_of(class: Class) -> u32
    ensures { result ≡ period_of class }
{
    match class {
        Class::Nrt { priority: _ } => 0,
        Class::Hard { period, cost: _ } => period,
    }
}

// 0 where the kernel is not stopped, 1 where it is stopped with -1, 2 with -2.
impl Stop {
    pub const GOING: usize = 0;

    pub const OVERRUN: usize = 1;

    pub const LIFETIME: usize = 2;
}

// The number of a stop.
pub fn stop_number(stop: Stop) -> usize
    ensures { result ≡ stop_number stop }
{
    match stop {
        Stop::Going => Stop::GOING,
        Stop::Overrun => Stop::OVERRUN,
        Stop::Lifetime => Stop::LIFETIME,
    }
}

// The numbers of the queues; those of the semaphores start at WAITERS.
impl State {
    pub const READY_QUEUE: usize = 0;

    pub const IDLE_QUEUE: usize = 1;

    pub const ZOMBIE_QUEUE: usize = 2;

    pub const WAITERS: usize = 3;
}

// The queue of a semaphore, QUEUES where there is no semaphore of that number.
fn waiters(semaphore: SemaphoreNo) -> usize
    ensures { result ≡ waiting semaphore.0 }
{
    let s = semaphore.0;
    if s < State::SEMAPHORES {
        return State::WAITERS + s;
    }
    State::QUEUES
}

// The queue in which a task of that status stands, QUEUES where it stands in none.
pub fn queue_of(status: Status) -> usize
    ensures { result ≡ queue_of status }
{
    match status {
        Status::Free => State::QUEUES,
        Status::Sleep => State::QUEUES,
        Status::Exe => State::QUEUES,
        Status::Ready => State::READY_QUEUE,
        Status::Idle => State::IDLE_QUEUE,
        Status::Zombie => State::ZOMBIE_QUEUE,
        Status::Wait(semaphore) => waiters(semaphore),
    }
}
