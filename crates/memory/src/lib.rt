// The bytes of the message memory: where a buffer starts, what is written, cleared and shown. There is no state in sight.
#![tactic(auto)]

ghost use Rattle.std.specs.Prelude.{◌≡◌, ◌+◌, ◌≤◌, ◌<◌, length, replicate};
ghost use Rattle.kernel.specs.Sizes.{channel_count, most_buffers};
ghost use Rattle.kernel.specs.Channels as Channels;
ghost use Rattle.kernel.specs.Channels.{over};
ghost use Rattle.kernel.specs.Slices.{slice, part_of};

use kernel::State;

// Where buffer b of channel c starts.
pub fn buffer_start(c: usize, b: usize) -> usize
    requires is_channel { c < channel_count }
    requires is_buffer { b < most_buffers }
    ensures { result ≡ Channels.buffer_start c b }
{
    State::LONGEST_MESSAGE * (State::MOST_BUFFERS * c + b)
}

// These bytes from a on.
pub fn write(memory: &mut [u8], a: usize, bytes: &[u8])
    requires { a + length bytes.now ≤ length memory.old }
    ensures { memory.new ≡ over memory.old a bytes.now }
{
    let end = a + bytes.len();
    memory[a..end].copy_from_slice(bytes);
}

// n bytes from a on become 0.
pub fn clear(memory: &mut [u8], a: usize, n: usize)
    requires { a + n ≤ length memory.old }
    ensures { memory.new ≡ over memory.old a (replicate n 0) }
{
    let end = a + n;
    memory[a..end].fill(0);
}

// So many bytes from a on, uncopied.
pub fn part<'a>(memory: &'a [u8], a: usize, size: usize) -> &'a [u8]
    requires { a + size ≤ length memory.now }
    ensures { slice result ≡ part_of (slice memory.entry) a size }
{
    let end = a + size;
    &memory[a..end]
}
