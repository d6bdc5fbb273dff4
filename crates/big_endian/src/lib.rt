// Numbers as bytes, the most significant first, in any width up to four bytes.
#![tactic(auto)]

ghost use Rattle.std.specs.Prelude.{◌≡◌, ◌+◌, ◌≤◌, length};
ghost use Rattle.kernel.specs.Channels.{over};
ghost use Rattle.big_endian.specs.BigEndian as BigEndian;
ghost use Rattle.big_endian.specs.BigEndian.{part};

// The number that n bytes from `at` on say.
pub fn value(bytes: &[u8], at: usize, n: usize) -> u32
    requires inside { at + n ≤ length bytes.now }
    requires few { n ≤ 4 }
    ensures { result ≡ BigEndian.value (part at n bytes.now) }
{
    let mut v: u32 = 0;
    for i in 0..n {
        v = v * 256 + bytes[at + i] as u32;
    }
    v
}

// The number v, in n bytes from `at` on.
pub fn write(bytes: &mut [u8], at: usize, n: usize, v: u32)
    requires { at + n ≤ length bytes.old }
    ensures { bytes.new ≡ over bytes.old at (BigEndian.bytes n v) }
{
    let mut rest = v;
    for i in (0..n).rev() {
        bytes[at + i] = (rest % 256) as u8;
        rest /= 256;
    }
}
