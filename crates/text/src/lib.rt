// Texts and numbers, put into a buffer behind what is there: each function takes how long the text in it is, and gives how long it is then.
#![tactic(auto)]

ghost use Rattle.std.specs.Prelude.{◌≡◌, ◌+◌, ◌≤◌, length};
ghost use Rattle.kernel.specs.Answer.{said};
ghost use Rattle.text.specs.Text as Text;
ghost use Rattle.text.specs.Text.{Continued, longest_number, longest_printed};

use kernel::Answer;

// No number is longer: 2^64 - 1 and -2^63 have 20 characters.
pub const LONGEST_NUMBER: usize = 20;

// No printed line is longer: three numbers, with a byte behind each.
pub const LONGEST_PRINTED: usize = 64;

pub fn put(buffer: &mut [u8], at: usize, text: &[u8]) -> usize
    requires { at + length text.now ≤ length buffer.old }
    ensures { Continued buffer.old at text.now buffer.new result }
{
    memory::write(buffer, at, text);
    at + text.len()
}

pub fn decimal(buffer: &mut [u8], at: usize, n: u64) -> usize
    requires { at + length (Text.decimal n) ≤ length buffer.old }
    ensures { Continued buffer.old at (Text.decimal n) buffer.new result }
{
    let mut digits = [0u8; LONGEST_NUMBER];
    let k = io::decimal(n, &mut digits);
    put(buffer, at, &digits[..k])
}

pub fn number(buffer: &mut [u8], at: usize, n: i64) -> usize
    requires { at + longest_number ≤ length buffer.old }
    ensures { Continued buffer.old at (Text.number n) buffer.new result }
{
    if n < 0 {
        let next = put(buffer, at, b"-");
        let below = -1 - n;
        decimal(buffer, next, below as u64 + 1)
    } else {
        decimal(buffer, at, n as u64)
    }
}

// The number of an answer, a refusal or not.
pub fn number_of(answer: Answer) -> i64
    ensures { result ≡ (said answer).number }
{
    match answer {
        Ok(n) => n,
        Err(refusal) => refusal.number(),
    }
}

// What a call prints: answer, running task, clock.
pub fn printed(buffer: &mut [u8], at: usize, answer: Answer, running: usize, clock: u32) -> usize
    requires { at + longest_printed ≤ length buffer.old }
    ensures continued { Continued buffer.old at (Text.printed (said answer).number running clock) buffer.new result }
    ensures upper_bound { result ≤ at + longest_printed }
{
    let a = number(buffer, at, number_of(answer));
    let b = put(buffer, a, b" ");
    let c = decimal(buffer, b, running as u64);
    let d = put(buffer, c, b" ");
    let e = decimal(buffer, d, clock as u64);
    put(buffer, e, b"\n")
}
