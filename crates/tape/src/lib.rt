// A block of the black tape: records are put in their places, the block is closed with its number, count and check; and a block is read, or refused by name.
#![tactic(auto)]

ghost use Rattle.std.specs.Prelude.{◌≡◌, ◌+◌, ◌-◌, ◌≤◌, length, get_or, take, drop};
ghost use Rattle.big_endian.specs.BigEndian.{part};
ghost use Rattle.kernel.specs.Channels.{over};
ghost use Rattle.tape.specs.Block as Block;
ghost use Rattle.tape.specs.Block.{check_at, first_at, record_at, record_size, has_place, record_bytes};
ghost use Rattle.tape.specs.Reader as Reader;
ghost use Rattle.tape.specs.Reader.{record_of, records_of, arities, every};
ghost use Rattle.tape.specs.Writing.{placed, may_close, closed};

pub const BLOCK: usize = 512;

const COUNT_AT: usize = 4;

const FIRST_AT: usize = 6;

const RECORD: usize = 16;

pub const MOST_RECORDS: usize = 31;

const CHECK_AT: usize = 510;

// A call on the tape: its verb's number, two arguments, its answer, and who runs and the clock's remainder behind it.
#[derive(Clone, Copy, Default)]
pub struct Record {
    pub verb: u8,
    pub first: u32,
    pub second: u32,
    pub answer: i64,
    pub running: u8,
    pub clock: u16,
}

// Why a block is refused.
#[derive(Clone, Copy, Debug, PartialEq, Eq)]
pub enum Fault {
    Short,
    Check,
    Count,
    Verb,
    Spare,
}

// A block that is accepted: its number, and how many records it has.
#[derive(Clone, Copy)]
pub struct Accepted {
    pub number: u32,
    pub count: usize,
}

// ---- numbers

// In 4 bytes of two's complement.
fn complement(n: i64) -> u32
    ensures { result ≡ Block.complement n }
{
    if n < 0 {
        let below = -1 - n;
        u32::MAX - (below as u64 % 4294967296) as u32
    } else {
        (n as u64 % 4294967296) as u32
    }
}

fn signed(v: u32) -> i64
    ensures { result ≡ Reader.signed v }
{
    if v < 2147483648 {
        v as i64
    } else {
        v as i64 - 4294967296
    }
}

// The check of bytes 0 to 509.
fn check(block: &[u8]) -> u32
    requires { check_at ≤ length block.now }
    ensures { result ≡ Block.check (take check_at block.now) }
{
    let bytes = &block[..CHECK_AT];
    let mut sum: u32 = 0;
    for (i, b) in bytes.iter().enumerate() {
        sum += (i as u32 + 1) * *b as u32;
    }
    sum % 65521
}

// ---- writing

fn write(block: &mut [u8], at: usize, r: Record)
    requires { at + record_size ≤ length block.old }
    ensures { block.new ≡ over block.old at (record_bytes r) }
{
    big_endian::write(block, at, 1, r.verb as u32);
    big_endian::write(block, at + 1, 4, r.first);
    big_endian::write(block, at + 5, 4, r.second);
    big_endian::write(block, at + 9, 4, complement(r.answer));
    big_endian::write(block, at + 13, 1, r.running as u32);
    big_endian::write(block, at + 14, 2, r.clock as u32);
}

// Record i is put in its place, and whether it has one.
pub fn put(block: &mut [u8], i: usize, r: Record) -> bool
    ensures value { result ≡ has_place block.old i }
    ensures block_after { block.new ≡ placed block.old i r }
{
    if block.len() < BLOCK || i >= MOST_RECORDS {
        return false;
    }
    write(block, FIRST_AT + RECORD * i, r);
    true
}

// The block is closed with the records that were put: it has this number and so many of them.
#[tactic(auto, unfolding(crate::specs::Writing::closed))]
pub fn close(block: &mut [u8], number: u32, count: usize) -> bool
    ensures value { result ≡ may_close block.old count }
    ensures block_after { block.new ≡ closed block.old number count }
{
    if block.len() < BLOCK || count < 1 || count > MOST_RECORDS {
        return false;
    }
    big_endian::write(block, 0, 4, number);
    big_endian::write(block, COUNT_AT, 2, count as u32);
    let used = FIRST_AT + RECORD * count;
    memory::clear(block, used, CHECK_AT - used);
    let sum = check(block);
    big_endian::write(block, CHECK_AT, 2, sum);
    true
}

// ---- reading

// The record at a place.
fn record_at(block: &[u8], at: usize) -> Record
    requires { at + record_size ≤ length block.now }
    ensures { result ≡ record_of (drop at block.now) }
{
    Record {
        verb: block[at],
        first: big_endian::value(block, at + 1, 4),
        second: big_endian::value(block, at + 5, 4),
        answer: signed(big_endian::value(block, at + 9, 4)),
        running: block[at + 13],
        clock: big_endian::value(block, at + 14, 2) as u16,
    }
}

// Record i of a block; where it has no place, one of zeros.
pub fn nth(block: &[u8], i: usize) -> Record
    ensures { result ≡ Reader.nth block.now i }
{
    if block.len() < BLOCK || i >= MOST_RECORDS {
        return Record::default();
    }
    record_at(block, FIRST_AT + RECORD * i)
}

fn known(r: Record) -> bool
    ensures { result ≡ Reader.known r }
{
    (1..=12).contains(&r.verb)
}

// How many arguments a verb has.
const ARITIES: [u8; 12] = [0, 2, 1, 1, 0, 0, 0, 1, 1, 1, 1, 1];

fn arity(verb: u8) -> u8
    ensures { result ≡ get_or arities (verb - 1) 0 }
{
    let place = usize::from(verb.saturating_sub(1));
    ARITIES.get(place).copied().unwrap_or(0)
}

fn spare(r: Record) -> bool
    ensures { result ≡ Reader.spare r }
{
    let n = arity(r.verb);
    (n >= 1 || r.first == 0) && (n >= 2 || r.second == 0)
}

fn all_known(block: &[u8], count: usize) -> bool
    requires { record_at count ≤ length block.now }
    ensures { result ≡ every Reader.known (records_of count (drop first_at block.now)) }
{
    (0..count).all(|i| known(record_at(block, FIRST_AT + RECORD * i)))
}

fn all_spare(block: &[u8], count: usize) -> bool
    requires { record_at count ≤ length block.now }
    ensures { result ≡ every Reader.spare (records_of count (drop first_at block.now)) }
{
    (0..count).all(|i| spare(record_at(block, FIRST_AT + RECORD * i)))
}

#[tactic(auto, unfolding(crate::specs::Reader::zeros))]
fn zeros(bytes: &[u8]) -> bool
    ensures { result ≡ Reader.zeros bytes.now }
{
    bytes.iter().all(|b| *b == 0)
}

// Reads a block, the first 512 of these bytes, or refuses it by the first test that fails.
#[tactic(auto, unfolding(crate::specs::Reader::reading))]
pub fn read(block: &[u8]) -> Result<Accepted, Fault>
    ensures { result ≡ Reader.reading block.now }
{
    if block.len() < BLOCK {
        return Err(Fault::Short);
    }
    if big_endian::value(block, CHECK_AT, 2) != check(block) {
        return Err(Fault::Check);
    }
    let count = big_endian::value(block, COUNT_AT, 2) as usize;
    if count < 1 || count > MOST_RECORDS {
        return Err(Fault::Count);
    }
    if !all_known(block, count) {
        return Err(Fault::Verb);
    }
    if !all_spare(block, count) {
        return Err(Fault::Spare);
    }
    let used = FIRST_AT + RECORD * count;
    if !zeros(&block[used..CHECK_AT]) {
        return Err(Fault::Spare);
    }
    Ok(Accepted {
        number: big_endian::value(block, 0, 4),
        count,
    })
}
