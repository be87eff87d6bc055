// Numbers in seven-bit groups, low group first: unsigned LEB128 in its shortest form.
//
// A row of such numbers is the bench program's input, and later the form of tables and recordings.
// Every buffer, offset and number gets an answer, and a refused write changes nothing. So bytes and offset stay two parameters: a struct
// of them would hold no offset less.
#![tactic(auto)]

ghost use Rattle.std.specs.Prelude.{◌≡◌, ◌≤◌, ◌<◌, length, drop, IfSome, IfNone};
ghost use Rattle.std.specs.List.{All};
ghost use Rattle.leb128.specs.Groups.{read_at, written_at, bytes_after};
ghost use Rattle.leb128.specs.Run.{Run};

// A number that was read, and the offset past its last byte.
#[derive(Clone, Copy, PartialEq, Eq)]
pub struct Number {
    pub value: u32,
    pub next: usize,
}

// Why there is no number at an offset.
#[derive(Clone, Copy, PartialEq, Eq)]
pub enum ReadError {
    // The bytes end before the number does.
    Short,
    // Not the shortest form, or a value of 2^32 or more.
    Malformed,
}

// The number whose bytes begin at offset at.
#[tactic(auto, using(crate::proofs::Decode::read_short))]
pub fn read_at(bytes: &[u8], at: usize) -> Result<Number, ReadError>
    ensures { result ≡ read_at bytes.now at }
{
    let last = last_group(bytes, at).ok_or(ReadError::Short)?;
    read_groups(bytes, at, last)
}

// The offset of the first byte from at on whose top bit is clear.
fn last_group(bytes: &[u8], at: usize) -> Option<usize>
    ensures ends { IfSome result (λ last. (last < length bytes.now) × Run bytes.now at last) }
    ensures goes_on { IfNone result (All (λ b. 128 ≤ b) (drop at bytes.now)) }
{
    let passed = bytes.get(at..)?.iter().position(|b| *b < 128)?;
    Some(at + passed)
}

// The number whose groups stand from offset at to offset last. It is put together from the high
// group down, and given up as soon as it is known to be refused.
#[tactic(auto, using(crate::proofs::Decode::read_refused))]
fn read_groups(bytes: &[u8], at: usize, last: usize) -> Result<Number, ReadError>
    requires last_in_bounds { last < length bytes.now }
    requires run { Run bytes.now at last }
    ensures { result ≡ read_at bytes.now at }
{
    let mut value = u32::from(bytes[last]);
    for i in (at..last).rev() {
        if value == 0 || 0x1ff_ffff < value {
            return Err(ReadError::Malformed);
        }
        value = value * 128 + u32::from(bytes[i] % 128);
    }
    Ok(Number {
        value,
        next: last + 1,
    })
}

// Writes the number's bytes from offset at on, and answers the offset past them. The groups behind
// come first, so that nothing is written where they do not fit.
#[tactic(auto, using(crate::proofs::Encode::written_none, crate::proofs::Encode::written_small, crate::proofs::Encode::bytes_small))]
pub fn write_at(bytes: &mut [u8], at: usize, value: u32) -> Option<usize>
    ensures answer { result ≡ written_at value at bytes.old }
    ensures bytes { bytes.new ≡ bytes_after value at bytes.old }
{
    if bytes.len() <= at {
        return None;
    }
    if value < 128 {
        bytes[at] = value as u8;
        return Some(at + 1);
    }
    let next = write_at(bytes, at + 1, value / 128)?;
    bytes[at] = (value % 128) as u8 + 128;
    Some(next)
}
