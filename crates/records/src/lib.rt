// The records of the bench program's input: one read from its bytes.
//
// Every row of bytes and every offset in it gets an answer.
#![tactic(auto)]

ghost use Rattle.std.specs.Prelude.{◌≡◌, ◌≤◌, Some, replicate};
ghost use Rattle.records.specs.Records.{plain, values_at, command_at, fill_at, record_at};

use leb128::read_at;

// What a record asks for.
#[derive(Clone, Copy, PartialEq, Eq)]
pub enum Record {
    // A command, with the registers that it is written to.
    Command { registers: [u8; 16] },
    // The host fills a range of the window.
    Fill { offset: u32, count: u32, value: u8 },
    Suspend,
    Resume,
    ResumeChanged,
}

// A record that was read, and the offset past it.
#[derive(Clone, Copy, PartialEq, Eq)]
pub struct Item {
    pub body: Record,
    pub next: usize,
}

// The record whose first byte stands at offset at; none where it breaks a rule.
#[tactic(auto, unfolding(crate::specs::Records::record_at))]
pub fn read_record(bytes: &[u8], at: usize) -> Option<Item>
    ensures { result ≡ record_at bytes.now at }
{
    let kind = read_at(bytes, at).ok()?;
    let next = kind.next;
    match kind.value {
        0 => command_at(bytes, next),
        1 => fill_at(bytes, next),
        2 => Some(plain_record(Record::Suspend, next)),
        3 => Some(plain_record(Record::Resume, next)),
        4 => Some(plain_record(Record::ResumeChanged, next)),
        _ => None,
    }
}

// A record without numbers.
fn plain_record(body: Record, next: usize) -> Item
    ensures { Some result ≡ plain body next }
{
    Item { body, next }
}

// The rest of a command: the count of its values, and they.
#[tactic(auto, unfolding(crate::specs::Records::up_to))]
fn command_at(bytes: &[u8], at: usize) -> Option<Item>
    ensures { result ≡ command_at bytes.now at }
{
    let count = read_at(bytes, at).ok()?;
    if 13 < count.value {
        return None;
    }
    values_at(bytes, count.value as usize, count.next)
}

// So many values, for registers 0 onward.
#[tactic(auto, unfolding(crate::specs::Records::up_to))]
fn values_at(bytes: &[u8], count: usize, start: usize) -> Option<Item>
    requires { count ≤ 13 }
    ensures { result ≡ values_at bytes.now count 0 (replicate 16 0) start }
{
    let mut registers = [0u8; 16];
    let mut next = start;
    for i in 0..count {
        let register = read_at(bytes, next).ok()?;
        registers[i] = u8::try_from(register.value).ok()?;
        next = register.next;
    }
    Some(Item {
        body: Record::Command { registers },
        next,
    })
}

// The rest of a fill: offset, count and value.
#[tactic(auto, unfolding(crate::specs::Records::up_to))]
fn fill_at(bytes: &[u8], at: usize) -> Option<Item>
    ensures { result ≡ fill_at bytes.now at }
{
    let offset = read_at(bytes, at).ok()?;
    let count = read_at(bytes, offset.next).ok()?;
    let value = read_at(bytes, count.next).ok()?;
    Some(Item {
        body: Record::Fill {
            offset: offset.value,
            count: count.value,
            value: u8::try_from(value.value).ok()?,
        },
        next: value.next,
    })
}
