// Bytes, numbers and lines put behind what is printed.
ghost use Rattle.std.specs.Prelude.{◌≡◌, ◌+◌, ◌≤◌, ◌<◌, length};
ghost use Rattle.transcript.specs.Printing.{decimal, bad_line, answer_text, count_text, flash_line};
ghost use Rattle.transcript.specs.Puts.{Puts};

use crate::text::{count_written, register_line};
use units::{BLOCK, Blocks};

// What is printed: a text at the front of a buffer, as far as there is room, and its length. The bound on the length falls with
// each put, so it is no invariant. No `write!` into it: each byte is in `run`'s contract.
#[derive(Drop)]
pub(crate) struct Printed<'a> {
    pub(crate) text: &'a mut [u8],
    pub(crate) end: usize,
}

impl<'a> Printed<'a> {
    // Nothing yet.
    pub(crate) fn new(text: &'a mut [u8]) -> Printed<'a>
        ensures same_buffer { result.text.ghost_name ≡ text.entry.ghost_name }
        ensures nothing { result.end ≡ 0 }
        ensures text { result.text.now ≡ text.old }
    {
        Printed { text, end: 0 }
    }

    // Puts bytes, each where there is room.
    pub(crate) fn put(&mut self, part: &[u8])
        requires end { self.old.end ≤ 1000000 }
        requires short { length part.now ≤ 64 }
        ensures { Puts self.old part.now self.new }
    {
        let at = self.end;
        for (i, byte) in part.iter().enumerate() {
            if at + i < self.text.len() {
                self.text[at + i] = *byte;
            }
        }
        self.end = at + part.len();
    }

    // Puts a number in decimal, by the kit's digits: each byte is in `run`'s contract.
    fn put_decimal(&mut self, n: usize)
        requires { self.old.end ≤ 1000000 }
        ensures puts { Puts self.old (decimal n) self.new }
        ensures bound { self.new.end ≤ self.old.end + 20 }
    {
        let mut digits = [0u8; 20];
        let count = io::decimal(n as u64, &mut digits);
        self.put(&digits[..count]);
    }

    // Puts the line of a record that breaks a rule.
    pub(crate) fn put_bad(&mut self, offset: usize)
        requires { self.old.end ≤ 900000 }
        ensures puts { Puts self.old (bad_line offset) self.new }
        ensures bound { self.new.end ≤ self.old.end + 34 }
    {
        self.put(b"bad input at ");
        self.put_decimal(offset);
        self.put(b"\n");
    }

    // Puts what a record prints: the registers after a command.
    #[tactic(auto, using(crate::proofs::Written::puts_none))]
    pub(crate) fn put_answer(&mut self, answer: Option<[u8; 16]>)
        requires { self.old.end ≤ 1000000 }
        ensures puts { Puts self.old (answer_text answer) self.new }
        ensures bound { self.new.end ≤ self.old.end + 48 }
    {
        if let Some(registers) = answer {
            self.put(&register_line(registers));
        }
    }

    // Puts the count of one block, after a space.
    fn put_count(&mut self, flash: &[u8], block: Blocks)
        requires end { self.old.end ≤ 900000 }
        requires block { block.0 < 4 }
        requires flash { length flash.now ≡ 16384 }
        ensures puts { Puts self.old (count_text block.0 flash.now) self.new }
        ensures bound { self.new.end ≤ self.old.end + 21 }
    {
        let start = block.bytes().0 as usize;
        let end = start + BLOCK as usize;
        self.put(b" ");
        self.put_decimal(count_written(&flash[start..end]));
    }

    // Puts the flash line of the bench's four blocks.
    pub(crate) fn put_flash(&mut self, flash: &[u8])
        requires end { self.old.end ≤ 800000 }
        requires flash { length flash.now ≡ 16384 }
        ensures puts { Puts self.old (flash_line 4 flash.now) self.new }
        ensures bound { self.new.end ≤ self.old.end + 90 }
    {
        self.put(b"flash");
        for block in 0..4 {
            self.put_count(flash, Blocks(block));
        }
        self.put(b"\n");
    }
}
