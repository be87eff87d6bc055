// The 16 registers of the mailbox: the numbers that a command has as arguments, and the registers of an answer.
//
// Every content of the registers gets an answer.
#![tactic(auto)]

mod reading;

ghost use Rattle.std.specs.Prelude.{◌≡◌};
ghost use Rattle.registers.specs.Registers.{reply};

pub use reading::{Words, read_length, read_words};

// No argument.
pub const NO_ARGUMENTS: [u8; 11] = [0; 11];

// The registers after a command, from those received.
pub fn replied(registers: [u8; 16], code: u8, arguments: [u8; 11], events: u8) -> [u8; 16]
    ensures { result ≡ reply registers code arguments events }
{
    let [command, sequence, .., status, _] = registers;
    let [a0, a1, a2, a3, a4, a5, a6, a7, a8, a9, a10] = arguments;
    // No copy_from_slice of the arguments: it tests for an overlap, and takes 25 instructions where this takes 9 (objdump).
    [
        command, sequence, a0, a1, a2, a3, a4, a5, a6, a7, a8, a9, a10, code, status, events,
    ]
}
