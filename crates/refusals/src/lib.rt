// Whether a mailbox command is refused, for which reason and with which code, and the blocks and flags that it names.
//
// No check asks which command it is: a command says what it needs. Every content of the registers and every
// session record gets an answer.
#![tactic(auto)]

mod blocks;
mod checks;
mod codes;
mod flags;

// A session and registers stay two parameters: these functions answer of any session, and mailbox's `Call` is of a sound one.
pub use blocks::{blocks_named, flush_marks, flush_outside};
pub use checks::check;
pub use codes::{Code, code_for};
pub use flags::undefined_flags;

// The check of the table that refuses a command.
#[derive(Clone, Copy)]
pub enum Reason {
    System,
    Repeated,
    Unknown,
    Suspended,
    Windowless,
    Argument,
}

// What a command needs, each more than the one before: nothing, a sequence number that is not the previous one,
// access to the flash, an active write window.
#[derive(Clone, Copy, PartialEq, Eq, PartialOrd, Ord)]
pub enum Needs {
    Nothing,
    NewNumber,
    Access,
    WriteWindow,
}

// Blocks by the window's own count: which is the first, and how many.
#[derive(Clone, Copy)]
pub struct BlockRange {
    pub start: u32,
    pub count: u32,
}
