// The board's boundary: the record that C keeps for a session, and the functions that C calls (crate board_c exports them).
//
// Every record, every content of the registers and every buffer length gets an answer. References that C
// lends must be valid and must not overlap: include/hiomap.h.
#![tactic(auto)]

mod access;
mod convert;
mod lists;
mod pending;
mod serving;

ghost use Rattle.std.specs.Prelude.{◌≡◌};
ghost use Rattle.board.specs.Record.{record_of};
ghost use Rattle.session.specs.Record.{fresh};

pub use access::{hiomap_resume, hiomap_resume_changed, hiomap_step, hiomap_suspend};
use convert::record_of;
pub use lists::hiomap_mark_list;
pub use pending::hiomap_pending;
pub use serving::{Served, hiomap_command, serve};
use session::new_session;

// The types below are C's (include/hiomap.h): there a number stands for a kind, and a flag has the value beside it.

// A session as C keeps it.
#[repr(C)]
#[derive(Clone, Copy)]
pub struct Record {
    pub version: u8,
    // Whether there is a previous sequence number, 0 no and 1 yes, and that number.
    pub numbered: u8,
    pub previous: u8,
    pub events: u8,
    // 0 no, 1 yes.
    pub suspended: u8,
    // 0 none, 1 read, 2 write.
    pub window: u8,
    pub first: u16,
    pub size: u16,
    // How many of the marks are dirty, and how many erased.
    pub dirty: u8,
    pub erased: u8,
    pub marks: [u8; 64],
}

// The answer yes or no, and the record afterwards.
#[repr(C)]
#[derive(Clone, Copy)]
pub struct Suspended {
    pub done: bool,
    pub held: Record,
}

// What a step answers: its code, and whether it did an action.
#[repr(C)]
#[derive(Clone, Copy)]
pub struct Stepped {
    pub code: u8,
    pub acted: bool,
}

// What a list of marks answers: its code, and whether it names a pair, by its place from 0.
#[repr(C)]
#[derive(Clone, Copy)]
pub struct ListReply {
    pub code: u8,
    pub named: bool,
    pub place: u8,
}

// How much is pending: whether a kept number disagrees with the marks, and else the number of marked blocks, and
// of the chip actions that their flush takes if no block is worn.
#[repr(C)]
#[derive(Clone, Copy)]
pub struct Work {
    pub unsound: bool,
    pub blocks: u32,
    pub actions: u32,
}

// A fresh session.
pub fn hiomap_fresh() -> Record
    ensures { result ≡ record_of 0 fresh }
{
    record_of(new_session(), 0)
}
