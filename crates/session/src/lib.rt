// The session record: what a fresh one holds, its setters, its marks and its event byte, and suspend and resume.
//
// Every record value can be made and gets an answer, also those that no command leaves. What the board sets up
// stands here too, since it is looked at together with the session.
#![tactic(auto)]

mod events;
mod marks;
mod setters;
mod suspension;

ghost use Rattle.std.specs.Prelude.{◌≡◌};
ghost use Rattle.session.specs.Record.{fresh};

pub use events::{acknowledge_events, is_control_lost};
use marks::CLEAN;
pub use marks::{
    DIRTY, ERASED, ZERO_COUNTS, mark_erases, mark_programs, none_marked, of_kind, same_counts,
};
pub use setters::{
    with_access, with_counted, with_previous, with_version, with_window, without_marks,
    without_window,
};
pub use suspension::{resume, resume_changed, suspend};

// The window: none, read or write.
#[derive(Clone, Copy, PartialEq, Eq)]
pub enum Window {
    Closed,
    Read,
    Write,
}

// What a board fixes: the window's first LPC block, and the suggested timeout in seconds.
#[derive(Clone, Copy)]
pub struct Board {
    pub lpc: u16,
    pub timeout: u16,
}

// How many blocks have each kind of mark.
#[derive(Clone, Copy, PartialEq, Eq)]
pub struct Counts {
    pub dirty: u8,
    pub erased: u8,
}

// A session.
#[derive(Clone, Copy)]
pub struct Session {
    pub version: u8,
    // The previous sequence number, if any.
    pub previous: Option<u8>,
    pub events: u8,
    pub suspended: bool,
    pub window: Window,
    // `Closed` has these two as well: C's record may hold any in them, and `window_sound` answers of each.
    pub first: u16,
    pub size: u16,
    pub counts: Counts,
    pub marks: [u8; 64],
}

// A fresh session.
pub fn new_session() -> Session
    ensures { result ≡ fresh }
{
    Session {
        version: 0,
        previous: None,
        events: 0x81,
        suspended: false,
        window: Window::Closed,
        first: 0,
        size: 0,
        counts: ZERO_COUNTS,
        marks: [CLEAN; 64],
    }
}
