// A record as a session, and a session as a record.
ghost use Rattle.std.specs.Prelude.{◌≡◌};
ghost use Rattle.board.specs.Record.{window_number, window_of, is_regular, session_of, record_of};

use crate::Record;
use session::{Counts, Session, Window};

// The largest number of a window, and of yes or no.
const LAST_WINDOW: u8 = 2;

const YES: u8 = 1;

// Each number of the record stands for something.
pub(crate) fn is_regular(held: Record) -> bool
    ensures { result ≡ is_regular held }
{
    held.numbered <= YES && held.suspended <= YES && held.window <= LAST_WINDOW
}

// The session that a record stands for.
impl From<Record> for Session {
    ghost from_gives = { λ held session. session ≡ session_of held };

    fn from(held: Record) -> Session {
        // through a variable: straight, the copy of an array out of C's record gets no proof
        let marks = held.marks;
        Session {
            version: held.version,
            previous: (held.numbered != 0).then_some(held.previous),
            events: held.events,
            suspended: held.suspended != 0,
            window: window_of(held.window),
            first: held.first,
            size: held.size,
            counts: Counts {
                dirty: held.dirty,
                erased: held.erased,
            },
            marks,
        }
    }
}

// The record of a session, with the byte that it has where there is no previous number.
pub(crate) fn record_of(session: Session, spare: u8) -> Record
    ensures { result ≡ record_of spare session }
{
    Record {
        version: session.version,
        numbered: u8::from(session.previous.is_some()),
        previous: session.previous.unwrap_or(spare),
        events: session.events,
        suspended: u8::from(session.suspended),
        window: window_number(session.window),
        first: session.first,
        size: session.size,
        dirty: session.counts.dirty,
        erased: session.counts.erased,
        marks: session.marks,
    }
}

// The window of a number. It and the next are no From: u8 and Window are other crates' types, and the numbers are C's
// (include/hiomap.h).
fn window_of(number: u8) -> Window
    ensures { result ≡ window_of number }
{
    match number {
        1 => Window::Read,
        2 => Window::Write,
        _ => Window::Closed,
    }
}

// The number of a window.
fn window_number(window: Window) -> u8
    ensures { result ≡ window_number window }
{
    match window {
        Window::Closed => 0,
        Window::Read => 1,
        Window::Write => 2,
    }
}
