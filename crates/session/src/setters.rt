// The session with some of its fields changed. A new field of the session is named in `new_session`, in the setters of
// specs/Record and in C's record (crate board).
ghost use Rattle.std.specs.Prelude.{◌≡◌};
ghost use Rattle.session.specs.Record.{with_version, with_previous, with_access, with_counted, with_marks, with_window, drop_window, clean};

use crate::marks::{CLEAN, ZERO_COUNTS};
use crate::{Counts, Session, Window};

// Another agreed version.
pub fn with_version(session: Session, version: u8) -> Session
    ensures { result ≡ with_version version session }
{
    Session { version, ..session }
}

// Another previous sequence number.
pub fn with_previous(session: Session, previous: Option<u8>) -> Session
    ensures { result ≡ with_previous previous session }
{
    Session {
        previous,
        ..session
    }
}

// Another suspension and event byte.
pub fn with_access(session: Session, suspended: bool, events: u8) -> Session
    ensures { result ≡ with_access suspended events session }
{
    Session {
        suspended,
        events,
        ..session
    }
}

// Other marks, and the numbers kept of them.
pub fn with_counted(session: Session, marks: [u8; 64], counts: Counts) -> Session
    ensures { result ≡ with_counted marks counts session }
{
    Session {
        counts,
        marks,
        ..session
    }
}

// Nothing marked.
pub fn without_marks(session: Session) -> Session
    ensures { result ≡ with_marks clean session }
{
    with_counted(session, [CLEAN; 64], ZERO_COUNTS)
}

// Another window, with nothing marked.
pub fn with_window(session: Session, window: Window, first: u16, size: u16) -> Session
    ensures { result ≡ with_window window first size session }
{
    Session {
        window,
        first,
        size,
        counts: ZERO_COUNTS,
        marks: [CLEAN; 64],
        ..session
    }
}

// No window.
pub fn without_window(session: Session) -> Session
    ensures { result ≡ drop_window session }
{
    with_window(session, Window::Closed, 0, 0)
}
