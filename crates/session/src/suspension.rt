// Suspend and resume: on any session, sound or not.
ghost use Rattle.std.specs.Prelude.{◌≡◌};
ghost use Rattle.session.specs.Suspension.{left, suspended, resumed, resumed_changed};

use crate::Session;
use crate::events::{CONTROL_LOST, WINDOW_RESET};
use crate::setters::{with_access, without_window};

// Flash access is suspended; none where it is already.
pub fn suspend(session: Session) -> Option<Session>
    ensures { left session result ≡ suspended session }
{
    if session.suspended {
        return None;
    }
    Some(with_access(session, true, session.events | CONTROL_LOST))
}

// Flash access is resumed, and the flash is as it was; none where it is not suspended.
pub fn resume(session: Session) -> Option<Session>
    ensures { left session result ≡ resumed session }
{
    if !session.suspended {
        return None;
    }
    Some(with_access(session, false, session.events & !CONTROL_LOST))
}

// Flash access is resumed, and the flash was changed meanwhile: the window is dropped. None where it is not suspended.
pub fn resume_changed(session: Session) -> Option<Session>
    ensures { left session result ≡ resumed_changed session }
{
    if !session.suspended {
        return None;
    }
    let events = session.events & !CONTROL_LOST | WINDOW_RESET;
    Some(with_access(without_window(session), false, events))
}
