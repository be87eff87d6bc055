// How much of a session is pending: what is marked, and what its flush would take.
ghost use Rattle.std.specs.Prelude.{◌≡◌};
ghost use Rattle.soundness.specs.Pending.{pending_in};

use crate::marks::{EVERY_BLOCK, look_at};
use session::{Session, same_counts};

// The chip actions of a dirty block: the erase, and 16 pages.
const DIRTY_ACTIONS: u32 = 17;

// How much is pending: the number of marked blocks, and of the chip actions that their flush takes.
#[derive(Clone, Copy)]
pub struct PendingWork {
    pub blocks: u32,
    pub actions: u32,
}

// Answers from the kept numbers, whatever else the session is; none where one disagrees with the marks.
pub fn pending(session: Session) -> Option<PendingWork>
    ensures { result ≡ pending_in session }
{
    let counts = session.counts;
    if !same_counts(counts, look_at(session.marks, EVERY_BLOCK).counts) {
        return None;
    }
    let dirty = u32::from(counts.dirty);
    let erased = u32::from(counts.erased);
    Some(PendingWork {
        blocks: dirty + erased,
        actions: DIRTY_ACTIONS * dirty + erased,
    })
}
