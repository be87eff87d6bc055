// How much of a record is pending.
ghost use Rattle.std.specs.Prelude.{◌≡◌};
ghost use Rattle.board.specs.Calls.{pending_record};

use crate::{Record, Work};
use session::Session;
use soundness::{PendingWork, pending};

// Answers from the kept numbers, where they agree with the marks, whatever else the record holds.
pub fn hiomap_pending(held: Record) -> Work
    ensures { result ≡ pending_record held }
{
    match pending(Session::from(held)) {
        Some(PendingWork { blocks, actions }) => Work {
            unsound: false,
            blocks,
            actions,
        },
        None => Work {
            unsound: true,
            blocks: 0,
            actions: 0,
        },
    }
}
