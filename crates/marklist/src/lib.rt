// Up to 64 pairs of window block and count, marked dirty in one call at version 2, or none of them.
//
// Every list, every session record and every length gets an answer. No byte of the flash, its map and the window
// memory is touched, so that their lengths are enough.
#![tactic(auto)]

mod pairs;

ghost use Rattle.std.specs.Prelude.{◌≡◌};
ghost use Rattle.session.specs.Machine.{set_up};
ghost use Rattle.marklist.specs.MarkList.{left, malformed, answer_for, listed};

use pairs::{first_outside, mark_pairs};
use session::{Board, Session, Window};
use soundness::{is_sound_at, with_marks};

// The most pairs of a list.
const MOST_PAIRS: usize = 64;

// The check that refuses a list.
#[derive(Clone, Copy, PartialEq, Eq)]
pub enum ListError {
    Unsound,
    OtherVersion,
    Suspended,
    Windowless,
    // An odd length, or too many pairs.
    Malformed,
    // The first pair that does not lie in the window, by its place from 0.
    Outside(u8),
}

// Marks all pairs of the list dirty, or changes nothing. The previous sequence number has no part in it.
// The list is of numbers, and not of pairs: C hands numbers over.
#[tactic(auto, using(crate::proofs::Taken::within_marks), unfolding(crate::specs::MarkList::listed))]
pub fn mark_list(
    session: Session,
    list: &[u16],
    board: Board,
    flash: usize,
    worn: usize,
    memory: usize,
) -> Result<Session, ListError>
    ensures { left session result ≡ listed (set_up board) flash worn memory list.now session }
{
    let sound = is_sound_at(session, board, flash, worn, memory);
    check(session, list, sound)?;
    Ok(with_marks(session, mark_pairs(session.marks, list)))
}

// The checks in their order: the pairs last, all of them before one is marked.
#[tactic(auto, unfolding(crate::specs::MarkList::answer_for))]
fn check(session: Session, list: &[u16], sound: bool) -> Result<(), ListError>
    ensures { result ≡ answer_for sound list.now session }
{
    if !sound {
        return Err(ListError::Unsound);
    }
    if session.version != 2 {
        return Err(ListError::OtherVersion);
    }
    if session.suspended {
        return Err(ListError::Suspended);
    }
    if session.window != Window::Write {
        return Err(ListError::Windowless);
    }
    if is_malformed(list.len()) {
        return Err(ListError::Malformed);
    }
    first_outside(list, session.size)
}

// So many numbers are not pairs, or too many.
fn is_malformed(numbers: usize) -> bool
    ensures { result ≡ malformed numbers }
{
    numbers % 2 == 1 || MOST_PAIRS < numbers / 2
}
