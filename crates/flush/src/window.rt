// The flush of a session's window over the whole flash: only the window's own part is lent on, of the flash and of the map.
ghost use Rattle.std.specs.Prelude.{◌≡◌, ◌+◌, ◌≤◌, ltb, length, take, drop};
ghost use Rattle.session.specs.Machine.{lent};
ghost use Rattle.flush.specs.Actions.{flush_actions};
ghost use Rattle.flush.specs.Worn.{failing_block};
ghost use Rattle.flush.specs.Window.{window_actions, part_end, window_worn, perform_in, stepped, advanced, flush_left, flush_whole};

use crate::marked::{flush_marked, step_marked};
use crate::worn::{failing_block, first_marks};
use session::{Session, none_marked};
use soundness::is_sound;
use units::Blocks;

// Why a flush is not advanced.
#[derive(Clone, Copy, PartialEq, Eq)]
pub enum StepError {
    // The sizes or the session are not sound.
    Unsound,
    // Flash access is suspended.
    Suspended,
    // All actions before the erase of a worn block were done before.
    Failed,
}

// What a whole flush came to: the number of its actions, and the window's block whose erase failed, if one did.
#[derive(Clone, Copy)]
pub struct Flush {
    pub actions: u32,
    pub failed: Option<u32>,
}

// What a flush without an action comes to.
const NOTHING_DONE: Flush = Flush {
    actions: 0,
    failed: None,
};

// Advances the flush by one action, from the number of actions already done, and answers whether one was left. Only the flash changes.
#[tactic(auto, using(soundness::proofs::Facts::part_within), unfolding(crate::specs::Window::advanced))]
pub fn advance(
    session: Session,
    flash: &mut [u8],
    worn: &[u8],
    memory: &[u8],
    done: u64,
) -> Result<bool, StepError>
    ensures { stepped result flash.new ≡ advanced (lent session flash.old worn.now memory.now) done }
{
    if !is_sound(session, flash.len(), worn.len(), memory.len()) {
        return Err(StepError::Unsound);
    }
    if session.suspended {
        return Err(StepError::Suspended);
    }
    let failed = failing_in(session, worn);
    let acted = step_part(
        session,
        first_marks(session.marks, failed),
        flash,
        memory,
        done,
    );
    if !acted && failed.is_some() {
        return Err(StepError::Failed);
    }
    Ok(acted)
}

// Does the actions of a sound session's window, suspended or not, up to the first that fails.
#[tactic(auto, using(soundness::proofs::Facts::part_within), unfolding(crate::specs::Window::flush_whole))]
pub fn flush_window(session: Session, flash: &mut [u8], worn: &[u8], memory: &[u8]) -> Flush
    ensures { flush_left session result flash.new ≡ flush_whole (lent session flash.old worn.now memory.now) }
{
    if !is_sound(session, flash.len(), worn.len(), memory.len()) {
        return NOTHING_DONE;
    }
    // two numbers instead of 64 turns, where nothing is marked: half a microsecond of a create
    if none_marked(session.counts) {
        return NOTHING_DONE;
    }
    let failed = failing_in(session, worn);
    let actions = flush_part(session, first_marks(session.marks, failed), flash, memory);
    Flush { actions, failed }
}

// The first block whose erase fails, of a window that lies in the map.
fn failing_in(session: Session, worn: &[u8]) -> Option<u32>
    requires { session.first + session.size ≤ length worn.now }
    ensures { result ≡ failing_block (window_worn session worn.now) session.marks }
{
    let start = usize::from(session.first);
    let end = start + usize::from(session.size);
    failing_block(&worn[start..end], session.marks)
}

// All actions of these marks in a window that lies in the flash. No closure over the part for this and the next: its own clauses
// would say what these two say.
#[tactic(auto, using(crate::proofs::InWindow::performed))]
fn flush_part(session: Session, marks: [u8; 64], flash: &mut [u8], memory: &[u8]) -> u32
    requires { part_end session ≤ length flash.old }
    ensures { (result ≡ length (flush_actions marks))
        × (flash.new ≡ perform_in session memory.now (flush_actions marks) flash.old) }
{
    let start = Blocks::from(session.first).bytes().0 as usize;
    let end = start + Blocks::from(session.size).bytes().0 as usize;
    flush_marked(&mut flash[start..end], memory, marks)
}

// One action of these marks in a window that lies in the flash.
#[tactic(auto, using(crate::proofs::InWindow::performed))]
fn step_part(session: Session, marks: [u8; 64], flash: &mut [u8], memory: &[u8], done: u64) -> bool
    requires { part_end session ≤ length flash.old }
    ensures { (result ≡ ltb done (length (flush_actions marks)))
        × (flash.new ≡ perform_in session memory.now (take 1 (drop done (flush_actions marks))) flash.old) }
{
    let start = Blocks::from(session.first).bytes().0 as usize;
    let end = start + Blocks::from(session.size).bytes().0 as usize;
    step_marked(&mut flash[start..end], memory, marks, done)
}
