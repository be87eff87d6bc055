// When the lent sizes, B and a session are sound, and how much of a session is pending; marks with their numbers.
//
// Every length and every session record gets an answer; what is not sound is SYSTEM_ERROR to a command or a list of marks and, B
// aside, `StepError::Unsound` to a step.
#![tactic(auto)]

mod marks;
mod pending_work;

ghost use Rattle.std.specs.Prelude.{◌≡◌, ◌<◌, ◌&&◌};
ghost use Rattle.session.specs.Machine.{set_up};
ghost use Rattle.soundness.specs.Soundness.{sound, sound_at, size_sound, access_sound, active_sound, window_sound, markable, marks_sound, counts_sound, session_sound};

use marks::look_at;
pub use marks::with_marks;
pub use pending_work::{PendingWork, pending};
use session::{Board, Session, Window, is_control_lost, same_counts};
use units::Bytes;

// The last version that there is.
const LAST_VERSION: u8 = 2;

// The most blocks of a flash and of a window memory, and how far the LPC blocks go.
const MOST_FLASH: u32 = 65535;

const MOST_MEMORY: u32 = 64;

const LPC_BLOCKS: u64 = 65536;

// The lent sizes, in bytes, and the session are sound; the map of worn blocks has a byte for each block of the flash. The three
// lengths are no struct: it would be read from memory here, 5 ns of each command, and GET_INFO misses its bar (docs/PERFORMANCE.md).
#[tactic(auto, using(crate::proofs::Facts::block_count), unfolding(crate::specs::Soundness::sound, crate::specs::Soundness::sizes_sound))]
pub fn is_sound(session: Session, flash: usize, worn: usize, memory: usize) -> bool
    ensures { result ≡ sound flash worn memory session }
{
    let flash_blocks = Bytes::from(flash).blocks().0;
    let memory_blocks = Bytes::from(memory).blocks().0;
    size_is_sound(MOST_FLASH, flash)
        && size_is_sound(MOST_MEMORY, memory)
        && worn == flash_blocks as usize
        && session_is_sound(session, flash_blocks, memory_blocks)
}

// The same, with B: the window memory ends within the LPC blocks.
#[tactic(auto, using(crate::proofs::Facts::sound_block_count), unfolding(crate::specs::Soundness::sound_at))]
pub fn is_sound_at(session: Session, board: Board, flash: usize, worn: usize, memory: usize) -> bool
    ensures { result ≡ sound_at (set_up board) flash worn memory session }
{
    let memory_blocks = Bytes::from(memory).blocks().0;
    is_sound(session, flash, worn, memory)
        && u64::from(board.lpc) + u64::from(memory_blocks) <= LPC_BLOCKS
}

// Whole blocks, at least one and at most so many.
#[tactic(auto, unfolding(crate::specs::Soundness::size_sound))]
fn size_is_sound(most: u32, length: usize) -> bool
    requires { most < 65536 }
    ensures { result ≡ size_sound most length }
{
    let bytes = Bytes::from(length);
    let blocks = bytes.blocks();
    0 < blocks.0 && blocks.0 <= most && blocks.bytes() == bytes
}

// Version, event byte, window and marks each, on a flash and a window memory of so many blocks.
#[tactic(auto, unfolding(crate::specs::Soundness::session_sound))]
fn session_is_sound(session: Session, flash: u32, memory: u32) -> bool
    ensures { result ≡ session_sound flash memory session }
{
    session.version <= LAST_VERSION
        && access_is_sound(session.suspended, session.events)
        && window_is_sound(session.window, session.first, session.size, flash, memory)
        && marks_and_counts_are_sound(session)
}

// The event byte tells a suspension exactly while there is one.
fn access_is_sound(suspended: bool, events: u8) -> bool
    ensures { result ≡ access_sound suspended events }
{
    suspended == is_control_lost(events)
}

// No window is at 0 and of no blocks; another lies in the memory and the flash.
fn window_is_sound(window: Window, first: u16, size: u16, flash: u32, memory: u32) -> bool
    ensures { result ≡ window_sound window first size flash memory }
{
    match window {
        Window::Closed => first == 0 && size == 0,
        Window::Read | Window::Write => active_is_sound(first, size, flash, memory),
    }
}

// At least one block, no more than the window memory has, and all of them within the flash.
fn active_is_sound(first: u16, size: u16, flash: u32, memory: u32) -> bool
    ensures { result ≡ active_sound first size flash memory }
{
    0 < size && u32::from(size) <= memory && u32::from(first) + u32::from(size) <= flash
}

// The marks are those of the window, and the kept numbers theirs.
fn marks_and_counts_are_sound(session: Session) -> bool
    ensures { result ≡ (marks_sound (markable session.window session.size) session.marks && counts_sound session) }
{
    let look = look_at(session.marks, markable_blocks(session.window, session.size));
    look.within && same_counts(session.counts, look.counts)
}

// How many blocks of the window may be marked.
fn markable_blocks(window: Window, size: u16) -> u16
    ensures { result ≡ markable window size }
{
    match window {
        Window::Closed | Window::Read => 0,
        Window::Write => size,
    }
}
