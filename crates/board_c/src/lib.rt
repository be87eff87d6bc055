// The archive that C links for a board: each function of crate board that C calls, under its C name.
//
// An export only calls the library's function and states its clauses again. References that C lends must be valid and must not
// overlap: include/hiomap.h.
#![tactic(auto)]

ghost use Rattle.std.specs.Prelude.{◌≡◌};
ghost use Rattle.session.specs.Record.{fresh};
ghost use Rattle.board.specs.Record.{record_of};
ghost use Rattle.board.specs.Calls.{board, left, commanded, listed_record, pending_record, suspended_record, resumed_record, changed_record, stepped_by, stepped_record};

use board::{ListReply, Record, Stepped, Suspended, Work};

// A fresh session.
#[unsafe(no_mangle)]
pub extern "C" fn hiomap_fresh() -> Record
    ensures { result ≡ record_of 0 fresh }
{
    board::hiomap_fresh()
}

// Serves one mailbox command over a lent record, and answers the number of chip actions.
#[unsafe(no_mangle)]
pub extern "C" fn hiomap_command(
    held: &mut Record,
    registers: &mut [u8; 16],
    lpc: u16,
    timeout: u16,
    flash: &mut [u8],
    worn: &[u8],
    memory: &mut [u8],
) -> u32
    ensures { left held.new registers.new result flash.new memory.new
        ≡ commanded (board lpc timeout) held.old registers.old flash.old worn.now memory.old }
{
    board::hiomap_command(held, registers, lpc, timeout, flash, worn, memory)
}

// Marks a list of pairs in a lent record; the lengths of the flash, its map and the window memory are in bytes.
#[unsafe(no_mangle)]
pub extern "C" fn hiomap_mark_list(
    held: &mut Record,
    list: &[u16],
    lpc: u16,
    timeout: u16,
    flash: usize,
    worn: usize,
    memory: usize,
) -> ListReply
    ensures { record { held = held.new; answer = result }
        ≡ listed_record (board lpc timeout) flash worn memory list.now held.old }
{
    board::hiomap_mark_list(held, list, lpc, timeout, flash, worn, memory)
}

// How much of a record is pending.
#[unsafe(no_mangle)]
pub extern "C" fn hiomap_pending(held: Record) -> Work
    ensures { result ≡ pending_record held }
{
    board::hiomap_pending(held)
}

// Flash access is suspended.
#[unsafe(no_mangle)]
pub extern "C" fn hiomap_suspend(held: Record) -> Suspended
    ensures { result ≡ suspended_record held }
{
    board::hiomap_suspend(held)
}

// Flash access is resumed, and the flash is as it was.
#[unsafe(no_mangle)]
pub extern "C" fn hiomap_resume(held: Record) -> Suspended
    ensures { result ≡ resumed_record held }
{
    board::hiomap_resume(held)
}

// Flash access is resumed, and the flash was changed meanwhile: the window is dropped.
#[unsafe(no_mangle)]
pub extern "C" fn hiomap_resume_changed(held: Record) -> Suspended
    ensures { result ≡ changed_record held }
{
    board::hiomap_resume_changed(held)
}

// Advances the flush by one action, from the number of actions already done. Only the flash changes, and from the erase
// of a worn block on nothing.
#[unsafe(no_mangle)]
pub extern "C" fn hiomap_step(
    held: Record,
    flash: &mut [u8],
    worn: &[u8],
    memory: &[u8],
    done: u64,
) -> Stepped
    ensures { stepped_by result flash.new ≡ stepped_record held worn.now memory.now done flash.old }
{
    board::hiomap_step(held, flash, worn, memory, done)
}
