// RESET, CREATE_READ_WINDOW, CREATE_WRITE_WINDOW and CLOSE_WINDOW.
ghost use Rattle.std.specs.Prelude.{◌≡◌, ℕ, ◌+◌, ◌≤◌, ◌<◌, true, cond, List, leb, ltb, length};
ghost use Rattle.buffers.specs.Ranges.{range, replace};
ghost use Rattle.units.specs.Units.{to_bytes, round_up};
ghost use Rattle.session.specs.Machine.{set_up, lent};
ghost use Rattle.session.specs.Record.{with_window};
ghost use Rattle.soundness.specs.Soundness.{size_sound};
ghost use Rattle.registers.specs.Registers.{command_of, number};
ghost use Rattle.mailbox.specs.Commands.{outcome, answered, closing_first, size_for, create_arguments, opening, created, closed};
ghost use Rattle.mailbox.specs.Table.{reset, create, close_window};
ghost use Rattle.mailbox.specs.Calls.{ran, obeyed_by};

use crate::Answer;
use crate::call::Call;
use buffers::copy;
use flush::flush_window;
use refusals::{Code, Needs, Reason, undefined_flags};
use registers::read_words;
use session::{Window, with_window};
use units::{Blocks, Bytes};

// RESET: the window and its marks are dropped, without a flush.
pub(crate) fn reset(call: Call) -> Result<Answer, Reason>
    ensures { (flash worn memory : List ℕ) → ran result call flash worn memory ≡ obeyed_by reset call flash worn memory }
{
    call.check(0, Needs::Access, false)?;
    Ok(call.numbered().dropped(Code::Success, 0))
}

// CLOSE_WINDOW: the window is flushed and dropped, if the flags in argument 0 are defined.
pub(crate) fn close_window(
    call: Call,
    flash: &mut [u8],
    worn: &[u8],
    memory: &[u8],
) -> Result<Answer, Reason>
    ensures { ran result call flash.new worn.now memory.now ≡ obeyed_by close_window call flash.old worn.now memory.now }
{
    let undefined = undefined_flags(call.session, call.registers);
    call.check(1, Needs::Access, undefined)?;
    Ok(close(call.numbered(), flash, worn, memory))
}

// CREATE_READ_WINDOW and CREATE_WRITE_WINDOW: opens a window. Where its block lies outside the flash, the active window is
// closed all the same. The sizes are facts about lent slices, and stay clauses: a struct of slices is no plainer (crate lent).
pub(crate) fn create(
    window: Window,
    call: Call,
    flash: &mut [u8],
    worn: &[u8],
    memory: &mut [u8],
) -> Result<Answer, Reason>
    requires { (size_sound 65535 (length flash.old) ≡ true) × (size_sound 64 (length memory.old) ≡ true) }
    ensures { ran result call flash.new worn.now memory.new ≡ obeyed_by (create (command_of call.registers) window) call flash.old worn.now memory.old }
{
    call.check(1, Needs::Access, false)?;
    if is_outside(flash.len(), call.registers) {
        return Ok(close_first(call.numbered(), flash, worn, memory));
    }
    Ok(open_at(window, call.numbered(), flash, worn, memory))
}

// The block of a create lies outside the flash, by the length of it in bytes.
#[tactic(auto, using(soundness::proofs::Facts::block_count))]
fn is_outside(flash: usize, registers: [u8; 16]) -> bool
    requires { size_sound 65535 flash ≡ true }
    ensures { result ≡ leb (round_up flash) (number 2 0 registers) }
{
    let blocks = Bytes::from(flash).blocks().0;
    blocks <= u32::from(read_words(registers).first)
}

// The window is flushed and dropped; where an erase fails it stays.
fn close(call: Call, flash: &mut [u8], worn: &[u8], memory: &[u8]) -> Answer
    ensures { outcome result flash.new worn.now memory.now ≡ closed call.registers (lent call.session flash.old worn.now memory.now) }
{
    let flush = flush_window(call.session, flash, worn, memory);
    match flush.failed {
        Some(block) => call.stopped(block, flush.actions),
        None => call.dropped(Code::Success, flush.actions),
    }
}

// The window of a create whose argument is bad is flushed and dropped all the same; a failed erase is told before the argument.
fn close_first(call: Call, flash: &mut [u8], worn: &[u8], memory: &[u8]) -> Answer
    ensures { outcome result flash.new worn.now memory.now ≡ closing_first 2 call.registers (lent call.session flash.old worn.now memory.now) }
{
    let flush = flush_window(call.session, flash, worn, memory);
    let code = if flush.failed.is_some() {
        Code::WriteError
    } else {
        Code::ParamError
    };
    call.dropped(code, flush.actions)
}

// The active window is closed, and a new one is opened at a block of the flash.
fn open_at(window: Window, call: Call, flash: &mut [u8], worn: &[u8], memory: &mut [u8]) -> Answer
    requires inside { number 2 0 call.registers < round_up (length flash.old) }
    requires flash_blocks { (to_bytes (round_up (length flash.old)) ≡ length flash.old) × (round_up (length flash.old) ≤ 65535) }
    requires memory_blocks { (to_bytes (round_up (length memory.old)) ≡ length memory.old) × (round_up (length memory.old) ≤ 64) }
    ensures { outcome result flash.new worn.now memory.new
        ≡ created window (set_up call.board) call.registers (lent call.session flash.old worn.now memory.old) }
{
    let words = read_words(call.registers);
    let hint = late(call.session.version, words.second);
    let size = window_size(flash.len(), memory.len(), words.first, hint);
    open_window(window, words.first, size, call, flash, worn, memory)
}

// A number that only version 2 has: the hint of a create, and the size and the place that it answers. 0 and no Option: it is the
// protocol's word for no hint, at version 2 too.
fn late(version: u8, number: u16) -> u16
    ensures { result ≡ cond (ltb version 2) 0 number }
{
    if version < 2 { 0 } else { number }
}

// The size of a window at a block, from the lengths of both buffers and the hint.
fn window_size(flash: usize, memory: usize, first: u16, hint: u16) -> u16
    requires { (first < round_up flash) × (round_up flash ≤ 65535) × (round_up memory ≤ 64) }
    ensures { result ≡ size_for (round_up flash) (round_up memory) first hint }
{
    let flash_blocks = Bytes::from(flash).blocks().0;
    let memory_blocks = Bytes::from(memory).blocks().0;
    let most = memory_blocks.min(flash_blocks - u32::from(first)) as u16;
    if hint == 0 { most } else { most.min(hint) }
}

// The active window is flushed, and the blocks of the new one are copied to the front of the memory. Where an erase fails
// there is no window afterwards.
fn open_window(
    window: Window,
    first: u16,
    size: u16,
    call: Call,
    flash: &mut [u8],
    worn: &[u8],
    memory: &mut [u8],
) -> Answer
    requires in_flash { to_bytes first + to_bytes size ≤ length flash.old }
    requires in_memory { to_bytes size ≤ length memory.old }
    ensures { outcome result flash.new worn.now memory.new
        ≡ opening window first size (set_up call.board) call.registers (lent call.session flash.old worn.now memory.old) }
{
    let flush = flush_window(call.session, flash, worn, memory);
    if flush.failed.is_some() {
        return call.dropped(Code::WriteError, flush.actions);
    }
    copy_blocks(flash, memory, first, size);
    call.opened(window, first, size, flush.actions)
}

// The blocks of the flash go to the front of the memory.
fn copy_blocks(flash: &[u8], memory: &mut [u8], first: u16, size: u16)
    requires in_flash { to_bytes first + to_bytes size ≤ length flash.now }
    requires in_memory { to_bytes size ≤ length memory.old }
    ensures { memory.new ≡ replace 0 (range (to_bytes first) (to_bytes size) flash.now) memory.old }
{
    let start = Blocks::from(first).bytes().0 as usize;
    let bytes = Blocks::from(size).bytes().0 as usize;
    let end = start + bytes;
    copy(&mut memory[0..bytes], &flash[start..end]);
}

impl Call {
    // The answer to a create that opens a window.
    fn opened(self, window: Window, first: u16, size: u16, actions: u32) -> Answer
        ensures { result ≡ answered (with_window window first size self.session) self.registers 1
            (create_arguments self.session.version self.board.lpc size first) actions }
    {
        let version = self.session.version;
        let [b0, b1] = self.board.lpc.to_le_bytes();
        let [s0, s1] = late(version, size).to_le_bytes();
        let [f0, f1] = late(version, first).to_le_bytes();
        self.answer(
            with_window(self.session, window, first, size),
            Code::Success,
            [b0, b1, s0, s1, f0, f1, 0, 0, 0, 0, 0],
            actions,
        )
    }
}
