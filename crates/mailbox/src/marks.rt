// MARK_DIRTY, ERASE, FLUSH and ACK.
ghost use Rattle.std.specs.Prelude.{◌≡◌, true, ℕ, ◌+◌, ◌≤◌, ◌<◌, List, length, get_or, set, replicate};
ghost use Rattle.buffers.specs.Ranges.{replace};
ghost use Rattle.units.specs.Units.{to_bytes};
ghost use Rattle.chip.specs.Actions.{erased};
ghost use Rattle.session.specs.Machine.{lent};
ghost use Rattle.session.specs.Marks.{dirty, erased_mark, of_kind, counts_of};
ghost use Rattle.session.specs.Record.{with_marks};
ghost use Rattle.mailbox.specs.Commands.{outcome, flushed_all};
ghost use Rattle.mailbox.specs.Table.{mark_dirty, flush, ack, erase};
ghost use Rattle.mailbox.specs.Calls.{ran, obeyed_by};

use crate::Answer;
use crate::call::Call;
use buffers::fill;
use flush::flush_window;
use refusals::{BlockRange, Code, Needs, Reason, blocks_named, flush_marks, flush_outside};
use registers::NO_ARGUMENTS;
use session::{
    Counts, DIRTY, ERASED, acknowledge_events, of_kind, with_access, with_counted, without_marks,
};
use units::Blocks;

// MARK_DIRTY: the named blocks are marked dirty, if they lie in the window.
pub(crate) fn mark_dirty(call: Call) -> Result<Answer, Reason>
    ensures { (flash worn memory : List ℕ) → ran result call flash worn memory ≡ obeyed_by mark_dirty call flash worn memory }
{
    call.check(1, Needs::WriteWindow, false)?;
    let named = blocks_named(call.session, call.registers).or(Err(Reason::Argument))?;
    let marked = call.numbered().marked(named, DIRTY);
    Ok(marked.answer(marked.session, Code::Success, NO_ARGUMENTS, 0))
}

// ERASE: the named blocks are marked erased and become FF in the window memory, if they lie in the window. Beside MARK_DIRTY: one function
// for both would be given the version, the mark and the memory, which is all that is in them.
pub(crate) fn erase(call: Call, memory: &mut [u8]) -> Result<Answer, Reason>
    requires { to_bytes call.session.size ≤ length memory.old }
    ensures { (flash worn : List ℕ) → ran result call flash worn memory.new ≡ obeyed_by erase call flash worn memory.old }
{
    call.check(2, Needs::WriteWindow, false)?;
    let named = blocks_named(call.session, call.registers).or(Err(Reason::Argument))?;
    fill_blocks(memory, named);
    let marked = call.numbered().marked(named, ERASED);
    Ok(marked.answer(marked.session, Code::Success, NO_ARGUMENTS, 0))
}

// FLUSH: the marked blocks are flushed, if those that it marks itself lie in the window.
pub(crate) fn flush(
    call: Call,
    flash: &mut [u8],
    worn: &[u8],
    memory: &[u8],
) -> Result<Answer, Reason>
    ensures { ran result call flash.new worn.now memory.now ≡ obeyed_by flush call flash.old worn.now memory.now }
{
    call.check(
        1,
        Needs::WriteWindow,
        flush_outside(call.session, call.registers),
    )?;
    let named = if flush_marks(call.session, call.registers) {
        blocks_named(call.session, call.registers).ok()
    } else {
        None
    };
    let flushing = match named {
        Some(named) => call.numbered().marked(named, DIRTY),
        None => call.numbered(),
    };
    Ok(flush_all(flushing, flash, worn, memory))
}

// ACK: clears those of the two events that argument 0 names, and no other bit.
pub(crate) fn acknowledge(call: Call) -> Result<Answer, Reason>
    ensures { (flash worn memory : List ℕ) → ran result call flash worn memory ≡ obeyed_by ack call flash worn memory }
{
    call.check(0, Needs::NewNumber, false)?;
    let next = call.numbered().session;
    let events = acknowledge_events(next.events, call.registers[2]);
    let cleared = with_access(next, next.suspended, events);
    Ok(call.answer(cleared, Code::Success, NO_ARGUMENTS, 0))
}

// The blocks of the window memory become FF.
fn fill_blocks(memory: &mut [u8], named: BlockRange)
    requires { to_bytes named.start + to_bytes named.count ≤ length memory.old }
    ensures { memory.new ≡ erased (to_bytes named.start) (to_bytes named.count) memory.old }
{
    let start = Blocks(named.start).bytes().0 as usize;
    let end = start + Blocks(named.count).bytes().0 as usize;
    fill(&mut memory[start..end], chip::ERASED);
}

// All marked blocks are flushed, up to the first whose erase fails. `close` ends in another answer, and no more stands twice.
fn flush_all(call: Call, flash: &mut [u8], worn: &[u8], memory: &[u8]) -> Answer
    ensures { outcome result flash.new worn.now memory.now ≡ flushed_all call.registers (lent call.session flash.old worn.now memory.now) }
{
    let flush = flush_window(call.session, flash, worn, memory);
    match flush.failed {
        Some(block) => call.stopped(block, flush.actions),
        None => call.answer(
            without_marks(call.session),
            Code::Success,
            NO_ARGUMENTS,
            flush.actions,
        ),
    }
}

impl Call {
    // The call with one mark at each named block. What a mark replaces is counted where it is replaced, so that no other
    // mark is looked at.
    fn marked(self, named: BlockRange, mark: u8) -> Call
        requires { named.start + named.count ≤ self.session.size }
        ensures session { result.session ≡ with_marks (replace named.start (replicate named.count mark) self.session.marks) self.session }
        ensures registers { result.registers ≡ self.registers }
        ensures board { result.board ≡ self.board }
    {
        let start = named.start as usize;
        let end = start + named.count as usize;
        let mut marks = self.session.marks;
        let mut counts = self.session.counts;
        for at in start..end {
            counts = recount(counts, marks[at], mark);
            marks[at] = mark;
        }
        self.with_session(with_counted(self.session, marks, counts))
    }
}

// The numbers of some marks, with one of them replaced.
fn recount(counts: Counts, old: u8, mark: u8) -> Counts
    requires counted { (of_kind dirty old ≤ counts.dirty) × (of_kind erased_mark old ≤ counts.erased) }
    requires few { (counts.dirty ≤ 64) × (counts.erased ≤ 64) }
    ensures { (marks : List ℕ) (at : ℕ) → at < length marks → get_or marks at 0 ≡ old → counts ≡ counts_of marks → result ≡ counts_of (set marks at mark) }
{
    Counts {
        dirty: counts.dirty - of_kind(old, DIRTY) + of_kind(mark, DIRTY),
        erased: counts.erased - of_kind(old, ERASED) + of_kind(mark, ERASED),
    }
}
