// A command over values: the mediator's, of the session that a record stands for.
ghost use Rattle.std.specs.Prelude.{◌≡◌, cond};
ghost use Rattle.session.specs.Machine.{set_up};
ghost use Rattle.session.specs.Record.{with_version};
ghost use Rattle.board.specs.Calls.{board, left, commanded};
ghost use Rattle.board.specs.Record.{session_of, afterwards};

use crate::Record;
use crate::convert::{is_regular, record_of};
use mailbox::{Answer, command};
use session::{Board, Session};

// A version that no later one reaches, so that it is never sound.
const UNSOUND_VERSION: u8 = 255;

// What a command gives back: mailbox's `Answer` with C's record in place of the session. One type for both would ask for bounds on
// that part in each clause.
#[derive(Clone, Copy)]
pub struct Served {
    pub held: Record,
    pub registers: [u8; 16],
    pub actions: u32,
}

// Serves one mailbox command. A record with a number that stands for nothing is refused, and stays.
#[tactic(auto, using(crate::proofs::Answers::commanded_passed))]
pub fn serve(
    held: Record,
    registers: [u8; 16],
    board: Board,
    flash: &mut [u8],
    worn: &[u8],
    memory: &mut [u8],
) -> Served
    ensures { left result.held result.registers result.actions flash.new memory.new
        ≡ commanded (set_up board) held registers flash.old worn.now memory.old }
{
    let regular = is_regular(held);
    let session = served_session(held, regular);
    let Answer {
        session,
        registers,
        actions,
    } = command(session, registers, board, flash, worn, memory);
    Served {
        held: kept_record(held, regular, session),
        registers,
        actions,
    }
}

// The session that a record stands for, of an unsound version where the record is not regular: so every
// record takes one way through the mediator, and that call is compiled in place (docs/PERFORMANCE.md).
fn served_session(held: Record, regular: bool) -> Session
    ensures { result ≡ cond regular (session_of held) (with_version 255 (session_of held)) }
{
    let mut session = Session::from(held);
    if !regular {
        session.version = UNSOUND_VERSION;
    }
    session
}

// The record afterwards: one that is not regular keeps its version and its numbers.
fn kept_record(held: Record, regular: bool, session: Session) -> Record
    ensures { result ≡ afterwards regular held session }
{
    let mut next = record_of(session, held.previous);
    if !regular {
        next.version = held.version;
        next.numbered = held.numbered;
        next.suspended = held.suspended;
        next.window = held.window;
    }
    next
}

// Serves one mailbox command over a lent record, and answers the number of chip actions.
pub fn hiomap_command(
    held: &mut Record,
    registers: &mut [u8; 16],
    lpc: u16,
    timeout: u16,
    flash: &mut [u8],
    worn: &[u8],
    memory: &mut [u8],
) -> u32
    ensures { left held.new registers.new result flash.new memory.new
        ≡ commanded (board lpc timeout) held.old registers.old flash.old worn.now memory.old }
{
    let Served {
        held: after,
        registers: replied,
        actions,
    } = serve(
        *held,
        *registers,
        Board { lpc, timeout },
        flash,
        worn,
        memory,
    );
    *held = after;
    *registers = replied;
    actions
}
