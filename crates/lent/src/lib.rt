// The lent session: "The board's loop owns one session record and lends it for each command".
//
// The entry takes the record apart, calls the proved function over values and stores the session back.
#![tactic(auto)]

ghost use Rattle.std.specs.Prelude.{◌≡◌};
ghost use Rattle.session.specs.Machine.{set_up, lent};
ghost use Rattle.mailbox.specs.Mediator.{mediate};

use mailbox::{Answer, command};
use session::{Board, Session};

// What a command gives back besides the session, which is lent: the 16 registers and the number of chip actions.
#[derive(Clone, Copy)]
pub struct Reply {
    pub registers: [u8; 16],
    pub actions: u32,
}

// Serves one mailbox command over a lent session.
// The buffers are no struct: each function would also have to promise that its fields keep their ghost names.
pub fn serve(
    session: &mut Session,
    registers: [u8; 16],
    board: Board,
    flash: &mut [u8],
    worn: &[u8],
    memory: &mut [u8],
) -> Reply
    ensures { record {
      machine = lent session.new flash.new worn.now memory.new;
      registers = result.registers;
      actions = result.actions;
    }
        ≡ mediate (set_up board) registers (lent session.old flash.old worn.now memory.old) }
{
    let Answer {
        session: after,
        registers,
        actions,
    } = command(*session, registers, board, flash, worn, memory);
    *session = after;
    Reply { registers, actions }
}
