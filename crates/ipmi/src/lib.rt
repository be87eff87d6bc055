// The IPMI transport: a message is checked and unpacked, the mediator is called, and its answer is packed.
//
// Every message, every session record and every buffer length gets an answer.
#![tactic(auto)]

ghost use Rattle.std.specs.Prelude.{◌≡◌};
ghost use Rattle.session.specs.Machine.{set_up, lent};
ghost use Rattle.messages.specs.Messages.{laid};
ghost use Rattle.mailbox.specs.Mediator.{mediate};
ghost use Rattle.ipmi.specs.Served.{mediated, served};

use mailbox::command;
use messages::{Pair, Response, open_message, pack, refuse};
use session::{Board, Session};

// What a message gives back: the session, the response and the number of chip actions. This and the two functions have twins in ipmiboard,
// over C's record: its message.rt says why both stay.
#[derive(Clone, Copy)]
pub struct Reply {
    pub session: Session,
    pub response: Response,
    pub actions: u32,
}

// Serves one message for the board's pair.
#[tactic(auto, using(crate::proofs::Serving::served_command, crate::proofs::Serving::served_refused))]
pub fn serve_message(
    session: Session,
    board: Board,
    pair: Pair,
    message: &[u8],
    flash: &mut [u8],
    worn: &[u8],
    memory: &mut [u8],
) -> Reply
    ensures { (lent result.session flash.new worn.now memory.new
        ≡ (served (set_up board) pair message.now (lent session flash.old worn.now memory.old)).machine)
        × (result.response ≡ laid (served (set_up board) pair message.now (lent session flash.old worn.now memory.old)).response)
        × (result.actions ≡ (served (set_up board) pair message.now (lent session flash.old worn.now memory.old)).actions) }
{
    match open_message(pair, session.version, message) {
        Ok(registers) => serve_command(session, board, message, registers, flash, worn, memory),
        Err(refused) => Reply {
            session,
            response: refuse(Err(refused), message),
            actions: 0,
        },
    }
}

// Serves the command of a message that was taken.
fn serve_command(
    session: Session,
    board: Board,
    message: &[u8],
    registers: [u8; 16],
    flash: &mut [u8],
    worn: &[u8],
    memory: &mut [u8],
) -> Reply
    ensures { (lent result.session flash.new worn.now memory.new
        ≡ (mediate (set_up board) registers (lent session flash.old worn.now memory.old)).machine)
        × (result.response ≡ laid (mediated message.now (mediate (set_up board) registers (lent session flash.old worn.now memory.old))).response)
        × (result.actions ≡ (mediate (set_up board) registers (lent session flash.old worn.now memory.old)).actions) }
{
    let answer = command(session, registers, board, flash, worn, memory);
    Reply {
        session: answer.session,
        response: pack(message, answer.session.version, answer.registers),
        actions: answer.actions,
    }
}
