// A message over a record: the command that it holds is served as one of the mailbox is.
ghost use Rattle.std.specs.Prelude.{◌≡◌};
ghost use Rattle.session.specs.Machine.{set_up};
ghost use Rattle.board.specs.Calls.{board, commanded};
ghost use Rattle.ipmiboard.specs.Messages.{reply_of, tells_message, mediated_record, messaged_record};

use crate::MessageReply;
use board::{Record, serve};
use messages::{Pair, Response, open_message, pack, refuse};
use session::Board;

// What a message gives back.
#[derive(Clone, Copy)]
pub struct ServedMessage {
    pub held: Record,
    pub reply: MessageReply,
}

// Serves one message for the board's pair. What is refused leaves the record as it is.
// A twin of ipmi's, as `serve_command` is, over C's record: a trait for both would need a type for the session, a ghost member for what a
// command leaves and one for each clause here, and an impl in each crate, where two short functions stand now.
#[tactic(auto, using(crate::proofs::Messaging::messaged_command, crate::proofs::Messaging::messaged_refused))]
pub(crate) fn serve_message(
    held: Record,
    board: Board,
    pair: Pair,
    message: &[u8],
    flash: &mut [u8],
    worn: &[u8],
    memory: &mut [u8],
) -> ServedMessage
    ensures { tells_message result flash.new memory.new
        ≡ messaged_record (set_up board) pair message.now held flash.old worn.now memory.old }
{
    match open_message(pair, held.version, message) {
        Ok(registers) => serve_command(held, board, message, registers, flash, worn, memory),
        Err(refused) => with_response(held, refuse(Err(refused), message), 0),
    }
}

// Serves the command of a message that was taken.
fn serve_command(
    held: Record,
    board: Board,
    message: &[u8],
    registers: [u8; 16],
    flash: &mut [u8],
    worn: &[u8],
    memory: &mut [u8],
) -> ServedMessage
    ensures { tells_message result flash.new memory.new
        ≡ mediated_record message.now (commanded (set_up board) held registers flash.old worn.now memory.old) }
{
    let served = serve(held, registers, board, flash, worn, memory);
    let response = pack(message, served.held.version, served.registers);
    with_response(served.held, response, served.actions)
}

// The record with the response as C has it.
fn with_response(held: Record, response: Response, actions: u32) -> ServedMessage
    ensures { result ≡ record { held = held; reply = reply_of response actions } }
{
    let Response { bytes, length } = response;
    ServedMessage {
        held,
        reply: MessageReply {
            response: bytes,
            length,
            actions,
        },
    }
}

// Serves one message over a lent record.
pub fn hiomap_message(
    held: &mut Record,
    netfn: u8,
    command: u8,
    message: &[u8],
    lpc: u16,
    timeout: u16,
    flash: &mut [u8],
    worn: &[u8],
    memory: &mut [u8],
) -> MessageReply
    ensures { tells_message (record { held = held.new; reply = result }) flash.new memory.new
        ≡ messaged_record (board lpc timeout) (record { netfn = netfn; command = command }) message.now held.old flash.old worn.now memory.old }
{
    let board = Board { lpc, timeout };
    let pair = Pair { netfn, command };
    let served = serve_message(*held, board, pair, message, flash, worn, memory);
    *held = served.held;
    served.reply
}
