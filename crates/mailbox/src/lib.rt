// The mailbox commands of hiomap versions 1 and 2: one mediator over values, and each command under it.
//
// Every content of the registers, every session record and every buffer length gets an answer.
#![tactic(auto)]

mod answers;
mod call;
mod info;
mod marks;
mod numbering;
mod windows;

ghost use Rattle.std.specs.Prelude.{◌≡◌, ◌≤◌, true, length};
ghost use Rattle.units.specs.Units.{to_bytes};
ghost use Rattle.session.specs.Machine.{set_up, lent};
ghost use Rattle.soundness.specs.Soundness.{size_sound};
ghost use Rattle.mailbox.specs.Commands.{outcome};
ghost use Rattle.mailbox.specs.Mediator.{command_in, mediate};
ghost use Rattle.mailbox.specs.Calls.{ran, obeyed_by};

use call::Call;
use info::{get_flash_info, get_info};
use marks::{acknowledge, erase, flush, mark_dirty};
use numbering::unknown;
use refusals::{Code, Reason};
use registers::{NO_ARGUMENTS, replied};
use session::{Board, Session, Window};
use soundness::is_sound_at;
use windows::{close_window, create, reset};

// What a command gives back: the session, the 16 registers and the number of chip actions.
#[derive(Clone, Copy)]
pub struct Answer {
    pub session: Session,
    pub registers: [u8; 16],
    pub actions: u32,
}

// Serves one mailbox command: SYSTEM_ERROR first, then the command of the code that the registers hold.
pub fn command(
    session: Session,
    registers: [u8; 16],
    board: Board,
    flash: &mut [u8],
    worn: &[u8],
    memory: &mut [u8],
) -> Answer
    ensures { outcome result flash.new worn.now memory.new
        ≡ mediate (set_up board) registers (lent session flash.old worn.now memory.old) }
{
    // SYSTEM_ERROR keeps the previous number
    if !is_sound_at(session, board, flash.len(), worn.len(), memory.len()) {
        return Answer {
            session,
            registers: replied(
                registers,
                u8::from(Code::SystemError),
                NO_ARGUMENTS,
                session.events,
            ),
            actions: 0,
        };
    }
    let call = Call {
        session,
        registers,
        board,
    };
    match run(call, flash, worn, memory) {
        Ok(answer) => answer,
        Err(reason) => call.refused(reason),
    }
}

// The published table of commands in its order. RESET, GET_INFO and ACK are unversioned; 11 and 12 are version 3's.
// A match and no table of functions: each command is lent something else, and a table's rows would be boxed. Numbers and no enum: any
// byte is answered, and a second match into an enum first is no plainer.
#[tactic(auto, using(crate::proofs::Arms::create_row, crate::proofs::Arms::erase_row, crate::proofs::Arms::past_row))]
fn run(call: Call, flash: &mut [u8], worn: &[u8], memory: &mut [u8]) -> Result<Answer, Reason>
    requires sizes { (size_sound 65535 (length flash.old) ≡ true) × (size_sound 64 (length memory.old) ≡ true) }
    requires room { to_bytes call.session.size ≤ length memory.old }
    ensures { ran result call flash.new worn.now memory.new ≡ obeyed_by (command_in call.registers) call flash.old worn.now memory.old }
{
    match call.registers[0] {
        0 => unknown(call),
        1 => reset(call),
        2 => get_info(call, memory),
        3 => get_flash_info(call, flash),
        // one call, so that it is compiled in place (docs/PERFORMANCE.md)
        4 | 6 => {
            let window = if call.registers[0] == 4 {
                Window::Read
            } else {
                Window::Write
            };
            create(window, call, flash, worn, memory)
        }
        5 => close_window(call, flash, worn, memory),
        7 => mark_dirty(call),
        8 => flush(call, flash, worn, memory),
        9 => acknowledge(call),
        10 => erase(call, memory),
        11..=255 => unknown(call),
    }
}
