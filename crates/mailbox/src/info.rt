// GET_INFO and GET_FLASH_INFO.
ghost use Rattle.std.specs.Prelude.{◌≡◌, true, List, ℕ, length};
ghost use Rattle.session.specs.Machine.{set_up};
ghost use Rattle.soundness.specs.Soundness.{size_sound};
ghost use Rattle.mailbox.specs.Commands.{info_answer, flash_info_answer};
ghost use Rattle.mailbox.specs.Table.{get_info, get_flash_info};
ghost use Rattle.mailbox.specs.Calls.{ran, obeyed_by};

use crate::Answer;
use crate::call::Call;
use refusals::{Code, Needs, Reason};
use session::with_version;
use units::{Blocks, Bytes};

// GET_INFO: agrees a version with the host, if its highest is not 0.
pub(crate) fn get_info(call: Call, memory: &[u8]) -> Result<Answer, Reason>
    requires { size_sound 64 (length memory.now) ≡ true }
    ensures { (flash worn : List ℕ) → ran result call flash worn memory.now ≡ obeyed_by get_info call flash worn memory.now }
{
    call.check(0, Needs::Nothing, call.registers[2] == 0)?;
    let blocks = Bytes::from(memory.len()).blocks();
    Ok(agree(call.numbered(), blocks))
}

// GET_FLASH_INFO: tells the flash's size and erase granule.
pub(crate) fn get_flash_info(call: Call, flash: &[u8]) -> Result<Answer, Reason>
    requires { size_sound 65535 (length flash.now) ≡ true }
    ensures { (worn memory : List ℕ) → ran result call flash.now worn memory ≡ obeyed_by get_flash_info call flash.now worn memory }
{
    call.check(1, Needs::Access, false)?;
    let blocks = Bytes::from(flash.len()).blocks();
    Ok(tell_flash(call.numbered(), blocks))
}

// Agrees the smaller of the host's highest version and 2.
fn agree(call: Call, memory: Blocks) -> Answer
    ensures { result ≡ info_answer (set_up call.board) call.session call.registers memory.0 }
{
    let version = call.registers[2].min(2);
    let arguments = if version < 2 {
        let [low, high, _, _] = memory.0.to_le_bytes();
        [version, low, high, low, high, 0, 0, 0, 0, 0, 0]
    } else {
        let [low, high] = call.board.timeout.to_le_bytes();
        [version, 0, 0, 0, 0, 12, low, high, 0, 0, 0]
    };
    call.answer(
        with_version(call.session, version),
        Code::Success,
        arguments,
        0,
    )
}

// The flash's size and erase granule: in bytes at version 1, in blocks from version 2 on.
fn tell_flash(call: Call, flash: Blocks) -> Answer
    ensures { result ≡ flash_info_answer call.session call.registers flash.0 }
{
    let arguments = if call.session.version < 2 {
        let [b0, b1, b2, b3, _, _, _, _] = flash.bytes().0.to_le_bytes();
        [b0, b1, b2, b3, 0, 16, 0, 0, 0, 0, 0]
    } else {
        let [low, high, _, _] = flash.0.to_le_bytes();
        [low, high, 1, 0, 0, 0, 0, 0, 0, 0, 0]
    };
    call.answer(call.session, Code::Success, arguments, 0)
}
