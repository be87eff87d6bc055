// The archive that C links for messages: the function of crate ipmiboard that C calls, under its C name.
//
// It is an archive of its own: in one with hiomap_command the mediator had two callers, and was compiled in place in neither
// (docs/PERFORMANCE.md). The export only calls the library's function and states its clause again. References that C lends must be
// valid and must not overlap: include/hiomap.h.
#![tactic(auto)]

ghost use Rattle.std.specs.Prelude.{◌≡◌};
ghost use Rattle.board.specs.Calls.{board};
ghost use Rattle.ipmiboard.specs.Messages.{tells_message, messaged_record};

use board::Record;
use ipmiboard::MessageReply;

// Serves one message over a lent record.
#[unsafe(no_mangle)]
pub extern "C" fn hiomap_message(
    held: &mut Record,
    netfn: u8,
    command: u8,
    message: &[u8],
    lpc: u16,
    timeout: u16,
    flash: &mut [u8],
    worn: &[u8],
    memory: &mut [u8],
) -> MessageReply
    ensures { tells_message (record { held = held.new; reply = result }) flash.new memory.new
        ≡ messaged_record (board lpc timeout) (record { netfn = netfn; command = command }) message.now held.old flash.old worn.now memory.old }
{
    ipmiboard::hiomap_message(
        held, netfn, command, message, lpc, timeout, flash, worn, memory,
    )
}
