// Each access of the host, and the controller's answer, over the port's bytes: a branch stores the bytes that it may change alone.
ghost use Rattle.std.specs.Prelude.{◌≡◌};
ghost use Rattle.kcs.specs.Effects.{Opens, left};
ghost use Rattle.kcs.specs.Accesses.{with_control, status_read, byte_read, data_read, command_written, data_written, message_told, answers, answered};
ghost use Rattle.kcs.specs.Bytes.{control_of, port_of, bytes_of};

use crate::phase::{Fault, Phase};
use crate::rows::{
    COMMAND, FAULT, FULL, LENGTH, OUTPUT, PHASE, SIZE, finish, is_taken, keep, offer, put_response,
    read_on, refuse, show, tell,
};

// The status register: the state in bits 7 and 6, C/D# in bit 3, OBF in bit 0.
pub(crate) fn read_status(port: &[u8; SIZE]) -> u8
    ensures { result ≡ status_read (port_of port.now) }
{
    Phase::from(port[PHASE]).state_bits() * 64
        + (u8::from(port[COMMAND] != 0) * 8 + u8::from(port[FULL] != 0))
}

// The host reads Data_Out, which clears OBF; where it is clear a read gives 00.
#[tactic(auto, using(crate::proofs::Places::read_left))]
pub(crate) fn read_data(port: &mut [u8; SIZE]) -> u8
    ensures { (port.new ≡ bytes_of (data_read (port_of port.old))) × (result ≡ byte_read (port_of port.old)) }
{
    let full = port[FULL];
    port[FULL] = 0;
    if full == 0 { 0 } else { port[OUTPUT] }
}

// The host writes to the command register: 60 and 61 are taken in every phase, 62 in the write phase that 61 opens.
pub(crate) fn write_command(port: &mut [u8; SIZE], code: u8)
    ensures { port.new ≡ bytes_of (command_written code (port_of port.old)) }
{
    let phase = Phase::from(port[PHASE]);
    port[COMMAND] = 1;
    // the codes are bytes of the standard, and each stands here alone; a match and no table, since each arm stores other bytes
    match code {
        0x60 => show(port, Phase::Aborting, 0),
        0x61 => open(port),
        0x62 => {
            if phase == Phase::Writing {
                show(port, Phase::Ending, 0);
            } else {
                refuse(port, Fault::WrongCode);
            }
        }
        _ => refuse(port, Fault::WrongCode),
    }
}

// A write phase begins, and the status that 60 tells is that of an abort.
fn open(port: &mut [u8; SIZE])
    ensures { port.new ≡ bytes_of (with_control (left Opens 0x00 (control_of port.old)) (port_of port.old)) }
{
    port[LENGTH] = 0;
    port[FAULT] = Fault::Aborted as u8;
    show(port, Phase::Writing, 0);
}

// The host writes to Data_In, by the phase that the byte comes in; the answer is the length of the message that this completed.
pub(crate) fn write_data(port: &mut [u8; SIZE], byte: u8) -> Option<u8>
    ensures { (port.new ≡ bytes_of (data_written byte (port_of port.old))) × (result ≡ message_told byte (port_of port.old)) }
{
    let phase = Phase::from(port[PHASE]);
    port[COMMAND] = 0;
    // one arm for both phases of a request: with two, this becomes a jump through a table, which is slower; and READ's arm is the first: the
    // compiler then asks for Aborting before Reading, and a wrong byte after 60 takes 2.8 ns for 3.5
    match phase {
        Phase::Reading => read_on(port, byte),
        Phase::Writing | Phase::Ending => return keep(port, byte, phase == Phase::Ending),
        // the byte is looked at here: in `tell` a wrong one takes half a nanosecond more
        Phase::Aborting if byte == 0 => tell(port),
        Phase::Aborting | Phase::Idle | Phase::Awaiting | Phase::Failed => {
            refuse(port, Fault::WrongCode);
        }
    }
    None
}

// The controller answers the message that was handed over; the answer is whether it was taken.
pub(crate) fn respond(port: &mut [u8; SIZE], response: &[u8]) -> bool
    ensures { (port.new ≡ bytes_of (answered response.now (port_of port.old)))
        × (result ≡ answers response.now (port_of port.old)) }
{
    if !is_taken(port, response.len()) {
        return false;
    }
    if response.is_empty() {
        finish(port);
        return true;
    }
    put_response(port, response);
    // by index, after the copy: with first() before it 64 bytes take 4.7 ns, and 4.1 so
    offer(port, response.len() as u8, response[0]);
    true
}
