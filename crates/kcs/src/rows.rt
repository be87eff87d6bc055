// What the rows of the table store: each only the bytes that it may change.
ghost use Rattle.std.specs.Prelude.{ℕ, ◌+◌, ◌≤◌, ◌≡◌, true, cond, ◌&&◌, ltb, length};
ghost use Rattle.buffers.specs.Ranges.{replace};
ghost use Rattle.kcs.specs.Port.{reading, aborting, failed};
ghost use Rattle.kcs.specs.Kinds.{phase_meant, fault_told};
ghost use Rattle.kcs.specs.Effects.{Keeps, Completes, Finishes, TooLong, has_room, has_next, on_data, left, showing, with_fault, with_place, told_message};
ghost use Rattle.kcs.specs.Accesses.{effected, with_control, next_byte, is_taken};
ghost use Rattle.kcs.specs.Bytes.{control_of, port_of, bytes_of};

use crate::phase::{Fault, Phase};
use buffers::copy;

// How many bytes a port has.
pub(crate) const SIZE: usize = 136;

// The number of the phase.
pub(crate) const PHASE: usize = 0;

// The status bits C/D# and OBF: 0 clear, any other number set.
pub(crate) const COMMAND: usize = 1;

pub(crate) const FULL: usize = 2;

// Data_Out: the byte that a read gets while OBF is set.
pub(crate) const OUTPUT: usize = 3;

// The status that a GET_STATUS/ABORT tells.
pub(crate) const FAULT: usize = 4;

// How many bytes of the request there are.
pub(crate) const LENGTH: usize = 5;

// Which byte of the response is the next, and how many it has.
const NEXT: usize = 6;

const END: usize = 7;

// The two buffers.
const REQUEST: usize = 8;

const RESPONSE: usize = 72;

// ---- the host writes

// OBF set on a byte, in this phase.
pub(crate) fn show(port: &mut [u8; SIZE], phase: Phase, byte: u8)
    ensures { port.new ≡ bytes_of (with_control (showing (phase_meant phase) byte (control_of port.old)) (port_of port.old)) }
{
    port[PHASE] = phase as u8;
    port[FULL] = 1;
    port[OUTPUT] = byte;
}

// The error state, with the status that 60 tells then.
pub(crate) fn refuse(port: &mut [u8; SIZE], fault: Fault)
    ensures { port.new
        ≡ bytes_of (with_control (showing failed 0x00 (with_fault (fault_told fault) (control_of port.old))) (port_of port.old)) }
{
    port[FAULT] = fault as u8;
    show(port, Phase::Failed, 0);
}

// A byte of the request, the last one or not; the answer is the length of the message that is complete with it.
pub(crate) fn keep(port: &mut [u8; SIZE], byte: u8, last: bool) -> Option<u8>
    ensures { ((given : ℕ) → port.new
        ≡ bytes_of (effected (cond (has_room (control_of port.old)) (cond last Completes Keeps) TooLong) given byte (port_of port.old)))
        × (result ≡ told_message (cond (has_room (control_of port.old)) (cond last Completes Keeps) TooLong) (control_of port.old)) }
{
    let length = port[LENGTH];
    if length >= 64 {
        refuse(port, Fault::TooLong);
        return None;
    }
    port[REQUEST + length as usize] = byte;
    let longer = length + 1;
    port[LENGTH] = longer;
    if !last {
        show(port, Phase::Writing, 0);
        return None;
    }
    port[PHASE] = Phase::Awaiting as u8;
    port[FULL] = 0;
    port[OUTPUT] = 0;
    Some(longer)
}

// A data byte while the host reads: 68, a byte of the standard, asks for the next byte, or ends the transfer.
pub(crate) fn read_on(port: &mut [u8; SIZE], byte: u8)
    ensures { port.new ≡ bytes_of (with_control
        (left (on_data reading true (has_next (control_of port.old)) byte) (next_byte (port_of port.old)) (control_of port.old))
        (port_of port.old)) }
{
    let next = port[NEXT];
    if byte != 0x68 {
        refuse(port, Fault::WrongCode);
        return;
    }
    if has_next(next, port[END]) {
        let given = port[RESPONSE + next as usize];
        port[NEXT] = next + 1;
        show(port, Phase::Reading, given);
        return;
    }
    finish(port);
}

// Whether the response has a byte more.
fn has_next(next: u8, end: u8) -> bool
    ensures { result ≡ (ltb next end && ltb next 64) }
{
    next < end && next < 64
}

// All was read, or there is nothing to read: the port is idle.
pub(crate) fn finish(port: &mut [u8; SIZE])
    ensures { port.new ≡ bytes_of (with_control (left Finishes 0x00 (control_of port.old)) (port_of port.old)) }
{
    port[FAULT] = Fault::NoError as u8;
    show(port, Phase::Idle, 0);
}

// 00 follows 60, and gets the status, which is all that is read then.
pub(crate) fn tell(port: &mut [u8; SIZE])
    ensures { (given : ℕ) → port.new ≡ bytes_of (with_control
        (left (on_data aborting true true 0x00) given (control_of port.old))
        (port_of port.old)) }
{
    let fault = port[FAULT];
    port[END] = 0;
    show(port, Phase::Reading, fault);
}

// ---- the controller answers

// Whether a response of this length is taken: it is awaited, and fits.
pub(crate) fn is_taken(port: &[u8; SIZE], length: usize) -> bool
    ensures { result ≡ is_taken length (control_of port.now) }
{
    // both are looked at: with the phase after the && 64 bytes take 5.3 ns, and 4.1 so
    let phase = Phase::from(port[PHASE]);
    length <= 64 && phase == Phase::Awaiting
}

// A response in its place; it fits there.
pub(crate) fn put_response(port: &mut [u8; SIZE], response: &[u8])
    requires { length response.now ≤ 64 }
    ensures { port.new ≡ replace 72 response.now port.old }
{
    let end = RESPONSE + response.len();
    // copy_from_slice calls memmove: 64 bytes take 6.3 ns with it, and 4.1 so
    copy(&mut port[RESPONSE..end], response);
}

// The response's first byte, of this many.
pub(crate) fn offer(port: &mut [u8; SIZE], count: u8, first: u8)
    ensures { port.new
        ≡ bytes_of (with_control (showing reading first (with_place 1 count (control_of port.old))) (port_of port.old)) }
{
    port[NEXT] = 1;
    port[END] = count;
    show(port, Phase::Reading, first);
}
