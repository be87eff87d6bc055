// Each access of the host, and the controller's answer, over bytes that the caller lends.
//
// A slice that has not 136 bytes is no port: it stays as it is. These stay beside `Port`: C's bytes are lent here, and the clauses
// say what a slice of another length gets (docs/STATEMENTS.md).
ghost use Rattle.std.specs.Prelude.{◌≡◌, false, length};
ghost use Rattle.kcs.specs.Accesses.{status_read, byte_read, data_read, command_written, data_written, length_told, answers, answered};
ghost use Rattle.kcs.specs.Bytes.{port_of, bytes_of};

use crate::accesses::{read_data, read_status, respond, write_command, write_data};

// The host reads the status register.
pub fn read_status_in_place(port: &[u8]) -> u8
    ensures { (length port.now ≡ 136 → result ≡ status_read (port_of port.now))
        × ((length port.now ≡ 136 → ⊥) → result ≡ 0) }
{
    match port.as_array() {
        Some(port) => read_status(port),
        None => 0,
    }
}

// The host reads Data_Out.
pub fn read_data_in_place(port: &mut [u8]) -> u8
    ensures { (length port.old ≡ 136
        → (port.new ≡ bytes_of (data_read (port_of port.old))) × (result ≡ byte_read (port_of port.old)))
        × ((length port.old ≡ 136 → ⊥) → (port.new ≡ port.old) × (result ≡ 0)) }
{
    match port.as_mut_array() {
        Some(port) => read_data(port),
        None => 0,
    }
}

// The host writes to the command register.
pub fn write_command_in_place(port: &mut [u8], code: u8)
    ensures { (length port.old ≡ 136 → port.new ≡ bytes_of (command_written code (port_of port.old)))
        × ((length port.old ≡ 136 → ⊥) → port.new ≡ port.old) }
{
    if let Some(port) = port.as_mut_array() {
        write_command(port, code);
    }
}

// The host writes to Data_In; the answer is the length of the message that this completed, or 0.
#[tactic(auto, using(crate::proofs::Phases::told_number))]
pub fn write_data_in_place(port: &mut [u8], byte: u8) -> u8
    ensures { (length port.old ≡ 136
        → (port.new ≡ bytes_of (data_written byte (port_of port.old))) × (result ≡ length_told byte (port_of port.old)))
        × ((length port.old ≡ 136 → ⊥) → (port.new ≡ port.old) × (result ≡ 0)) }
{
    // a number, and no Option: the C interface hands it on
    match port.as_mut_array() {
        Some(port) => write_data(port, byte).unwrap_or(0),
        None => 0,
    }
}

// The controller answers the message that was handed over; the answer is whether it was taken.
pub fn respond_in_place(port: &mut [u8], response: &[u8]) -> bool
    ensures { (length port.old ≡ 136
        → (port.new ≡ bytes_of (answered response.now (port_of port.old)))
        × (result ≡ answers response.now (port_of port.old)))
        × ((length port.old ≡ 136 → ⊥) → (port.new ≡ port.old) × (result ≡ false)) }
{
    match port.as_mut_array() {
        Some(port) => respond(port, response),
        None => false,
    }
}
