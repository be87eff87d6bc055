// The functions of a KCS port that C links (include/kcs.h): each hands its call to the crate kcsboard.
//
// A crate that others use is no static library, so the exports stand here, with kcsboard's contracts, and nothing else does.
#![tactic(auto)]

ghost use Rattle.std.specs.Prelude.{◌≡◌};
ghost use Rattle.kcs.specs.Port.{fresh};
ghost use Rattle.kcs.specs.Accesses.{status_read, byte_read, data_read, command_written, data_written, length_told, answers, answered};
ghost use Rattle.kcs.specs.Bytes.{port_of, bytes_of};
ghost use Rattle.kcsboard.specs.Record.{record_of};

use kcsboard::Record;

// A fresh port.
#[unsafe(no_mangle)]
pub extern "C" fn kcs_fresh() -> Record
    ensures { result ≡ record_of fresh }
{
    kcsboard::kcs_fresh()
}

// The host reads the status register.
#[unsafe(no_mangle)]
pub extern "C" fn kcs_status(port: &[u8; 136]) -> u8
    ensures { result ≡ status_read (port_of port.now) }
{
    kcsboard::kcs_status(port)
}

// The host reads Data_Out.
#[unsafe(no_mangle)]
pub extern "C" fn kcs_read_data(port: &mut [u8; 136]) -> u8
    ensures { (port.new ≡ bytes_of (data_read (port_of port.old)))
        × (result ≡ byte_read (port_of port.old)) }
{
    kcsboard::kcs_read_data(port)
}

// The host writes to the command register.
#[unsafe(no_mangle)]
pub extern "C" fn kcs_write_command(port: &mut [u8; 136], code: u8)
    ensures { port.new ≡ bytes_of (command_written code (port_of port.old)) }
{
    kcsboard::kcs_write_command(port, code);
}

// The host writes to Data_In; the answer is the length of the message that this completed, or 0.
#[unsafe(no_mangle)]
pub extern "C" fn kcs_write_data(port: &mut [u8; 136], byte: u8) -> u8
    ensures { (port.new ≡ bytes_of (data_written byte (port_of port.old)))
        × (result ≡ length_told byte (port_of port.old)) }
{
    kcsboard::kcs_write_data(port, byte)
}

// The controller answers the message that was handed over; the answer is whether it was taken.
#[unsafe(no_mangle)]
pub extern "C" fn kcs_respond(port: &mut [u8; 136], response: &[u8]) -> bool
    ensures { (port.new ≡ bytes_of (answered response.now (port_of port.old)))
        × (result ≡ answers response.now (port_of port.old)) }
{
    kcsboard::kcs_respond(port, response)
}
