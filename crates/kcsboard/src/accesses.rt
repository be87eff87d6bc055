// Each access of the host, and the controller's answer, over a record that C lends: kcs's own, in place.
ghost use Rattle.std.specs.Prelude.{◌≡◌};
ghost use Rattle.kcs.specs.Accesses.{status_read, byte_read, data_read, command_written, data_written, length_told, answers, answered};
ghost use Rattle.kcs.specs.Bytes.{port_of, bytes_of};

use kcs::{
    read_data_in_place, read_status_in_place, respond_in_place, write_command_in_place,
    write_data_in_place,
};

// The host reads the status register.
pub fn kcs_status(port: &[u8; 136]) -> u8
    ensures { result ≡ status_read (port_of port.now) }
{
    read_status_in_place(port)
}

// The host reads Data_Out.
pub fn kcs_read_data(port: &mut [u8; 136]) -> u8
    ensures { (port.new ≡ bytes_of (data_read (port_of port.old)))
        × (result ≡ byte_read (port_of port.old)) }
{
    read_data_in_place(port)
}

// The host writes to the command register.
pub fn kcs_write_command(port: &mut [u8; 136], code: u8)
    ensures { port.new ≡ bytes_of (command_written code (port_of port.old)) }
{
    write_command_in_place(port, code);
}

// The host writes to Data_In; the answer is the length of the message that this completed, or 0: C has no Option.
pub fn kcs_write_data(port: &mut [u8; 136], byte: u8) -> u8
    ensures { (port.new ≡ bytes_of (data_written byte (port_of port.old)))
        × (result ≡ length_told byte (port_of port.old)) }
{
    write_data_in_place(port, byte)
}

// The controller answers the message that was handed over; the answer is whether it was taken.
pub fn kcs_respond(port: &mut [u8; 136], response: &[u8]) -> bool
    ensures { (port.new ≡ bytes_of (answered response.now (port_of port.old)))
        × (result ≡ answers response.now (port_of port.old)) }
{
    respond_in_place(port, response)
}
