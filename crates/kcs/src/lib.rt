// The controller's side of a KCS port (IPMI, section 9): the port's record, and a call for each access of the host and for the
// controller's answer.
//
// The record is a `Port`, or lent as its bytes (`in_place`). Every record and every byte gets an answer, also records that no
// access leaves.
#![tactic(auto)]

mod accesses;
mod in_place;
mod phase;
mod rows;

ghost use Rattle.std.specs.Prelude.{◌≡◌};
ghost use Rattle.kcs.specs.Port.{fresh};
ghost use Rattle.kcs.specs.Accesses.{status_read, byte_read, data_read, command_written, data_written, length_told, message_told, answers, answered};
ghost use Rattle.std.specs.Option.{unwrap_or};
ghost use Rattle.kcs.specs.Bytes.{port_of, bytes_of};

pub use in_place::{
    read_data_in_place, read_status_in_place, respond_in_place, write_command_in_place,
    write_data_in_place,
};

// A port, as C keeps it: eight controls, then 64 bytes of request and 64 of response. `rows` has their places.
// The buffers and their lengths are an array, and no struct: C lends the bytes, and no buffer of them is copied.
#[derive(Clone, Copy)]
pub struct Port {
    pub bytes: [u8; 136],
}

impl Port {
    // A fresh port.
    #[tactic(auto, unfolding(crate::specs::Port::fresh))]
    pub fn new() -> Port
        ensures { result.bytes ≡ bytes_of fresh }
    {
        Port { bytes: [0; 136] }
    }

    // The host reads the status register.
    pub fn read_status(&self) -> u8
        ensures { result ≡ status_read (port_of self.now.bytes) }
    {
        accesses::read_status(&self.bytes)
    }

    // The host reads Data_Out.
    pub fn read_data(&mut self) -> u8
        ensures { (self.new.bytes ≡ bytes_of (data_read (port_of self.old.bytes)))
            × (result ≡ byte_read (port_of self.old.bytes)) }
    {
        accesses::read_data(&mut self.bytes)
    }

    // The host writes to the command register.
    pub fn write_command(&mut self, code: u8)
        ensures { self.new.bytes ≡ bytes_of (command_written code (port_of self.old.bytes)) }
    {
        accesses::write_command(&mut self.bytes, code);
    }

    // The host writes to Data_In; the answer is the length of the message that this completed, the number that is told in place.
    #[tactic(auto, using(crate::proofs::Phases::told_number))]
    pub fn write_data(&mut self, byte: u8) -> Option<u8>
        ensures written { (self.new.bytes ≡ bytes_of (data_written byte (port_of self.old.bytes)))
            × (result ≡ message_told byte (port_of self.old.bytes)) }
        ensures number { unwrap_or result 0 ≡ length_told byte (port_of self.old.bytes) }
    {
        accesses::write_data(&mut self.bytes, byte)
    }

    // The controller answers the message that was handed over; the answer is whether it was taken.
    pub fn respond(&mut self, response: &[u8]) -> bool
        ensures { (self.new.bytes ≡ bytes_of (answered response.now (port_of self.old.bytes)))
            × (result ≡ answers response.now (port_of self.old.bytes)) }
    {
        accesses::respond(&mut self.bytes, response)
    }
}
