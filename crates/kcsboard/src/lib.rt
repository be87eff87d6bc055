// The C boundary of a KCS port: C's record, and the functions that C links, which the crate kcsboard_c exports.
//
// An access is lent the 136 bytes of C's record, so that no buffer of it is copied. Every record, every byte and every length gets
// an answer. References that C lends must be valid and must not overlap: include/kcs.h.
#![tactic(auto)]

mod accesses;

ghost use Rattle.std.specs.Prelude.{◌≡◌};
ghost use Rattle.kcs.specs.Port.{fresh};
ghost use Rattle.kcsboard.specs.Record.{record_of};

pub use accesses::{kcs_read_data, kcs_respond, kcs_status, kcs_write_command, kcs_write_data};

// A port as C keeps it: bytes alone, also for the phase and the flags, since C may set any.
#[repr(C)]
#[derive(Clone, Copy)]
pub struct Record {
    // 0 idle, 1 writing, 2 ending, 3 awaiting, 4 reading, 5 aborting; any other is the error phase, which a refusal sets to 6.
    pub phase: u8,
    // The status bits C/D# and OBF: 0 clear, any other number set.
    pub command: u8,
    pub full: u8,
    // Data_Out: the byte that a read gets while OBF is set.
    pub output: u8,
    // The status that a GET_STATUS/ABORT tells.
    pub fault: u8,
    // How many bytes of the request there are.
    pub length: u8,
    // Which byte of the response is the next, and how many it has.
    pub next: u8,
    pub end: u8,
    pub request: [u8; 64],
    pub response: [u8; 64],
}

// A fresh port.
#[tactic(auto, unfolding(kcs::specs::Port::fresh))]
pub fn kcs_fresh() -> Record
    ensures { result ≡ record_of fresh }
{
    Record {
        phase: 0,
        command: 0,
        full: 0,
        output: 0,
        fault: 0,
        length: 0,
        next: 0,
        end: 0,
        request: [0; 64],
        response: [0; 64],
    }
}
