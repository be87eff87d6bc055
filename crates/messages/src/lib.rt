// Hiomap commands as messages: which message is taken, the registers that it is unpacked to, and the response that is packed from the registers afterwards.
//
// The parameters of each command and version are those of one table, specs/Parameters.antt. Every message, version and content of the registers
// gets an answer.
#![tactic(auto)]

mod lengths;
mod packing;
mod taking;

pub use packing::{pack, refuse};
pub use taking::open_message;

// The network function and the command that the board reserves for hiomap.
#[derive(Clone, Copy)]
pub struct Pair {
    pub netfn: u8,
    pub command: u8,
}

// Why a message is not taken: it is too short to be answered, of another pair, or of a wrong length.
#[derive(Clone, Copy, PartialEq, Eq)]
pub enum Refusal {
    Short,
    Foreign,
    Malformed,
}

// A response: its bytes, zero behind them, and how many they are.
// A buffer with its length: C's MessageReply has these two, and there is no heap for a Vec.
#[derive(Clone, Copy)]
pub struct Response {
    pub bytes: [u8; 16],
    pub length: u32,
}
