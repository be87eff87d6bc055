// Messages over the record that crate board has for a session: the function that C calls (crate ipmiboard_c exports it).
//
// Every message, every record and every buffer length gets an answer. References that C lends must be valid and must not
// overlap: include/hiomap.h.
#![tactic(auto)]

mod message;

pub use message::hiomap_message;

// What a message gives back: the response's bytes, zero behind them, how many they are, and the number of chip actions. A buffer with its
// length, since C has it so (include/hiomap.h).
#[repr(C)]
#[derive(Clone, Copy)]
pub struct MessageReply {
    pub response: [u8; 16],
    pub length: u32,
    pub actions: u32,
}
