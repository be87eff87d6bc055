// The flush of a window's marked blocks: all of its chip actions, or one at a time.
//
// `marked` works on the part of the flash that the window covers, which its caller lends, and sees
// neither the chip's size nor the session nor the map of worn blocks. `worn` says how far a flush comes by
// the window's part of that map. `window` takes these parts out of the whole, where the session is sound,
// and has the marks before the first failing erase flushed.
#![tactic(auto)]

mod marked;
mod window;
mod worn;

pub use window::{Flush, StepError, advance, flush_window};
pub use worn::left_marks;
