// The event byte: what an acknowledgement clears of it, and the condition that tells a suspension.
ghost use Rattle.std.specs.Prelude.{◌≡◌};
ghost use Rattle.session.specs.Events.{control_lost, is_set, acknowledged};

// Access was resumed with changed flash, and the host has no window.
pub const WINDOW_RESET: u8 = 0x02;

// Flash access is suspended.
pub const CONTROL_LOST: u8 = 0x40;

// The two events, 0x01 and 0x02: no acknowledgement clears another bit.
const ACKNOWLEDGEABLE: u8 = 0x03;

// The event byte after an acknowledgement that names these bits.
pub fn acknowledge_events(events: u8, named: u8) -> u8
    ensures { result ≡ acknowledged named events }
{
    events & !(named & ACKNOWLEDGEABLE)
}

// Whether the event byte tells that flash access is suspended.
pub fn is_control_lost(events: u8) -> bool
    ensures { result ≡ is_set control_lost events }
{
    events & CONTROL_LOST == CONTROL_LOST
}
