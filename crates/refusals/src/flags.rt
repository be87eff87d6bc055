// The flags of a command.
ghost use Rattle.std.specs.Prelude.{◌≡◌, ℕ};
ghost use Rattle.refusals.specs.Refusals.{undefined_flags};

use session::Session;

// The flags of CLOSE_WINDOW are undefined: neither 0 nor 1, the hint of a short lifetime. Version 1 has no flags. As every
// argument rule this is stated for any S, which has no part in it.
pub fn undefined_flags(session: Session, registers: [u8; 16]) -> bool
    ensures { (S : ℕ) → result ≡ undefined_flags session registers S }
{
    session.version >= 2 && registers[2] > 1
}
