// The checks of the table in their order.
ghost use Rattle.std.specs.Prelude.{◌≡◌, true};
ghost use Rattle.refusals.specs.Refusals.{reason_for};

use crate::{Needs, Reason};
use session::{Session, Window};

// The first check of the table that refuses a command, if any, once the sizes, B and the session are sound: from whether
// the agreed version knows it, what it needs, and whether its argument rule is broken.
#[tactic(auto, unfolding(crate::specs::Refusals::reason_for))]
pub fn check(
    session: Session,
    registers: [u8; 16],
    known: bool,
    needs: Needs,
    broken: bool,
) -> Result<(), Reason>
    ensures { result ≡ reason_for true session registers known needs broken }
{
    if needs >= Needs::NewNumber && session.previous == Some(registers[1]) {
        return Err(Reason::Repeated);
    }
    if !known {
        return Err(Reason::Unknown);
    }
    if needs >= Needs::Access && session.suspended {
        return Err(Reason::Suspended);
    }
    if needs >= Needs::WriteWindow && session.window != Window::Write {
        return Err(Reason::Windowless);
    }
    if broken {
        return Err(Reason::Argument);
    }
    Ok(())
}
