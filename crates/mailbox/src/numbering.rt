// The number of a call, and its refusal.
//
// A command's function is called once the sizes, B and the session are sound, and answers the check that refuses it instead of an answer.
ghost use Rattle.std.specs.Prelude.{◌≡◌, Err, List, ℕ};
ghost use Rattle.mailbox.specs.Commands.{outcome, numbered};
ghost use Rattle.mailbox.specs.Table.{unknown};
ghost use Rattle.mailbox.specs.Calls.{ran, obeyed_by};

use crate::Answer;
use crate::call::Call;
use refusals::{Needs, Reason, code_for};
use registers::NO_ARGUMENTS;
use session::with_previous;

impl Call {
    // The call with its number as the previous one.
    pub(crate) fn numbered(self) -> Call
        ensures session { result.session ≡ numbered self.session self.registers }
        ensures registers { result.registers ≡ self.registers }
        ensures board { result.board ≡ self.board }
    {
        self.with_session(with_previous(self.session, Some(self.registers[1])))
    }

    // A refusal by a check after the first: the call's number becomes the previous one.
    pub(crate) fn refused(self, reason: Reason) -> Answer
        ensures { (flash worn memory : List ℕ) → outcome result flash worn memory ≡ ran (Err reason) self flash worn memory }
    {
        let code = code_for(self.session.version, Err(reason));
        self.answer(self.numbered().session, code, NO_ARGUMENTS, 0)
    }
}

// A code that no version up to 2 knows.
pub(crate) fn unknown(call: Call) -> Result<Answer, Reason>
    ensures { (flash worn memory : List ℕ) → ran result call flash worn memory ≡ obeyed_by unknown call flash worn memory }
{
    call.check(0, Needs::NewNumber, false)?;
    Err(Reason::Unknown)
}
