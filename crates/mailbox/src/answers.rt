// The answer to a command: the session that it leaves, the registers and the number of chip actions.
ghost use Rattle.std.specs.Prelude.{◌≡◌, Some, []};
ghost use Rattle.session.specs.Record.{with_marks, drop_window};
ghost use Rattle.flush.specs.Window.{left_marks};
ghost use Rattle.refusals.specs.Refusals.{code_number};
ghost use Rattle.mailbox.specs.Commands.{answer_with, answered};

use crate::Answer;
use crate::call::Call;
use flush::left_marks;
use refusals::Code;
use registers::{NO_ARGUMENTS, replied};
use session::{Session, without_window};
use soundness::with_marks;

impl Call {
    // The answer that leaves this session.
    pub(crate) fn answer(
        self,
        session: Session,
        code: Code,
        arguments: [u8; 11],
        actions: u32,
    ) -> Answer
        ensures { result ≡ answer_with session self.registers (code_number code) arguments actions }
    {
        Answer {
            session,
            registers: replied(self.registers, u8::from(code), arguments, session.events),
            actions,
        }
    }

    // A flush that stopped at a worn block: the window stays, with the marks that are left.
    pub(crate) fn stopped(self, failed: u32, actions: u32) -> Answer
        ensures { result ≡ answered (with_marks (left_marks (Some failed) self.session.marks) self.session) self.registers 3 [] actions }
    {
        let left = left_marks(self.session.marks, Some(failed));
        self.answer(
            with_marks(self.session, left),
            Code::WriteError,
            NO_ARGUMENTS,
            actions,
        )
    }

    // The window is dropped after so many actions.
    pub(crate) fn dropped(self, code: Code, actions: u32) -> Answer
        ensures { result ≡ answered (drop_window self.session) self.registers (code_number code) [] actions }
    {
        self.answer(without_window(self.session), code, NO_ARGUMENTS, actions)
    }
}
