// A call of the mediator as each command gets it, and its checks.
ghost use Rattle.std.specs.Prelude.{◌≡◌, ◌≤◌, true, leb};
ghost use Rattle.session.specs.Marks.{counts_of};
ghost use Rattle.refusals.specs.Refusals.{reason_for};

use refusals::{Needs, Reason, check};
use session::{Board, Session};

// What a call is given beside the buffers, of a session that is sound.
#[derive(Clone, Copy)]
pub struct Call {
    pub session: Session,
    pub registers: [u8; 16],
    pub board: Board,
    ghost few: { session.size ≤ 64 },
    ghost counted: { session.counts ≡ counts_of session.marks },
}

impl Call {
    // The call with another session.
    pub(crate) fn with_session(self, session: Session) -> Call
        requires few { session.size ≤ 64 }
        requires counted { session.counts ≡ counts_of session.marks }
        ensures session { result.session ≡ session }
        ensures registers { result.registers ≡ self.registers }
        ensures board { result.board ≡ self.board }
    {
        let registers = self.registers;
        Call {
            session,
            registers,
            board: self.board,
        }
    }

    // The check that refuses a command which versions know from one on, if one does.
    pub(crate) fn check(self, since: u8, needs: Needs, broken: bool) -> Result<(), Reason>
        ensures { result ≡ reason_for true self.session self.registers (leb since self.session.version) needs broken }
    {
        check(
            self.session,
            self.registers,
            since <= self.session.version,
            needs,
            broken,
        )
    }
}
