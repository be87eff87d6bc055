// Suspend, resume and the steps of a flush over a record.
ghost use Rattle.std.specs.Prelude.{◌≡◌, Err};
ghost use Rattle.session.specs.Suspension.{left};
ghost use Rattle.flush.specs.Window.{step_code, step_yes};
ghost use Rattle.refusals.specs.Refusals.{code_number};
ghost use Rattle.board.specs.Record.{session_of};
ghost use Rattle.board.specs.Calls.{answer_of, suspended_record, resumed_record, changed_record, stepped_by, stepped_record};

use crate::convert::{is_regular, record_of};
use crate::{Record, Stepped, Suspended};
use flush::{StepError, advance};
use refusals::Code;
use session::{Session, resume, resume_changed, suspend};

// Flash access is suspended.
pub fn hiomap_suspend(held: Record) -> Suspended
    ensures { result ≡ suspended_record held }
{
    with_numbers(held, suspend(Session::from(held)), held.window)
}

// Flash access is resumed, and the flash is as it was.
pub fn hiomap_resume(held: Record) -> Suspended
    ensures { result ≡ resumed_record held }
{
    with_numbers(held, resume(Session::from(held)), held.window)
}

// Flash access is resumed, and the flash was changed meanwhile: the window is dropped.
pub fn hiomap_resume_changed(held: Record) -> Suspended
    ensures { result ≡ changed_record held }
{
    with_numbers(held, resume_changed(Session::from(held)), 0)
}

// Yes and the record afterwards, with a window number, or no and the record as it was. Whether there is a
// previous number stays, whatever it is.
fn with_numbers(held: Record, answer: Option<Session>, window: u8) -> Suspended
    ensures { result ≡ answer_of window held (left (session_of held) answer) }
{
    match answer {
        Some(session) => Suspended {
            done: true,
            held: Record {
                numbered: held.numbered,
                window,
                ..record_of(session, held.previous)
            },
        },
        None => Suspended { done: false, held },
    }
}

// Advances the flush by one action, from the number of actions already done. Only the flash changes, and from the erase
// of a worn block on nothing.
pub fn hiomap_step(held: Record, flash: &mut [u8], worn: &[u8], memory: &[u8], done: u64) -> Stepped
    ensures { stepped_by result flash.new ≡ stepped_record held worn.now memory.now done flash.old }
{
    if !is_regular(held) {
        return stepped(Err(StepError::Unsound));
    }
    stepped(advance(Session::from(held), flash, worn, memory, done))
}

// A step's answer as a code and yes or no.
fn stepped(step: Result<bool, StepError>) -> Stepped
    ensures { (result.code ≡ step_code step) × (result.acted ≡ step_yes step) }
{
    match step {
        Ok(acted) => Stepped {
            code: u8::from(Code::Success),
            acted,
        },
        Err(error) => Stepped {
            code: u8::from(code_of(error)),
            acted: false,
        },
    }
}

// The code of a step that is refused, or whose erase fails. No From: both types are other crates'.
fn code_of(error: StepError) -> Code
    ensures { code_number result ≡ step_code (Err error) }
{
    match error {
        StepError::Unsound => Code::SystemError,
        StepError::Suspended => Code::Busy,
        StepError::Failed => Code::WriteError,
    }
}
