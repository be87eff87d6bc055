// The records of the bench program carried out: what one does to the session, the flash and the window memory.
//
// Every record, every session and every buffer length gets an answer.
#![tactic(auto)]

ghost use Rattle.std.specs.Prelude.{◌≡◌, length, IfSome};
ghost use Rattle.std.specs.Option.{option_map};
ghost use Rattle.session.specs.Machine.{set_up, lent};
ghost use Rattle.session.specs.Suspension.{left};
ghost use Rattle.script.specs.Effects.{none_worn, fill_allowed, filled, silent, effected, effect_read};
ghost use Rattle.records.specs.Records.{next_of, record_at};

use mailbox::command;
use records::{Item, Record, read_record};
use session::{Board, Session, Window, resume, resume_changed, suspend};
use units::Blocks;

// What a record that keeps the rules leaves: the session, and the registers that answer a command.
#[derive(Clone, Copy)]
pub struct Served {
    pub session: Session,
    pub answer: Option<[u8; 16]>,
}

// A record that was carried out, and the offset past it.
#[derive(Clone, Copy)]
pub struct Step {
    pub served: Served,
    pub next: usize,
}

// Carries out the record at an offset of the input; none where it breaks a rule, and then nothing is
// changed.
pub fn serve_at(
    input: &[u8],
    at: usize,
    session: Session,
    board: Board,
    flash: &mut [u8],
    memory: &mut [u8],
) -> Option<Step>
    ensures effect { effected session (option_map (λ s. s.served) result) flash.new memory.new
        ≡ effect_read (set_up board) (record_at input.now at) (lent session flash.old none_worn memory.old) }
    ensures next { IfSome result (λ s. s.next ≡ next_of (record_at input.now at)) }
{
    let item = read_record(input, at)?;
    let served = serve(Some(item), session, board, flash, memory)?;
    Some(Step {
        served,
        next: item.next,
    })
}

// Carries out what was read; none where a rule is broken, and then nothing is changed. A command is lent
// the map of the bench's chip, four good blocks, so that with a flash of another size it is refused.
pub fn serve(
    item: Option<Item>,
    session: Session,
    board: Board,
    flash: &mut [u8],
    memory: &mut [u8],
) -> Option<Served>
    ensures { effected session result flash.new memory.new
        ≡ effect_read (set_up board) item (lent session flash.old none_worn memory.old) }
{
    // a match and no table: each arm is lent something else
    match item?.body {
        Record::Command { registers } => {
            // S = 4, and no block is worn
            let worn = [0u8; 4];
            let answer = command(session, registers, board, flash, &worn, memory);
            Some(Served {
                session: answer.session,
                answer: Some(answer.registers),
            })
        }
        Record::Fill {
            offset,
            count,
            value,
        } => fill_window(session, memory, offset, count, value).then_some(silent(session)),
        Record::Suspend => Some(moved(session, suspend(session))),
        Record::Resume => Some(moved(session, resume(session))),
        Record::ResumeChanged => Some(moved(session, resume_changed(session))),
    }
}

// Whether suspend or resume answered yes is not asked.
fn moved(before: Session, after: Option<Session>) -> Served
    ensures { result ≡ silent (left before after).session }
{
    silent(after.unwrap_or(before))
}

// No command was asked, and no registers answer.
fn silent(session: Session) -> Served
    ensures { result ≡ silent session }
{
    Served {
        session,
        answer: None,
    }
}

// The host fills a range of the active write window; the answer says whether it may. A refused fill
// changes nothing.
pub fn fill_window(session: Session, memory: &mut [u8], offset: u32, count: u32, value: u8) -> bool
    ensures allowed { result ≡ fill_allowed session (length memory.old) offset count }
    ensures filled { memory.new ≡ filled session offset count value memory.old }
{
    if session.window != Window::Write {
        return false;
    }
    let end = u64::from(offset) + u64::from(count);
    if Blocks(u32::from(session.size)).bytes().0 < end {
        return false;
    }
    if (memory.len() as u64) < end {
        return false;
    }
    memory[offset as usize..end as usize].fill(value);
    true
}
