// A list of marks in one call, over a record.
ghost use Rattle.std.specs.Prelude.{◌≡◌, Err, false};
ghost use Rattle.session.specs.Machine.{set_up};
ghost use Rattle.refusals.specs.Refusals.{code_number};
ghost use Rattle.board.specs.Calls.{board, list_reply_of, marked_record, listed_record};

use crate::convert::{is_regular, record_of};
use crate::{ListReply, Record};
use marklist::{ListError, mark_list};
use refusals::Code;
use session::{Board, Session};

// Marks a list of pairs in a lent record; the lengths of the flash, its map and the window memory are in bytes.
pub fn hiomap_mark_list(
    held: &mut Record,
    list: &[u16],
    lpc: u16,
    timeout: u16,
    flash: usize,
    worn: usize,
    memory: usize,
) -> ListReply
    ensures { record { held = held.new; answer = result }
        ≡ listed_record (board lpc timeout) flash worn memory list.now held.old }
{
    match mark_all(*held, list, Board { lpc, timeout }, flash, worn, memory) {
        Ok(marked) => {
            *held = marked;
            unnamed(Code::Success)
        }
        Err(refused) => ListReply::from(refused),
    }
}

// Marks all pairs of the list dirty. A record with a number that stands for nothing is refused.
#[tactic(auto, using(crate::proofs::Listed::list_irregular, crate::proofs::Listed::list_marked, crate::proofs::Listed::list_refused))]
fn mark_all(
    held: Record,
    list: &[u16],
    board: Board,
    flash: usize,
    worn: usize,
    memory: usize,
) -> Result<Record, ListError>
    ensures { marked_record held result ≡ listed_record (set_up board) flash worn memory list.now held }
{
    if !is_regular(held) {
        return Err(ListError::Unsound);
    }
    let session = mark_list(Session::from(held), list, board, flash, worn, memory)?;
    Ok(record_of(session, held.previous))
}

// A refusal as its code, and the place that it names.
impl From<ListError> for ListReply {
    ghost from_gives = { λ refused reply. reply ≡ list_reply_of (Err refused) };

    fn from(refused: ListError) -> ListReply {
        match refused {
            ListError::Unsound => unnamed(Code::SystemError),
            ListError::OtherVersion => unnamed(Code::ParamError),
            ListError::Suspended => unnamed(Code::Busy),
            ListError::Windowless => unnamed(Code::WindowError),
            ListError::Malformed => unnamed(Code::ParamError),
            ListError::Outside(place) => ListReply {
                code: u8::from(Code::ParamError),
                named: true,
                place,
            },
        }
    }
}

// An answer that names no pair.
fn unnamed(code: Code) -> ListReply
    ensures { result ≡ record { code = code_number code; named = false; place = 0 } }
{
    ListReply {
        code: u8::from(code),
        named: false,
        place: 0,
    }
}
