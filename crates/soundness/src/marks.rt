// One look at all marks, and a session with others.
ghost use Rattle.std.specs.Prelude.{◌≡◌, cond, ◌&&◌, List, ◌∷◌, ℕ, ◌<◌, leb, eqb};
ghost use Rattle.session.specs.Marks.{counts_of};
ghost use Rattle.session.specs.Record.{with_marks};
ghost use Rattle.soundness.specs.Soundness.{marks_sound};

use session::{Counts, DIRTY, ERASED, Session, ZERO_COUNTS, of_kind, with_counted};

// The largest mark that there is.
const LAST_MARK: u8 = 2;

// A look at the numbers alone: any block may be marked.
pub(crate) const EVERY_BLOCK: u16 = 64;

// What the look tells: whether the marks are those of a window of which so many blocks may be marked, and their numbers,
// which mean something either way, so that this is no Option.
#[derive(Clone, Copy)]
pub struct Look {
    pub within: bool,
    pub counts: Counts,
}

// All marks are looked at, whatever the first ones are: a loop without a way out, whose count is as narrow as
// a mark, compiles to a few vector instructions. So it keeps the largest mark and where the last marked block
// ends, and compares them when it is over.
#[tactic(auto, using(crate::proofs::SoundMarks::looked_more, crate::proofs::Counting::counts_more, crate::proofs::Counting::few_counted))]
pub(crate) fn look_at(marks: [u8; 64], markable: u16) -> Look
    ensures { (result.within ≡ marks_sound markable marks) × (result.counts ≡ counts_of marks) }
{
    let mut largest: u8 = 0;
    let mut end: u8 = 0;
    let mut counts = ZERO_COUNTS;
    for block in 0..64u8 {
        let mark = marks[block as usize];
        largest = largest.max(mark);
        end = end.max(end_if_marked(mark, block + 1));
        counts = count(counts, mark);
    }
    Look {
        within: is_within(largest, end, markable),
        counts,
    }
}

// Other marks, counted.
pub fn with_marks(session: Session, marks: [u8; 64]) -> Session
    ensures { result ≡ with_marks marks session }
{
    with_counted(session, marks, look_at(marks, EVERY_BLOCK).counts)
}

// The largest mark is one, and the last marked block may be marked.
fn is_within(largest: u8, end: u8, markable: u16) -> bool
    ensures { result ≡ (leb largest 2 && leb end markable) }
{
    largest <= LAST_MARK && u16::from(end) <= markable
}

// Where a block ends, if it is marked.
fn end_if_marked(mark: u8, end: u8) -> u8
    ensures { result ≡ cond (eqb mark 0) 0 end }
{
    if mark == 0 { 0 } else { end }
}

// The numbers of some marks, with one mark more.
fn count(counts: Counts, mark: u8) -> Counts
    requires { (counts.dirty < 255) × (counts.erased < 255) }
    ensures { (marks : List ℕ) → counts ≡ counts_of marks → result ≡ counts_of (mark ∷ marks) }
{
    Counts {
        dirty: counts.dirty + of_kind(mark, DIRTY),
        erased: counts.erased + of_kind(mark, ERASED),
    }
}
