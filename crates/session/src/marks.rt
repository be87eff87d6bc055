// The marks of window blocks, by what they ask of a flush, and the numbers kept of them.
ghost use Rattle.std.specs.Prelude.{◌≡◌};
ghost use Rattle.session.specs.Marks.{erases, programs, of_kind, same_counts, none_marked};

use crate::Counts;

// Nothing is asked. Marks are bytes and no enum: C's record may hold any byte, and `marks_sound` answers of each.
pub(crate) const CLEAN: u8 = 0;

// The block is to become the window's bytes.
pub const DIRTY: u8 = 1;

// The block is to become FF.
pub const ERASED: u8 = 2;

// How many of each kind there are where nothing is marked.
pub const ZERO_COUNTS: Counts = Counts {
    dirty: 0,
    erased: 0,
};

// Whether a block with this mark is erased.
pub fn mark_erases(mark: u8) -> bool
    ensures { result ≡ erases mark }
{
    matches!(mark, DIRTY | ERASED)
}

// Whether its pages are programmed.
pub fn mark_programs(mark: u8) -> bool
    ensures { result ≡ programs mark }
{
    mark == DIRTY
}

// What a mark counts among those of a kind: 1 if it is one, else 0.
pub fn of_kind(mark: u8, kind: u8) -> u8
    ensures { result ≡ of_kind kind mark }
{
    u8::from(mark == kind)
}

// Whether the number of each kind is the same in both. It stays beside `==`: docs/STATEMENTS.md names it.
pub fn same_counts(counts: Counts, others: Counts) -> bool
    ensures { result ≡ same_counts counts others }
{
    counts == others
}

// Whether nothing is marked, by these numbers.
pub fn none_marked(counts: Counts) -> bool
    ensures { result ≡ none_marked counts }
{
    same_counts(counts, ZERO_COUNTS)
}
