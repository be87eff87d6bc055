// The blocks of the window that the arguments of a command name.
ghost use Rattle.std.specs.Prelude.{◌≡◌, not, ◌&&◌, ◌+◌, ◌-◌, ◌<◌, ◌≤◌, leb};
ghost use Rattle.refusals.specs.Refusals.{range_of, blocks_named, flush_marks};

use crate::BlockRange;
use registers::{read_length, read_words};
use session::Session;
use units::{Blocks, Bytes};

// A FLUSH adds marks: at version 1, where its length is not 0.
pub fn flush_marks(session: Session, registers: [u8; 16]) -> bool
    ensures { result ≡ flush_marks session registers }
{
    session.version < 2 && read_length(registers) != 0
}

// The window's blocks that MARK_DIRTY, ERASE, or FLUSH at version 1, names; as an error where they do not all lie in it.
pub fn blocks_named(session: Session, registers: [u8; 16]) -> Result<BlockRange, BlockRange>
    ensures { result ≡ range_of (blocks_named session registers) }
{
    let words = read_words(registers);
    let named = Blocks::from(words.first);
    let size = Blocks::from(session.size);
    if session.version < 2 {
        let count = Bytes(u64::from(read_length(registers))).blocks();
        within(Blocks::from(session.first), size, named, count)
    } else {
        within(Blocks(0), size, named, Blocks::from(words.second))
    }
}

// A FLUSH adds marks, and their blocks do not all lie in the window.
pub fn flush_outside(session: Session, registers: [u8; 16]) -> bool
    ensures { result ≡ (flush_marks session registers && not (blocks_named session registers).inside) }
{
    flush_marks(session, registers) && blocks_named(session, registers).is_err()
}

// Of blocks that are counted from where a window is counted from, those of the window; as an error where they do not all lie in it.
fn within(
    first: Blocks,
    size: Blocks,
    named: Blocks,
    count: Blocks,
) -> Result<BlockRange, BlockRange>
    requires { (first.0 < 65536) × (size.0 < 65536) × (named.0 < 65536) × (count.0 ≤ 1048576) }
    ensures { result ≡ range_of (record {
      inside = leb first.0 named.0 && leb (named.0 + count.0) (first.0 + size.0);
      start = named.0 - first.0;
      count = count.0;
    }) }
{
    let range = BlockRange {
        start: named.0.saturating_sub(first.0),
        count: count.0,
    };
    if named.0 < first.0 || named.0 + count.0 > first.0 + size.0 {
        return Err(range);
    }
    Ok(range)
}
