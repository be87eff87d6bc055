// How far a flush of 64 marks comes on a chip with worn blocks, over the window's own part of the map.
ghost use Rattle.std.specs.Prelude.{◌≡◌, ◌&&◌, ◌-◌, ◌≤◌, ltb, take, replicate};
ghost use Rattle.buffers.specs.Ranges.{replace};
ghost use Rattle.session.specs.Marks.{erases};
ghost use Rattle.flush.specs.Actions.{flush_actions};
ghost use Rattle.flush.specs.Worn.{is_worn, finished_by, failing_block};
ghost use Rattle.flush.specs.Window.{left_marks};

use session::mark_erases;

// The first block whose erase fails, if one does. The map is read at the blocks that are to be erased, and at no others.
#[tactic(auto, using(crate::proofs::Failing::finished_start, crate::proofs::Failing::finished_none, crate::proofs::Failing::finished_here, crate::proofs::Failing::finished_past))]
pub(crate) fn failing_block(worn: &[u8], marks: [u8; 64]) -> Option<u32>
    ensures { result ≡ failing_block worn.now marks }
{
    for i in 0..64u32 {
        if erase_fails(worn, i as usize, marks[i as usize]) {
            return Some(i);
        }
    }
    None
}

// A block with a mark is to be erased, and is worn.
fn erase_fails(worn: &[u8], block: usize, mark: u8) -> bool
    ensures { result ≡ (erases mark && is_worn worn.now block) }
{
    mark_erases(mark) && block < worn.len() && worn[block] != 0
}

// The marks of the blocks before the one that fails, by which a flush does these blocks alone.
#[tactic(auto, using(crate::proofs::Failing::cleared_behind))]
pub(crate) fn first_marks(marks: [u8; 64], failed: Option<u32>) -> [u8; 64]
    requires { finished_by failed ≤ 64 }
    ensures { flush_actions result ≡ flush_actions (take (finished_by failed) marks) }
{
    match failed {
        Some(block) => without(marks, block as usize, 64),
        None => marks,
    }
}

// The marks that a flush leaves: those from the block on whose erase failed, and none where none did.
pub fn left_marks(marks: [u8; 64], failed: Option<u32>) -> [u8; 64]
    ensures { result ≡ left_marks failed marks }
{
    match failed {
        Some(block) if block < 64 => without(marks, 0, block as usize),
        _ => [0; 64],
    }
}

// The marks with those of some blocks cleared.
fn without(marks: [u8; 64], start: usize, end: usize) -> [u8; 64]
    requires { (start ≤ end) × (end ≤ 64) }
    ensures { result ≡ replace start (replicate (end - start) 0) marks }
{
    let mut left = marks;
    left[start..end].fill(0);
    left
}
