// The pairs of a list: checked, and marked.
ghost use Rattle.std.specs.Prelude.{◌≡◌, cond, ℕ, suc, ◌+◌, ◌≤◌, ◌<◌, leb, ltb, length, get_or};
ghost use Rattle.session.specs.Marks.{dirty};
ghost use Rattle.marklist.specs.MarkList.{Marked, pairs_of, first_outside, mark_pairs};
ghost use Rattle.marklist.specs.Reach.{ends_from, no_ends, farthest};

use crate::ListError;
use session::DIRTY;

// The first pair that does not lie in a window of this size, or that all may be marked.
#[tactic(auto, using(crate::proofs::InPairs::answer_front, crate::proofs::InPairs::none_left))]
pub(crate) fn first_outside(list: &[u16], size: u16) -> Result<(), ListError>
    requires { length list.now ≤ 128 }
    ensures { result ≡ first_outside size 0 (pairs_of list.now) }
{
    for (place, pair) in list.chunks_exact(2).enumerate() {
        if !is_inside(pair[0], pair[1], size) {
            return Err(ListError::Outside(place as u8));
        }
    }
    Ok(())
}

// All blocks of a pair lie in a window of this size.
fn is_inside(block: u16, count: u16, size: u16) -> bool
    ensures { result ≡ leb (block + count) size }
{
    u32::from(block) + u32::from(count) <= u32::from(size)
}

// The marks with those of all pairs dirty: first how far the pairs reach, then block after block, so that a pair of
// many blocks takes no more turns than one of a single block.
#[tactic(auto, using(crate::proofs::Reaching::reached_marked))]
pub(crate) fn mark_pairs(marks: [u8; 64], list: &[u16]) -> [u8; 64]
    requires { first_outside 64 0 (pairs_of list.now) ≡ Marked }
    ensures { result ≡ mark_pairs (pairs_of list.now) marks }
{
    let ends = farthest_ends(list);
    mark_reached(marks, ends)
}

// For each block the farthest end of the pairs that begin there, 0 where none does. A pair of no blocks may begin at
// block 64. 0 and no Option: `max` takes it as it is.
#[tactic(auto, using(crate::proofs::InPairs::pairs_front, crate::proofs::InPairs::none_left, crate::proofs::InPairs::inside_front), unfolding(crate::specs::Reach::no_ends))]
fn farthest_ends(list: &[u16]) -> [u8; 65]
    requires { first_outside 64 0 (pairs_of list.now) ≡ Marked }
    ensures { result ≡ ends_from (pairs_of list.now) no_ends }
{
    let mut ends = [0u8; 65];
    for pair in list.chunks_exact(2) {
        let block = pair[0] as usize;
        let end = pair[0] + pair[1];
        ends[block] = ends[block].max(end as u8);
    }
    ends
}

// The blocks dirty that a pair reaches which begins there or before.
fn mark_reached(marks: [u8; 64], ends: [u8; 65]) -> [u8; 64]
    ensures { (block : ℕ) → block < 64 → get_or result block 0 ≡ cond (ltb block (farthest (suc block) ends)) dirty (get_or marks block 0) }
{
    let mut next = marks;
    let mut reach = 0u8;
    for at in 0..64 {
        reach = reach.max(ends[at]);
        next[at] = dirty_if(at < reach as usize, marks[at]);
    }
    next
}

// A mark, or dirty in its place. In the loop itself this is a branch, and a list of 64 pairs takes 180 ns in place of 150.
fn dirty_if(reached: bool, mark: u8) -> u8
    ensures { result ≡ cond reached dirty mark }
{
    if reached { DIRTY } else { mark }
}
