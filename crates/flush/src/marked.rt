// The flush of 64 marks, over the window's own part of the flash.
ghost use Rattle.std.specs.Prelude.{◌≡◌, cond, ◌∷◌, [], ◌≤◌, ◌<◌, ltb, length, take, drop};
ghost use Rattle.chip.specs.Actions.{erase_block};
ghost use Rattle.session.specs.Marks.{erases, programs};
ghost use Rattle.flush.specs.Actions.{pages_from, block_actions, flush_actions, perform_all};
ghost use Rattle.flush.specs.Locate.{Located, nth_of, start_of};

use chip::{PAGES, erase_block, program_page};
use session::{mark_erases, mark_programs};
use units::Blocks;

// Where an action stands: its block, and which of the block's actions it is.
#[derive(Clone, Copy)]
pub struct Place {
    pub block: u32,
    pub nth: u32,
}

// Does all actions, and answers their number.
#[tactic(auto, using(crate::proofs::Lists::flush_none, crate::proofs::Lists::perform_none, crate::proofs::Lists::count_most, crate::proofs::Lists::count_more, crate::proofs::Lists::flushed_more, crate::proofs::Lists::block_count))]
pub(crate) fn flush_marked(part: &mut [u8], memory: &[u8], marks: [u8; 64]) -> u32
    ensures { (result ≡ length (flush_actions marks))
        × (part.new ≡ perform_all memory.now (flush_actions marks) part.old) }
{
    let mut actions: u32 = 0;
    for i in 0..64u32 {
        actions += flush_block(part, memory, Blocks(i), marks[i as usize]);
    }
    actions
}

// Does the action after the first so many, and answers whether there was one.
#[tactic(auto, using(crate::proofs::Lists::none_left))]
pub(crate) fn step_marked(part: &mut [u8], memory: &[u8], marks: [u8; 64], done: u64) -> bool
    ensures { (result ≡ ltb done (length (flush_actions marks)))
        × (part.new ≡ perform_all memory.now (take 1 (drop done (flush_actions marks))) part.old) }
{
    let Some(place) = locate(marks, done) else {
        return false;
    };
    act(part, memory, Blocks(place.block), place.nth);
    true
}

// All actions of a block with a mark, and their number.
#[tactic(auto, using(crate::proofs::Lists::block_count, crate::proofs::Lists::block_is))]
fn flush_block(part: &mut [u8], memory: &[u8], block: Blocks, mark: u8) -> u32
    ensures { (result ≡ length (block_actions block.0 mark))
        × (part.new ≡ perform_all memory.now (block_actions block.0 mark) part.old) }
{
    erase_marked(part, block, mark);
    program_marked(part, memory, block, mark);
    actions_of(mark)
}

// The erase of a block, if its mark asks for it.
fn erase_marked(part: &mut [u8], block: Blocks, mark: u8)
    ensures { part.new ≡ cond (erases mark) (erase_block block.0 part.old) part.old }
{
    if mark_erases(mark) {
        erase_block(part, block);
    }
}

// The page actions of a block, if its mark asks for them.
#[tactic(auto, using(crate::proofs::Lists::perform_none))]
fn program_marked(part: &mut [u8], memory: &[u8], block: Blocks, mark: u8)
    ensures { part.new ≡ perform_all memory.now (cond (programs mark) (pages_from block.0 0 16) []) part.old }
{
    if mark_programs(mark) {
        program_block(part, memory, block);
    }
}

// The page actions of a block, in rising order.
#[tactic(auto, using(crate::proofs::Lists::perform_none, crate::proofs::Lists::pages_done))]
fn program_block(part: &mut [u8], memory: &[u8], block: Blocks)
    ensures { part.new ≡ perform_all memory.now (pages_from block.0 0 16) part.old }
{
    for page in 0..PAGES {
        program_page(part, memory, block, page);
    }
}

// One action of a block: the erase comes first, then the pages.
#[tactic(auto, using(crate::proofs::Acting::acted_erase, crate::proofs::Acting::acted_page))]
fn act(part: &mut [u8], memory: &[u8], block: Blocks, nth: u32)
    ensures { part.new ≡ perform_all memory.now (nth_of block.0 nth ∷ []) part.old }
{
    if nth == 0 {
        erase_block(part, block);
    } else {
        program_page(part, memory, block, nth - 1);
    }
}

// How many actions a mark asks for.
#[tactic(auto, using(crate::proofs::Lists::block_sum))]
fn actions_of(mark: u8) -> u32
    ensures { result ≡ length (block_actions 0 mark) }
{
    let erase = u32::from(mark_erases(mark));
    let pages = if mark_programs(mark) { PAGES } else { 0 };
    erase + pages
}

// Which of a block's actions a mark begins with: the erase, or the first page.
fn first_action(mark: u8) -> u32
    ensures { result ≡ start_of mark }
{
    u32::from(!mark_erases(mark))
}

// The place of the action after the first so many; none past the end.
#[tactic(auto, using(crate::proofs::Lists::flush_none, crate::proofs::Lists::nth_of_lem, crate::proofs::Lists::count_more, crate::proofs::Lists::block_count))]
fn locate(marks: [u8; 64], done: u64) -> Option<Place>
    ensures { Located (flush_actions marks) done result }
{
    let mut left = done;
    for i in 0..64u32 {
        let mark = marks[i as usize];
        let count = u64::from(actions_of(mark));
        if left < count {
            return Some(Place {
                block: i,
                nth: first_action(mark) + left as u32,
            });
        }
        left -= count;
    }
    None
}
