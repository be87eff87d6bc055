// Chip actions: the erase of a block and the programming of a page.
//
// A flash here is the part of the chip that is lent for a window's blocks, so block b of it is
// written from block b of the window. An action outside of it answers no and changes nothing.
#![tactic(auto)]

ghost use Rattle.std.specs.Prelude.{◌≡◌};
ghost use Rattle.chip.specs.Actions.{has_block, erase_block, has_page, program_page};

use buffers::{and, fill};
use units::{BLOCK, Blocks};

// The bytes of a page.
const PAGE: usize = 256;

// The pages of a block.
pub const PAGES: u32 = 16;

// What an erased byte holds.
pub const ERASED: u8 = 0xff;

// Erases a block: the action itself, `fill`, is lent only the block's own bytes.
pub fn erase_block(flash: &mut [u8], block: Blocks) -> bool
    ensures { (result ≡ has_block block.0 flash.old)
        × (flash.new ≡ erase_block block.0 flash.old) }
{
    let start = block.bytes().0 as usize;
    let end = start + BLOCK as usize;
    // No get_mut(start..end): std's clauses do not say what the flash holds after it.
    if flash.len() < end {
        return false;
    }
    fill(&mut flash[start..end], ERASED);
    true
}

// Programs a page of a block from the same page of the window: a bit can only be cleared.
pub fn program_page(flash: &mut [u8], window: &[u8], block: Blocks, page: u32) -> bool
    ensures { (result ≡ has_page block.0 page window.now flash.old)
        × (flash.new ≡ program_page block.0 page window.now flash.old) }
{
    let start = block.bytes().0 as usize;
    let end = start + BLOCK as usize;
    if PAGES <= page || flash.len() < end || window.len() < end {
        return false;
    }
    let from = start + (page as usize) * PAGE;
    let to = from + PAGE;
    and(&mut flash[from..to], &window[from..to]);
    true
}
