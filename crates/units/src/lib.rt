// Blocks and bytes: the two units of the protocol, kept apart by their types.
//
// A number of blocks and a number of bytes meet only through `bytes` and `blocks`. A count of
// blocks has 32 bits and a count of bytes 64, so the bytes of every count of blocks fit. The other
// way every 32-bit length is rounded up exactly, and a length that needs more blocks than can be
// counted gives the largest count, which no chip has.
#![tactic(auto)]

ghost use Rattle.std.specs.Prelude.{◌≡◌};
ghost use Rattle.units.specs.Units.{to_bytes, to_blocks};

// The bytes of a block, which is also the erase granule.
pub const BLOCK: u64 = 4096;

// A number of blocks, or the number of a block.
#[derive(Clone, Copy, PartialEq, Eq, PartialOrd, Ord)]
pub struct Blocks(pub u32);

// A number of bytes, or the offset of a byte.
#[derive(Clone, Copy, PartialEq, Eq, PartialOrd, Ord)]
pub struct Bytes(pub u64);

// Methods, and no From between the two: a name says which unit comes out, and `blocks` does not give back what `bytes` got.
impl Blocks {
    // The bytes of so many blocks, which is also the offset where the block of this number starts.
    pub fn bytes(self) -> Bytes
        ensures { result.0 ≡ to_bytes self.0 }
    {
        Bytes(u64::from(self.0) * BLOCK)
    }
}

// A length of a lent slice is a number of bytes.
impl From<usize> for Bytes {
    ghost from_gives = { λ length bytes. bytes.0 ≡ length };

    fn from(length: usize) -> Bytes {
        Bytes(length as u64)
    }
}

// The protocol's numbers of blocks have 16 bits.
impl From<u16> for Blocks {
    ghost from_gives = { λ count blocks. blocks.0 ≡ count };

    fn from(count: u16) -> Blocks {
        Blocks(u32::from(count))
    }
}

impl Bytes {
    // The blocks that hold so many bytes: rounded up.
    pub fn blocks(self) -> Blocks
        ensures { result.0 ≡ to_blocks self.0 }
    {
        let count = self.0.div_ceil(BLOCK);
        Blocks(u32::try_from(count).unwrap_or(u32::MAX))
    }
}
