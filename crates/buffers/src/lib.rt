// Bytes of lent buffers: a part filled with one value, ANDed with another, and copied over.
//
// Each function goes over the part that it is lent by a call of memset, or in vector code.
// The definitions also say what it is to replace a range of a buffer.
#![tactic(auto)]

ghost use Rattle.std.specs.Prelude.{◌≡◌, length, replicate};
ghost use Rattle.buffers.specs.Ranges.{and_each, copy_each};

// Sets every byte of the part to value: the name that docs/STATEMENTS.md gives to `fill` of a slice.
pub fn fill(part: &mut [u8], value: u8)
    ensures { part.new ≡ replicate (length part.old) value }
{
    part.fill(value);
}

// ANDs each byte of the part with the byte of other at the same place, where other has one.
pub fn and(part: &mut [u8], other: &[u8])
    ensures { part.new ≡ and_each part.old other.now }
{
    let end = part.len().min(other.len());
    // No iter_mut().zip(other): std's clauses do not say what the part holds after that loop.
    for (i, byte) in part[..end].iter_mut().enumerate() {
        *byte &= other[i];
    }
}

// Copies the bytes of other over those of the part, as far as both go. A loop of its own beside `and`: a closure over each pair of
// bytes is no plainer than these lines.
pub fn copy(part: &mut [u8], other: &[u8])
    ensures { part.new ≡ copy_each part.old other.now }
{
    let end = part.len().min(other.len());
    // No copy_from_slice: it calls memmove, and of the C library the archives call memset alone (docs/INTEGRATION.md).
    for (i, byte) in part[..end].iter_mut().enumerate() {
        *byte = other[i];
    }
}
