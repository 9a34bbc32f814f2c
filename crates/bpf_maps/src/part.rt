//! A tenant's part of the memory: its stack, its context, and the areas of its maps, one after another.

ghost use Rattle.std.specs.Prelude.{◌≡◌, ◌+◌, ◌≤◌, ◌++◌, length, take, drop, replicate};

use tagged_model::LONGEST_KEY;
use words::STACK_SIZE;

/// The size of the space for the context in bytes. Its words take 44; with 64, the areas after it begin at a multiple of 64 bytes, and so
/// of eight, from the start of the part.
const CONTEXT_ROOM: usize = 64;

/// The size of the stack and the context together, in bytes. The areas begin after them.
pub const STACK_AND_CONTEXT: usize = STACK_SIZE + CONTEXT_ROOM;

/// The most live maps that a tenant may have, a limit of this project.
pub const MAPS: usize = 16;

/// The most bytes that the values of a tenant's live maps may take together, each rounded up to a multiple of eight. A limit of this
/// project.
pub const LARGEST_SUM: usize = 262_144;

/// The size of a part in bytes.
pub const PART: usize = STACK_AND_CONTEXT + LARGEST_SUM;

/// The room for the key that a request for the next key returns: the length of the longest key, in bytes.
pub const KEY_ROOM: usize = LONGEST_KEY as usize;

/// Writes `size` zeros into a tenant's part, from the offset `start` on; the other bytes are unchanged. All zeros have to lie in the part.
/// `Maps::create` clears the area of a new map by this, so that the values of a new array are zeros.
pub(crate) fn clear(part: &mut [u8], start: usize, size: usize)
    requires { start + size ≤ length part.old }
    ensures { part.new ≡ take start part.old ++ (replicate size 0 ++ drop (start + size) part.old) }
{
    part[start..start + size].fill(0);
}
