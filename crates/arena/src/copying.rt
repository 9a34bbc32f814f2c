//! Copies of bytes. A short one is made of two pieces of a fixed length, which takes a few loads and stores and no call of memcpy.
//!
//! # Decisions
//!
//! A piece is read into an array before it is written. From slice to slice, the machine code of a run tested for each piece whether the two
//! overlap, and had a copy byte by byte for that case: a load of four bytes took 49 machine instructions, and then 39.
//!
//! The lengths are tested by halves: each takes at most three comparisons but a single byte, and the headers of a packet, of 16 to 32
//! bytes, two.

ghost use Rattle.std.specs.Prelude.{◌≡◌, ◌+◌, ◌≤◌, length, take};
ghost use Rattle.words.specs.Bytes.{written_at};

/// The first `N` of at least `N` bytes, copied to an array. The caller, `copy_piece`, then copies the array to other bytes: LLVM knows that
/// these do not overlap it.
#[inline(always)]
fn first_bytes<const N: usize>(bytes: &[u8]) -> [u8; N]
    requires { N ≤ length bytes.now }
    ensures { result ≡ take N bytes.now }
{
    let mut first = [0; N];
    first.copy_from_slice(&bytes[..N]);
    first
}

/// Copies `bytes`, of which there are exactly `N` (`length`), to `offset` in `to`, which has room for them there (`room`). The other bytes
/// of `to` are unchanged. A short copy is one or two such pieces: as `N` is a constant, each is a few loads and stores. The bytes are
/// copied by way of an array (`first_bytes`), so LLVM has no overlap to test for.
#[inline(always)]
fn copy_piece<const N: usize>(to: &mut [u8], offset: usize, bytes: &[u8])
    requires length { length bytes.now ≡ N }
    requires room { offset + N ≤ length to.old }
    ensures { to.new ≡ written_at to.old offset bytes.now }
{
    let piece = first_bytes::<N>(bytes);
    to[offset..offset + N].copy_from_slice(&piece);
}

/// Copies `bytes` to `offset` of `to`, which has room for them there (`room`), in two pieces of `N` bytes: the first `N` and the last `N`
/// of `bytes`. As `bytes` has `N` (`least`) to 2 `N` bytes (`most`), the pieces cover all of them, and may overlap. As `N` is a constant,
/// each piece is a few loads and stores, so a short copy needs no call of memcpy.
#[inline(always)]
fn copy_by_ends<const N: usize>(to: &mut [u8], offset: usize, bytes: &[u8])
    requires least { N ≤ length bytes.now }
    requires most { length bytes.now ≤ N + N }
    requires room { offset + length bytes.now ≤ length to.old }
    ensures { to.new ≡ written_at to.old offset bytes.now }
{
    let last = bytes.len() - N;
    copy_piece::<N>(to, offset, &bytes[..N]);
    copy_piece::<N>(to, offset + last, &bytes[last..]);
}

/// Copies `bytes`, any number of them, to an offset of `to`. `copy_bytes`, which is inlined, calls it for more than 64 bytes. It is a
/// function of its own, so that `copy_bytes` has only a call for a long copy.
#[inline(never)]
fn copy_many(to: &mut [u8], offset: usize, bytes: &[u8])
    requires { offset + length bytes.now ≤ length to.old }
    ensures { to.new ≡ written_at to.old offset bytes.now }
{
    to[offset..offset + bytes.len()].copy_from_slice(bytes);
}

/// Copies `bytes` to the offset `offset` of `to`, which has room for them there; the other bytes of `to` are unchanged (`written_at`). 2 to
/// 64 bytes are copied as two pieces of a constant length: the first N and the last N bytes, which may overlap (`copy_by_ends`); N is 2, 4,
/// 8, 16 or 32. So the machine code has a few loads and stores, and no call of memcpy. A single byte is one piece (`copy_piece`). More than
/// 64 bytes take a call (`copy_many`), and for an empty slice nothing is done. The function `copy_bytes` of `numbers.rt` copies within one
/// slice.
#[inline(always)]
pub(crate) fn copy_bytes(to: &mut [u8], offset: usize, bytes: &[u8])
    requires { offset + length bytes.now ≤ length to.old }
    ensures { to.new ≡ written_at to.old offset bytes.now }
{
    let count = bytes.len();
    if count >= 16 {
        if count <= 32 {
            copy_by_ends::<16>(to, offset, bytes);
        } else if count <= 64 {
            copy_by_ends::<32>(to, offset, bytes);
        } else {
            copy_many(to, offset, bytes);
        }
    } else if count >= 4 {
        if count >= 8 {
            copy_by_ends::<8>(to, offset, bytes);
        } else {
            copy_by_ends::<4>(to, offset, bytes);
        }
    } else if count >= 2 {
        copy_by_ends::<2>(to, offset, bytes);
    } else if count == 1 {
        copy_piece::<1>(to, offset, bytes);
    }
}
