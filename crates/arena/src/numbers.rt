//! Little-endian numbers in byte slices.

ghost use Rattle.std.specs.Prelude.{◌≡◌, ◌+◌, ◌≤◌, length};
ghost use Rattle.words.specs.Bytes.{number_of, low_bytes};
ghost use Rattle.arena.specs.Bytes.{bytes_at, written_at, IsSize};

/// The little-endian number of `size` bytes (1, 2, 4 or 8) at offset `at`.
#[inline(always)]
pub(crate) fn read(bytes: &[u8], at: usize, size: usize) -> u64
    requires size { IsSize size }
    requires within { at + size ≤ length bytes.now }
    ensures { result ≡ number_of (bytes_at bytes.now at size) }
{
    if size == 8 {
        read_double(bytes, at)
    } else if size == 4 {
        u64::from(read_word(bytes, at))
    } else if size == 2 {
        u64::from(u16::from_le_bytes([bytes[at], bytes[at + 1]]))
    } else {
        u64::from(bytes[at])
    }
}

/// The little-endian number of the four bytes at offset `at`.
#[inline(always)]
fn read_word(bytes: &[u8], at: usize) -> u32
    requires { at + 4 ≤ length bytes.now }
    ensures { result ≡ number_of (bytes_at bytes.now at 4) }
{
    u32::from_le_bytes([bytes[at], bytes[at + 1], bytes[at + 2], bytes[at + 3]])
}

/// The little-endian number of the eight bytes, a double word, from offset `at` of `bytes` on.
#[inline(always)]
fn read_double(bytes: &[u8], at: usize) -> u64
    requires { at + 8 ≤ length bytes.now }
    ensures { result ≡ number_of (bytes_at bytes.now at 8) }
{
    u64::from_le_bytes([
        bytes[at],
        bytes[at + 1],
        bytes[at + 2],
        bytes[at + 3],
        bytes[at + 4],
        bytes[at + 5],
        bytes[at + 6],
        bytes[at + 7],
    ])
}

/// The number that the eight bytes at offset `at` spell, little-endian. It is that of `read_double`, with another contract: the number's
/// bytes (`low_bytes 8`) are those at `at`. `copy_double`, which writes the bytes of the number, needs this.
#[inline(always)]
fn spelled_double(bytes: &[u8], at: usize) -> u64
    requires { at + 8 ≤ length bytes.now }
    ensures { low_bytes 8 result ≡ bytes_at bytes.now at 8 }
{
    read_double(bytes, at)
}

/// The low four bytes of a number, which are a word in eBPF, the lowest first. `write` stores them for the size 4.
#[inline(always)]
fn low_word(value: u64) -> [u8; 4]
    ensures { result ≡ low_bytes 4 value }
{
    ((value % 0x1_0000_0000) as u32).to_le_bytes()
}

/// The low two bytes of a number, which are a half word in eBPF, the lowest first.
#[inline(always)]
fn low_half(value: u64) -> [u8; 2]
    ensures { result ≡ low_bytes 2 value }
{
    ((value % 0x1_0000) as u16).to_le_bytes()
}

/// The low byte of a number, as an array of this one byte, since `put` writes a slice of bytes.
#[inline(always)]
fn low_byte(value: u64) -> [u8; 1]
    ensures { result ≡ low_bytes 1 value }
{
    ((value % 0x100) as u8).to_le_bytes()
}

/// Writes the low `size` bytes of `value`, little-endian, over the bytes at offset `at` of `bytes`. `size` is 1, 2, 4 or 8 (`IsSize`), and
/// all of these bytes are in `bytes` (`within`). Each size converts only the bytes that it writes, for speed. If each size converted all
/// eight bytes of `value` and wrote the first `size` of them, the machine code of a store of two or four bytes would also store the eight
/// on the machine's stack. And in `dispatch` of `flat_machine`, the arm for an eBPF store of a constant and the arm for an eBPF store of a
/// register would be compiled to share one jump to the arm of the next opcode. The processor predicts a jump from the earlier targets of
/// this jump. So each of the two arms has a jump of its own, with a history of its own.
#[inline(always)]
pub(crate) fn write(bytes: &mut [u8], at: usize, size: usize, value: u64)
    requires size { IsSize size }
    requires within { at + size ≤ length bytes.old }
    ensures { bytes.new ≡ written_at bytes.old at (low_bytes size value) }
{
    if size == 8 {
        put(bytes, at, &value.to_le_bytes());
    } else if size == 4 {
        put(bytes, at, &low_word(value));
    } else if size == 2 {
        put(bytes, at, &low_half(value));
    } else {
        put(bytes, at, &low_byte(value));
    }
}

/// Copies the eight bytes at offset `from` to offset `to`, as one number; other bytes are unchanged. The ranges may overlap, since the
/// number is read before any byte is written. `copy_bytes` calls this function if it has to copy eight bytes.
#[inline(always)]
pub(crate) fn copy_double(bytes: &mut [u8], from: usize, to: usize)
    requires source { from + 8 ≤ length bytes.old }
    requires target { to + 8 ≤ length bytes.old }
    ensures { bytes.new ≡ written_at bytes.old to (bytes_at bytes.old from 8) }
{
    let double = spelled_double(bytes, from);
    write(bytes, to, 8, double);
}

/// From this number of bytes on, ranges that do not overlap are copied by a call of memcpy: `copy_within` becomes a loop of sixteen bytes a
/// turn, which takes longer for so many. Only speed depends on the number; it is sixteen turns.
const LONG: usize = 256;

/// Copies `count` bytes from offset `from` to offset `to`, which is at their end or after it, by memcpy. It is a function of its own, so
/// that `copy_bytes`, which is inlined, has only a call for it.
#[inline(never)]
fn copy_up(bytes: &mut [u8], from: usize, to: usize, count: usize)
    requires source { from + count ≤ to }
    requires target { to + count ≤ length bytes.old }
    ensures { bytes.new ≡ written_at bytes.old to (bytes_at bytes.old from count) }
{
    let (low, high) = bytes.split_at_mut(to);
    high[..count].copy_from_slice(&low[from..from + count]);
}

/// Copies `count` bytes from offset `from` to a lower offset `to`, by memcpy. By `target` the copy ends at `from` or before it, so the two
/// ranges do not overlap. It is a function of its own, so that `copy_bytes`, which is inlined, has only a call for it.
#[inline(never)]
fn copy_down(bytes: &mut [u8], from: usize, to: usize, count: usize)
    requires source { from + count ≤ length bytes.old }
    requires target { to + count ≤ from }
    ensures { bytes.new ≡ written_at bytes.old to (bytes_at bytes.old from count) }
{
    let (low, high) = bytes.split_at_mut(from);
    low[to..to + count].copy_from_slice(&high[..count]);
}

/// Copies `count` bytes of `bytes` from offset `from` to offset `to` like memmove: the ranges may overlap. The cases differ only in speed:
/// eight bytes are copied as one number, `LONG` bytes or more by memcpy if the ranges do not overlap, and all others by `copy_within`.
/// Bytes of another slice are copied by `copying::copy_bytes`.
#[inline(always)]
pub(crate) fn copy_bytes(bytes: &mut [u8], from: usize, to: usize, count: usize)
    requires source { from + count ≤ length bytes.old }
    requires target { to + count ≤ length bytes.old }
    ensures { bytes.new ≡ written_at bytes.old to (bytes_at bytes.old from count) }
{
    if count == 8 {
        copy_double(bytes, from, to);
    } else if count >= LONG && from + count <= to {
        copy_up(bytes, from, to, count);
    } else if count >= LONG && to + count <= from {
        copy_down(bytes, from, to, count);
    } else {
        bytes.copy_within(from..from + count, to);
    }
}

/// Writes `new` over the bytes from offset `at` on, as many as `new` has. By the precondition `bytes` has all of them.
#[inline(always)]
fn put(bytes: &mut [u8], at: usize, new: &[u8])
    requires { at + length new.now ≤ length bytes.old }
    ensures { bytes.new ≡ written_at bytes.old at new.now }
{
    bytes[at..at + new.len()].copy_from_slice(new);
}
