//! Loads, stores and copies of a memory.

ghost use Rattle.std.specs.Prelude.{IfOk};
ghost use Rattle.arena.specs.Bytes.{IsSize};

use crate::outcomes::{done_inside, nothing};
use arena::{Arena, BASE, Trace};
use cases::{CaseError, first_word};
use std::alloc::{AllocError, Global};

/// The most parts of a memory, few enough for `Arena::new`, which takes up to 2^28 bytes in all.
const MOST_PARTS: usize = 16;

/// The most bytes of a part, few enough for `Arena::new`, which takes up to 2^28 bytes in all.
const LARGEST_PART: usize = 4096;

/// The address in a text: a decimal number, or `+` and a distance in bytes from the first address of the memory (`BASE`). `Number` if the
/// number or the distance does not parse, `OutOfRange` if the sum is 2^64 or more.
fn address(text: &str) -> Result<u64, CaseError> {
    match text.strip_prefix('+') {
        Some(offset) => BASE
            .checked_add(offset.parse()?)
            .ok_or(CaseError::OutOfRange),
        None => Ok(text.parse()?),
    }
}

/// The size in bytes of a load or a store, from a word of a line: 1, 2, 4 or 8 (`IsSize`). `OutOfRange` for any other text.
fn size_of(text: &str) -> Result<usize, CaseError>
    ensures { IfOk result (λ size. IsSize size) }
{
    match text {
        "1" => Ok(1),
        "2" => Ok(2),
        "4" => Ok(4),
        "8" => Ok(8),
        _ => Err(CaseError::OutOfRange),
    }
}

/// A memory with `parts` parts, each of `size` bytes, all of them 0. `OutOfRange` if `parts` is 0 or above `MOST_PARTS`, or `size` is 0 or
/// above `LARGEST_PART`, so that `Arena::new` may be called; `Memory` if out of memory.
fn new_memory(alloc: Global, parts: usize, size: usize) -> Result<Arena, CaseError> {
    if parts < 1 || parts > MOST_PARTS || size < 1 || size > LARGEST_PART {
        return Err(CaseError::OutOfRange);
    }
    Ok(Arena::new(alloc, parts, size)?)
}

/// The memory from which the lines load and to which they store.
#[derive(Drop)]
pub struct MemoryPlayer {
    alloc: Global,
    arena: Arena,
}

impl MemoryPlayer {
    /// Makes a player for the lines of worked cases that begin with `memory`, which load, store and copy bytes of a memory. At first it has
    /// the smallest memory that `Arena` allows: one part of one zero byte. The line `memory new` replaces it by a memory of the size that a
    /// case needs. `AllocError`: out of memory.
    pub fn new(alloc: Global) -> Result<MemoryPlayer, AllocError> {
        Ok(MemoryPlayer {
            alloc,
            arena: Arena::new(alloc, 1, 1)?,
        })
    }

    /// Makes a new memory of zero bytes, for the lines that follow. `rest` has two words: the number of parts, and the size of each part in
    /// bytes. Returns the empty text. `Number` if a word is no number; `OutOfRange` if there are to be 0 parts or more than `MOST_PARTS`,
    /// or if the size is 0 or above `LARGEST_PART`; `Memory` if out of memory.
    fn begin(&mut self, rest: &str) -> Result<String, CaseError> {
        let (parts, size) = first_word(rest);
        self.arena = new_memory(self.alloc, parts.parse()?, size.parse()?)?;
        Ok(nothing(self.alloc))
    }

    /// Plays a line `memory load`, in which `rest` has the address and the size. The address is a number, or `+` and a distance from the
    /// memory's first address (`BASE`). Returns the little-endian number of so many bytes there, in decimal digits, or `outside` if the
    /// memory does not have all these bytes. `Number` if the number or the distance does not parse; `OutOfRange` if `BASE` and the distance
    /// add up to 2^64 or more, or the size is not 1, 2, 4 or 8; `Memory` if out of memory.
    fn load(&self, rest: &str) -> Result<String, CaseError> {
        let (at, size) = first_word(rest);
        match self
            .arena
            .load(address(at)?, size_of(size)?, &mut Trace::new())
        {
            Some(value) => Ok(value.to_string(self.alloc)?),
            None => Ok("outside".to_string(self.alloc)?),
        }
    }

    /// Plays a line `memory store`: stores the low bytes of a number, little-endian. `rest` has the address, the size, which is how many
    /// bytes are stored, 1, 2, 4 or 8, and the number. The address is a number, or `+` and a distance from the memory's first address
    /// (`BASE`). Returns the text `stored`, or `outside` if one of these bytes is not in the memory; then nothing is stored. `Number` if
    /// the address, its distance or the number does not parse; `OutOfRange` for another size, or if `BASE` and the distance add up to 2^64
    /// or more; `Memory` if out of memory.
    fn store(&mut self, rest: &str) -> Result<String, CaseError> {
        let (at, rest) = first_word(rest);
        let (size, value) = first_word(rest);
        let (at, size, value) = (address(at)?, size_of(size)?, value.parse()?);
        let outcome = self.arena.store(at, size, value, &mut Trace::new());
        Ok(done_inside(self.alloc, outcome, "stored")?)
    }

    /// Plays the call `copy` of a line: copies bytes in the memory. `rest` has the words after `copy`: the address of the target, that of
    /// the source, and the number of bytes. An address is a number, or `+` and a distance from the first address (`BASE`). Returns the text
    /// `copied`, or `outside` if the bytes at the source or those at the target do not all lie in the memory; then nothing is copied. The
    /// error is `Number` if an address or the number of bytes does not parse; `OutOfRange` if the sum of `BASE` and a distance is 2^64 or
    /// more, or the number of bytes is 0, since `Arena::copy` requires at least 1; `Memory` if out of memory.
    fn copy(&mut self, rest: &str) -> Result<String, CaseError> {
        let (to, rest) = first_word(rest);
        let (from, length) = first_word(rest);
        let (to, from, length) = (address(to)?, address(from)?, length.parse()?);
        if length == 0 {
            return Err(CaseError::OutOfRange);
        }
        let outcome = self.arena.copy(to, from, length, &mut Trace::new());
        Ok(done_inside(self.alloc, outcome, "copied")?)
    }

    /// Plays a line `memory bytes`: loads bytes one by one from an address on. `rest` has the words after `bytes`: the address, a number or
    /// `+` and a distance from the memory's first address (`BASE`), and how many bytes, 0 to 255. Returns the bytes as decimal numbers with
    /// spaces between, or the text `outside` if the memory does not have one of them. The error is `Number` if a word is no such number,
    /// `OutOfRange` if `BASE` and the distance add up to 2^64 or more, `Memory` if out of memory. The sum in the loop never overflows, so
    /// it gives no `OutOfRange`: the loop ends at the first address outside the memory, and the memory ends far below 2^64.
    fn bytes(&self, rest: &str) -> Result<String, CaseError> {
        let (from, count) = first_word(rest);
        let from = address(from)?;
        let count: u8 = count.parse()?;
        let mut text = String::new(self.alloc);
        for index in 0..count {
            let at = from
                .checked_add(u64::from(index))
                .ok_or(CaseError::OutOfRange)?;
            let Some(byte) = self.arena.load(at, 1, &mut Trace::new()) else {
                return Ok("outside".to_string(self.alloc)?);
            };
            if !text.is_empty() {
                text.push(' ')?;
            }
            text.push_str(&byte.to_string(self.alloc)?)?;
        }
        Ok(text)
    }

    /// Plays a call on the memory: `call`, the second word of a line, is its name, and `rest` has the words after that. `new` makes another
    /// memory, `load` and `bytes` read numbers, `store` writes a number, `copy` copies bytes. Returns the call's result as text.
    /// `UnknownWord` if no call has this name, `Number` if a number does not parse, `OutOfRange` if a number or a size is not allowed,
    /// `Memory` if out of memory.
    pub fn play(&mut self, call: &str, rest: &str) -> Result<String, CaseError> {
        match call {
            "new" => self.begin(rest),
            "load" => self.load(rest),
            "store" => self.store(rest),
            "copy" => self.copy(rest),
            "bytes" => self.bytes(rest),
            _ => Err(CaseError::UnknownWord),
        }
    }
}
