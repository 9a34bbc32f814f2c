//! The descriptor table.

ghost use Rattle.std.specs.Prelude.{◌≡◌, ◌+◌, ◌<◌, ◌≤◌, IfOk, IfSome, is_none, position};
ghost use Rattle.std.specs.Option.{option_copied};
ghost use Rattle.fd_table.specs.Table.{first_descriptor, most, nothing_open, named, lowest, with_closed, OpensLowest};

use std::alloc::{AllocError, Global};
use std::marker::Model;

/// The lowest descriptor. 0 to 2, the standard streams of a process, name nothing here.
pub const FIRST: u32 = 3;

/// How many descriptors may be open at once: as many as a word has bits, since a bit mask has one for each.
pub const MOST: usize = 64;

/// The open objects by descriptor. Contracts see a list of `MOST` options: at index k, from 0, the object that descriptor `FIRST` + k
/// names, or `None` if this descriptor is free.
#[derive(Drop)]
pub struct FdTable<T> {
    /// The list that contracts see.
    entries: Vec<Option<T>>,
    /// Bit k is 1 if descriptor `FIRST` + k is open, and 0 if it is free.
    taken: u64,
}

impl<T> Model for FdTable<T> {
    ghost use Rattle.std.specs.Prelude.{◌≡◌, List, Option, vec_len};
    ghost use Rattle.fd_table.specs.Table.{most};
    ghost use Rattle.fd_table.specs.Bits.{MarksTaken};

    ghost Value = { List (Option T) };

    ghost view = { λ t. t.entries.items };

    ghost invariant = { λ t. (vec_len t.entries ≡ most) × MarksTaken t.taken t.entries.items };
}

/// The list of a table with nothing open: for each of the `MOST` (64) descriptors a free entry, `None`. `AllocError`: out of memory.
fn free_entries<T: Drop>(alloc: Global) -> Result<Vec<Option<T>>, AllocError>
    ensures { IfOk result (λ entries. entries.items ≡ nothing_open) }
{
    let mut entries = Vec::with_capacity(alloc, MOST)?;
    for _ in 0..MOST {
        entries.push(None)?;
    }
    Ok(entries)
}

impl<T: Drop> FdTable<T> {
    /// Creates a table with nothing open: no bit of `taken`, which has one for each descriptor, is 1. It allocates for all descriptors, so
    /// that no other call takes memory. `AllocError`: out of memory.
    pub fn new(alloc: Global) -> Result<FdTable<T>, AllocError>
        ensures { IfOk result (λ table. table ≡ nothing_open) }
    {
        Ok(FdTable {
            entries: free_entries(alloc)?,
            taken: 0,
        })
    }

    /// The index of the lowest free descriptor, which is its distance from `FIRST`, less than `MOST` (`bound`). Bit k of `taken` is 1 if
    /// descriptor `FIRST` + k is open, so the index is the position of the lowest bit that is 0. `None` if no descriptor is free: then all
    /// bits are ones. The contract sees a list with `None` for each free descriptor, and takes the position of the first `None` (`value`).
    fn free_index(&self) -> Option<usize>
        ensures value { result ≡ position is_none self.now }
        ensures bound { IfSome result (λ index. index < most) }
    {
        let index = self.taken.trailing_ones() as usize;
        if index < MOST { Some(index) } else { None }
    }

    /// Whether no descriptor is free, that is, all `MOST` of them are open (`lowest` is then `None`). A tenant tests this before it makes a
    /// map or a program, since a new object then gets no descriptor.
    pub fn is_full(&self) -> bool
        ensures { result ≡ is_none (lowest self.now) }
    {
        self.free_index().is_none()
    }

    /// Opens the lowest free descriptor, which then names `object`, and returns this number: at least `FIRST`, less than `FIRST` + `MOST`
    /// (`bounds`). By `placed` (`OpensLowest`, which is given the lowest descriptor that was free, if any) no other descriptor changes.
    ///
    /// # Errors
    ///
    /// The error is `object` itself, which the caller gets back, if no descriptor is free. Then nothing changes (`placed`).
    pub fn place(&mut self, object: T) -> Result<u32, T>
        ensures placed { OpensLowest (lowest self.old) self.old object result self.new }
        ensures bounds { IfOk result (λ fd.
            (first_descriptor ≤ fd) × (fd < first_descriptor + most)) }
    {
        let Some(index) = self.free_index() else {
            return Err(object);
        };
        self.entries[index] = Some(object);
        self.taken |= 1 << index;
        Ok(FIRST + index as u32)
    }

    /// The object that `fd` names, as a reference; the contract has the object without the reference (`option_copied`). `None` if nothing
    /// is open at this number: it is a free descriptor, or no descriptor (below 3, `FIRST`, or above 66, `FIRST + MOST - 1`).
    pub fn get(&self, fd: u32) -> Option<&T>
        ensures { option_copied result ≡ named self.now fd }
    {
        let index = fd.checked_sub(FIRST)? as usize;
        self.entries.get(index)?.as_ref()
    }

    /// Closes `fd`, which is free from then on, and returns the object that it named; no other descriptor changes (`closed`). `None`, and
    /// nothing changes, if this number is not open, or no descriptor (below 3 or above 66).
    pub fn close(&mut self, fd: u32) -> Option<T>
        ensures named { result ≡ named self.old fd }
        ensures closed { self.new ≡ with_closed self.old fd }
    {
        let Some(index) = fd.checked_sub(FIRST) else {
            return None;
        };
        let index = index as usize;
        if index >= self.entries.len() {
            return None;
        }
        self.taken &= !(1 << index);
        self.entries[index].take()
    }
}
