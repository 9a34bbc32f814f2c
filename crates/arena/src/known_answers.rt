//! Answers that were worked out by hand. Each follows only from the contracts.

use crate::memory::{Arena, BASE};
use crate::trace::Trace;
use std::alloc::{AllocError, Global};

/// In an arena of two parts of 16 bytes, which begins at the address `BASE`, a number that is stored in the last eight bytes is loaded from
/// there unchanged. Loads of four, two and one of these bytes show that the order is little-endian. The first two arguments of `store` and
/// `load` are an address and a number of bytes. `Some`: all these bytes lie in the arena. `AllocError`: memory for the arena is refused.
fn number_stored_and_loaded(alloc: Global) -> Result<(), AllocError> {
    let mut arena = Arena::new(alloc, 2, 16)?;
    let mut trace = Trace::new();
    let stored = arena.store(BASE + 24, 8, 0x0102_0304_0506_0708, &mut trace);
    prove!(stored == Some(()));
    let double = arena.load(BASE + 24, 8, &mut trace);
    prove!(double == Some(0x0102_0304_0506_0708));
    let word = arena.load(BASE + 24, 4, &mut trace);
    prove!(word == Some(0x0506_0708));
    let half = arena.load(BASE + 25, 2, &mut trace);
    prove!(half == Some(0x0607));
    let byte = arena.load(BASE + 31, 1, &mut trace);
    prove!(byte == Some(1));
    Ok(())
}

/// In an arena of two parts of 16 bytes, which begins at the address `BASE`, `load_inside` loads what `store_inside` has stored: the eight
/// bytes of a number, or only the last of them, which is its high byte. Neither tests the address, since the bytes are proved to lie in the
/// arena. A store of two bytes stores the low two of its number. The bytes after them remain zero, as in a new arena. `AllocError`: memory
/// for the arena is refused.
fn number_stored_and_loaded_inside(alloc: Global) -> Result<(), AllocError> {
    let mut arena = Arena::new(alloc, 2, 16)?;
    let mut trace = Trace::new();
    arena.store_inside(BASE + 24, 8, 0x0102_0304_0506_0708, &mut trace);
    let double = arena.load_inside(BASE + 24, 8, &mut trace);
    prove!(double == 0x0102_0304_0506_0708);
    arena.store_inside(BASE, 2, 0x0203_0405, &mut trace);
    let word = arena.load_inside(BASE, 4, &mut trace);
    prove!(word == 0x0405);
    let byte = arena.load_inside(BASE + 31, 1, &mut trace);
    prove!(byte == 1);
    Ok(())
}

/// A known result, which follows from the contracts of `Arena` for each `address`; nothing calls the function. An arena of two parts of 16
/// bytes begins at the address `BASE`. If the eight bytes from `address` on do not all lie in it, a load of them, a store of the number 1
/// in them, and a copy of eight bytes to them from `BASE`, or back, are rejected (`None`). If they lie in it, the function returns before
/// these calls. `AllocError`: memory for the arena is refused.
fn accesses_outside(alloc: Global, address: u64) -> Result<(), AllocError> {
    let mut arena = Arena::new(alloc, 2, 16)?;
    let mut trace = Trace::new();
    if BASE <= address && address <= BASE + 24 {
        return Ok(());
    }
    let loaded = arena.load(address, 8, &mut trace);
    prove!(loaded == None);
    let stored = arena.store(address, 8, 1, &mut trace);
    prove!(stored == None);
    let copied_to = arena.copy(address, BASE, 8, &mut trace);
    prove!(copied_to == None);
    let copied_from = arena.copy(BASE, address, 8, &mut trace);
    prove!(copied_from == None);
    Ok(())
}

/// In an arena of one part of 16 bytes, of which `BASE` is the first address, overlapping ranges are copied like memmove: four bytes to the
/// next higher address, then three bytes to an address lower by two. The arguments of `copy` are the address to which it writes, the
/// address from which it reads, and the number of bytes; the second argument of `store` and `load` is their number of bytes. `Some(())`:
/// all bytes lie in the arena. `AllocError`: memory for the arena is refused.
fn overlapping_copies(alloc: Global) -> Result<(), AllocError> {
    let mut arena = Arena::new(alloc, 1, 16)?;
    let mut trace = Trace::new();
    let stored = arena.store(BASE, 4, 0x0403_0201, &mut trace);
    prove!(stored == Some(()));
    let upwards = arena.copy(BASE + 1, BASE, 4, &mut trace);
    prove!(upwards == Some(()));
    let double = arena.load(BASE, 8, &mut trace);
    prove!(double == Some(0x04_0302_0101));
    let downwards = arena.copy(BASE, BASE + 2, 3, &mut trace);
    prove!(downwards == Some(()));
    let word = arena.load(BASE, 4, &mut trace);
    prove!(word == Some(0x0304_0302));
    Ok(())
}
