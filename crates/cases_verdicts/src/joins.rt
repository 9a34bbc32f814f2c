//! Joins of the facts on two edges, each written as what is known of one value.

use cases::{CaseError, first_word};
use interval::Range;
use reg_kinds::{Facts, Kind, Slot, ValuePointer, join, join_into};
use std::alloc::Global;

/// The register of which something is known.
const REGISTER: usize = 0;

/// The stack slot of which something is known: slot 0, the lowest one.
const SLOT: usize = 0;

/// The range from LO to HI, both included, of the text `LO HI`. `Number` if LO or HI is no number of 64 bits in decimal digits,
/// `OutOfRange` if LO is above HI.
fn range_of(text: &str) -> Result<Range, CaseError> {
    let (lo, hi) = first_word(text);
    let (lo, hi): (u64, u64) = (lo.parse()?, hi.parse()?);
    if lo > hi {
        return Err(CaseError::OutOfRange);
    }
    Ok(Range { lo, hi })
}

/// A pointer into a value, `FD LO HI`: the map's descriptor, and the lowest and the highest offset, in bytes from the start of the value.
/// `Number` if one of these is missing or no decimal number of 32 bits, which is signed for LO and HI; `OutOfRange` if LO is above HI.
fn value_of(text: &str) -> Result<ValuePointer, CaseError> {
    let (map, rest) = first_word(text);
    let (lo, hi) = first_word(rest);
    let (lo, hi): (i32, i32) = (lo.parse()?, hi.parse()?);
    if lo > hi {
        return Err(CaseError::OutOfRange);
    }
    Ok(ValuePointer::new(map.parse()?, lo, hi))
}

/// The kind of the result of a look-up before its null test, which a case writes as `FD SITE`: the map's descriptor, and the slot of the
/// look-up. `Number` if one of them is missing or wrong.
fn looked_up(text: &str) -> Result<Kind, CaseError> {
    let (map, site) = first_word(text);
    Ok(Kind::MaybeValue {
        map: map.parse()?,
        site: site.parse()?,
    })
}

/// A `Kind` as a case writes it: its word, and then its numbers. These are the two ends of the range of a `scalar`, the descriptor of a
/// `map`, the offset of a `stack` pointer, the map's descriptor and the least and greatest offset of a `value`, the map's descriptor and
/// the slot of the look-up for a `looked-up`; `unreadable` and `context` have none. `Notation` for any other word, `Number` if a number is
/// missing or wrong, `OutOfRange` if the first end of a range, or the first offset of a `value`, is above the second.
fn kind_of(text: &str) -> Result<Kind, CaseError> {
    let (word, rest) = first_word(text);
    match word {
        "unreadable" => Ok(Kind::Unreadable),
        "scalar" => Ok(Kind::Scalar(range_of(rest)?)),
        "map" => Ok(Kind::MapRef(rest.parse()?)),
        "stack" => Ok(Kind::Stack(rest.parse()?)),
        "context" => Ok(Kind::Ctx),
        "value" => Ok(Kind::Value(value_of(rest)?)),
        "looked-up" => looked_up(rest),
        _ => Err(CaseError::Notation),
    }
}

/// The facts on one of the two edges of a line `join`, for `joined`: those at program entry, with what `text` adds. `bytes MASK` is about
/// the lowest stack slot: exactly those of its bytes are written whose bits in MASK, a number from 0 to 255, are 1; bit 0 is the lowest
/// byte. Any other text is a kind (`kind_of`), which register 0 gets. If it is that of a pointer, a map or a look-up's result
/// (`is_pointer`), the lowest stack slot gets it too, as a spill: its eight bytes hold such a value. So lines test the join of spills too.
/// The errors are those of `kind_of`, and `Number` if MASK is no such number.
fn facts_of(text: &str) -> Result<Facts, CaseError> {
    let mut facts = Facts::at_entry();
    let (word, rest) = first_word(text);
    if word == "bytes" {
        facts.slots[SLOT] = Slot::Bytes(rest.parse()?);
        return Ok(facts);
    }
    let kind = kind_of(text)?;
    facts.registers[REGISTER] = kind;
    if kind.is_pointer() {
        facts.slots[SLOT] = Slot::Spill(kind);
    }
    Ok(facts)
}

/// The join of the facts that the two sides of the `|` in `text` give (`facts_of`), as text: the kind of register 0, and what is known of
/// the lowest stack slot. A side gives the facts at program entry, but with a kind for register 0, and for the slot too if it is the kind
/// of a pointer, a map or a look-up's result (`is_pointer`), or with bytes of the slot that are written. Both functions for joins run, so
/// that a case compares them: `join` returns new facts, `join_into` changes its first argument. If their results differ, the text is
/// `join and join_into differ`. The errors are `Notation` if `text` has no `|`, those of `facts_of`, and `Memory`.
pub fn joined(alloc: Global, text: &str) -> Result<String, CaseError> {
    let (one, other) = text.split_once('|').ok_or(CaseError::Notation)?;
    let (one, other) = (facts_of(one.trim())?, facts_of(other.trim())?);
    let mut both = one;
    join_into(&mut both, &other);
    if both != join(&one, &other) {
        return Ok("join and join_into differ".to_string(alloc)?);
    }
    let (kind, slot) = (both.registers[REGISTER], both.slots[SLOT]);
    Ok(format!(in alloc; "{kind:?} {slot:?}")?)
}
