//! The maps that a program loads, including those of which it loads a value.

ghost use Rattle.std.specs.Prelude.{◌≡◌, is_some, IfOk, OnOk};
ghost use Rattle.insn_set.specs.Program.{begins_at};
ghost use Rattle.tagged_model.specs.Cells.{and_then};
ghost use Rattle.insn_set.specs.Flow.{descriptor};
ghost use Rattle.verifier.specs.Maps.{maps_of, is_among, objects_at};
ghost use Rattle.verifier.specs.Shape.{structure_fault};
ghost use Rattle.verifier.specs.Verdict.{HasNoFault};
ghost use Rattle.verifier.specs.inside.Descriptors.{with_descriptor};

use insn_codec::{Insn, Program};
use std::alloc::{AllocError, Global};
use tagged_model::Named;

/// Appends to `maps` the descriptor by which `insn` loads a map, or an address in a map's first value, unless `maps` has this descriptor
/// already: so `maps` gets no descriptor twice. Nothing is appended if `insn` loads neither. `AllocError`: out of memory.
fn add_descriptor(maps: &mut Vec<u32>, insn: &Insn) -> Result<(), AllocError>
    ensures { OnOk result (maps.new.items ≡ with_descriptor maps.old.items (descriptor insn.now)) }
{
    match insn.profile().reference.descriptor() {
        Some(fd) if !maps.contains(&fd) => maps.push(fd)?,
        // It is listed already, or the instruction names none.
        _ => {}
    }
    Ok(())
}

/// Appends the descriptor by which the instruction at `slot` loads a map, or a value of one, to `maps`, unless it is listed already
/// (`with_descriptor`). Nothing is appended if the instruction loads neither, or if none begins at `slot` (`begins_at` is `None`). The
/// error is out of memory.
fn add_at(maps: &mut Vec<u32>, program: &Program, slot: usize) -> Result<(), AllocError>
    ensures { OnOk result (maps.new.items
        ≡ with_descriptor maps.old.items (and_then (begins_at program.now slot) descriptor)) }
{
    match program.get(slot) {
        Some(insn) => add_descriptor(maps, insn),
        // None begins at the second slot of a wide instruction.
        None => Ok(()),
    }
}

/// Whether the instruction loads, by a descriptor, a map or an address in a map's first value. `loaded_maps` calls `add_at` only for the
/// slots of which this is true. For any other slot `add_at` would append nothing, so such a slot costs only this test.
fn names_map(insn: &Insn) -> bool
    ensures { result ≡ is_some (descriptor insn.now) }
{
    insn.profile().reference.descriptor().is_some()
}

/// The descriptors by which a program loads maps, or values of maps, each once, in the order of their first loads. The shape of the program
/// has no fault, so each of these descriptors is in `named`, the list of open descriptors; if `named` is empty, the result is empty without
/// a search. The error is out of memory.
pub(crate) fn loaded_maps(
    alloc: Global,
    program: &Program,
    named: &[Named],
) -> Result<Vec<u32>, AllocError>
    requires { HasNoFault (structure_fault program.now named.now) }
    ensures { IfOk result (λ maps. maps.items ≡ maps_of program.now) }
{
    // A law, for the contract, which is about the list of instructions: they are those that begin at the slots, in order.
    program.insns_in_order();
    let mut maps = Vec::new(alloc);
    if named.is_empty() {
        return Ok(maps);
    }
    let code = program.code();
    for slot in 0..code.len() {
        // At the second slot of a wide instruction `code[slot]` means nothing, but `add_at` finds no instruction there.
        if names_map(&code[slot]) {
            add_at(&mut maps, program, slot)?;
        }
    }
    Ok(maps)
}

/// Whether the descriptor `fd` is in the list `maps`. `objects_at` asks this of each open descriptor, with those by which a program loads
/// maps as the list.
fn is_among(maps: &[u32], fd: u32) -> bool
    ensures { result ≡ is_among maps.now fd }
{
    maps.contains(&fd)
}

/// Returns the entries of `named` that a program uses. Each entry is an open descriptor with its object, and `maps` lists the descriptors
/// by which the program loads maps or values of maps: an entry is returned if its descriptor is in `maps`. The entries are in the order of
/// `named`. The pass over the program needs no others, and an accepted program keeps them (`objects` of `Verified`). The error is out of
/// memory.
pub(crate) fn objects_at(
    alloc: Global,
    named: &[Named],
    maps: &[u32],
) -> Result<Vec<Named>, AllocError>
    ensures { IfOk result (λ kept. kept.items ≡ objects_at maps.now named.now) }
{
    let mut kept = Vec::new(alloc);
    for entry in named {
        if is_among(maps, entry.fd) {
            kept.push(*entry)?;
        }
    }
    Ok(kept)
}
