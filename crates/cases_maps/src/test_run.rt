//! Test runs of programs with one map.

ghost use Rattle.std.specs.Prelude.{◌≡◌, ℕ, ◌<◌, length, slice_index, Some, IsSome, IfOk};
ghost use Rattle.verifier.specs.Maps.{maps_of};
ghost use Rattle.verifier.specs.Verified.{shapes_in};
ghost use Rattle.bpf_maps.specs.Live.{live_at};
ghost use Rattle.bpf_helpers.specs.Parts.{IsPartOf};

use arena::{Arena, Trace};
use bpf_maps::{MapKey, Maps};
use bpf_text::assemble;
use cases::{CaseError, text_of, written};
use flat_machine::{GIVEN_WORDS, LONGEST_PACKET, context_words, run};
use std::alloc::Global;
use tagged_model::{MapShape, Named, Outcome, Target};
use verifier::{Verified, laws, verify};

/// The descriptor by which programs name the map: 3, a tenant's lowest.
const DESCRIPTOR: u32 = 3;

/// The program that `text` gives in the notation of cases, accepted with a map of this shape at `DESCRIPTOR`, the only open descriptor. So
/// each map that the program loads has the shape. In the contract, `maps_of` lists the descriptors of these maps, and `shapes_in` has their
/// shapes: `run`, which `run_text` calls, requires that the map of the run has the shape with which the program was accepted. The errors:
/// `Notation` if a repetition `{COUNT*PART}` is wrong, or the two bytes HH of a `\xHH` are missing or end inside a character of several
/// bytes; `Digits` if these two are no hex digits; `NoText` if the bytes that `text` gives are not UTF-8; `Text` if they do not assemble;
/// `Refused` if the program is rejected. Out of memory is `Memory` in `written`, which reads the notation, `Text` in `assemble`, and
/// `Refused` in `verify`.
fn accepted(alloc: Global, text: &str, shape: MapShape) -> Result<Verified, CaseError>
    ensures { IfOk result (λ program. (i : ℕ) → i < length (maps_of program.code)
        → shapes_in program (slice_index (maps_of program.code) i) ≡ Some shape) }
{
    // A law, for the contract: each map that an accepted program loads has a shape. It does nothing when it runs.
    laws::loaded_maps_have_shapes();
    let text = written(alloc, text)?;
    let program = assemble(alloc, text_of(&text)?)?;
    let map = Named {
        fd: DESCRIPTOR,
        target: Target::Map(shape),
    };
    let verified = verify(alloc, &program, &[map])?;
    Ok(verified)
}

/// Runs a program on `packet`, with the live map `map` (`live`), and returns its outcome. `text` is the program's text in the notation of
/// cases; the program has to load the map, by `DESCRIPTOR`. The words of the context are the packet's length and `GIVEN_WORDS` zeros.
/// Before the run, the last run on the map is ended, since no element of a map may be kept apart when a run begins. The map's values are in
/// part 0 of the arena, whose parts have `PART` bytes before and after the run (`IsPartOf`). The errors: `Notation` or `Digits` if the
/// notation is wrong; `NoText` if the bytes that it gives are not UTF-8; `Memory` if out of memory for these bytes. `Text` if these do not
/// assemble, or if the assembler is out of memory. `Refused` if the program is rejected, or if the verifier is out of memory. `NoMap` if
/// the program loads no map; `OutOfRange` if the packet is longer than `LONGEST_PACKET` bytes.
pub fn run_text(
    alloc: Global,
    text: &str,
    map: MapKey,
    arena: &mut Arena,
    maps: &mut Maps,
    packet: &[u8],
) -> Result<Outcome, CaseError>
    requires part { IsPartOf 0 arena.old }
    requires live { IsSome (live_at maps.old map) }
    ensures { IsPartOf 0 arena.new }
{
    let program = accepted(alloc, text, maps.shape(map))?;
    if program.maps().len() != 1 {
        return Err(CaseError::NoMap);
    }
    if packet.len() > LONGEST_PACKET {
        return Err(CaseError::OutOfRange);
    }
    let context = context_words(packet.len() as u32, &[0; GIVEN_WORDS]);
    maps.end_run(map);
    Ok(run(
        &program,
        &[map],
        0,
        arena,
        maps,
        &context,
        packet,
        &mut Trace::new(),
    ))
}
