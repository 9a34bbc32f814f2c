//! Readers of an input, of map arguments and of programs, for another program that reads them as the subcommands do.

ghost use Rattle.std.specs.Prelude.{IfOk, IsUtf8};
ghost use Rattle.bpf_text.specs.Assembly.{IsAssembled};
ghost use Rattle.clap.specs.Walk.{texts};
ghost use Rattle.host.specs.program.Shapes.{AreMapArguments};
ghost use Rattle.host.specs.program.Texts.{IsSlotText};

use crate::program::failure::Failure;
use crate::program::shapes::named_maps;
use crate::program::texts::{read_input, slots_on, text_in};
use bpf_text::assemble;
use host_core::Counted;
use insn_codec::Program;
use std::alloc::Global;
use std::io::Read;
use tagged_model::Named;

/// Reads an input to its end, and returns its bytes. By this call `verifier_log` reads the program of which it writes the log, as hex lines
/// or as text. `read_input`, which this function calls, reads the inputs of `asm`, `dis` and `verify`; its contract compares the input
/// before and after the call. Here no contract says what was read, since the input is consumed.
///
/// # Errors
///
/// `TooLong` if it has more than `LONGEST_INPUT` bytes, `Read` if a call of the input failed, `Memory` if out of memory.
pub fn whole_input<I: Read + Drop>(alloc: Global, input: I) -> Result<Vec<u8>, Failure> {
    let mut reader = Counted::new(input);
    read_input(alloc, &mut reader)
}

/// The maps that map arguments name, in order, no two of them at one descriptor. A map argument is `FD:KIND:KEY:VALUE:MAX`, as on the
/// command line of `verify`: a descriptor from 3 to 66, `array` or `hash`, the sizes of a key and of a value in bytes, and the maximum of
/// entries (`read_shape`). The function is `named_maps` of this crate, made public for the verifier's log.
///
/// # Errors
///
/// `MapArgument` with the number, from 1, of the first argument that names no map, or a map at the descriptor of an earlier map;
/// `Memory` if out of memory.
pub fn maps_of_arguments(alloc: Global, arguments: &[&str]) -> Result<Vec<Named>, Failure>
    ensures { IfOk result (λ maps. AreMapArguments (texts arguments.now) maps.items) }
{
    named_maps(alloc, arguments)
}

/// The bytes of the slots on the hex lines of an input, eight for each slot, as `dis` and `verify` read them (`IsSlotText`): a line has the
/// sixteen hex digits of a slot, or is blank. Whether the slots are a program is not tested. `verifier_log` calls this function.
///
/// # Errors
///
/// `Line` if the input is not UTF-8, a line has a fault, or there is no slot or more than `MAX_SLOTS`; `Memory` if out of memory.
pub fn hex_slots(alloc: Global, input: &[u8]) -> Result<Vec<u8>, Failure>
    ensures { IfOk result (λ slots. IsSlotText input.now slots.items) }
{
    slots_on(alloc, input)
}

/// Assembles the program's text in `input`, as `asm` does. If a program is returned, the input is UTF-8 (`utf8`), and the program is the
/// one of this text (`program`).
///
/// # Errors
///
/// `Line` if the input is not UTF-8, a line has a fault or there is no instruction; `Memory` if out of memory.
pub fn text_program(alloc: Global, input: &[u8]) -> Result<Program, Failure>
    ensures utf8 { IfOk result (λ _. IsUtf8 input.now) }
    ensures program { IfOk result (λ program. IsAssembled input.now program) }
{
    let program = assemble(alloc, text_in(input)?)?;
    Ok(program)
}
