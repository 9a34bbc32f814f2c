//! Known answers of the public calls, proved only from their contracts. Nothing calls these functions.

ghost use Rattle.std.specs.Prelude.{◌≡◌};
ghost use Rattle.insn_set.specs.Program.{most_slots};

use crate::{Insn, MAX_SLOTS, RawSlot, Reg};

/// An instruction takes 16 bytes, so indexing by slot is one shift and one load.
const _: () = prove!(size_of::<Insn>() == 16);

/// An optional instruction takes 24 bytes, eight more than an instruction: whether there is one has a tag of its own.
const _: () = prove!(size_of::<Option<Insn>>() == 24);

/// A raw slot takes the eight bytes in which it is spelled.
const _: () = prove!(size_of::<RawSlot>() == 8);

/// A test of the contracts, only proved, never called: a register made of 10, the greatest number that `Reg::new` allows, has this number.
fn registers() {
    let number = Reg::new(10).number();
    prove!(number == 10);
}

/// A test of the contracts of `slots` and `has_two_slots`, only proved, never called: a load of a 64-bit number (`Const`) takes two slots,
/// and the exit takes one.
fn slots_of_instructions() {
    let (dst, value) = (Reg::new(2), 7);
    let (wide, exit) = (Insn::Const { dst, value }, Insn::Exit);
    let (wide_slots, exit_slots) = (wide.slots(), exit.slots());
    prove!(wide_slots == 2);
    prove!(exit_slots == 1);
    let (has_wide_two, has_exit_two) = (wide.has_two_slots(), exit.has_two_slots());
    prove!(has_wide_two);
    prove!(!has_exit_two);
}

/// The limit of the code on the slots of a program, `MAX_SLOTS`, is that of the definitions, `most_slots`. Only proved, never called.
fn slots_of_the_longest_program() -> usize
    ensures { result ≡ most_slots }
{
    MAX_SLOTS
}
