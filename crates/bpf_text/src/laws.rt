//! Laws of texts. A law does nothing when it runs; what it calls are other laws, for its proof. A text's own faults are all but `Memory`.

ghost use Rattle.std.specs.Prelude.{◌≡◌, ◌*◌, ◌≤◌, ℕ, List, length};
ghost use Rattle.hex.specs.Hex.{IsBytes};
ghost use Rattle.bpf_text.specs.HexText.{hex_text, IsHexText};
ghost use Rattle.bpf_text.specs.Law.{OneProgram, ProgramHasNoFault, OneFault, PrintedIsAssembled, HexLinesAreRead};

use insn_codec::MAX_SLOTS;

/// A law: a text has at most one program, the list of instructions to which it assembles (`IsAssembled`). So a program that `assemble`
/// returns is the only one. The proof needs two laws: a line is read in one way, and no two instructions have the same written form
/// (`one_instruction`).
pub fn one_program()
    ensures { OneProgram }
{
    text_line::laws::one_reading();
    text_line::laws::one_instruction();
}

/// A law: a text that is assembled to a program (`IsAssembled`) has no fault of its own (`IsOwnFault`): no line has a fault, and the text
/// has at least one slot. So `assemble` returns the program unless memory is refused.
pub fn program_has_no_fault()
    ensures { ProgramHasNoFault }
{
    text_line::laws::one_reading();
}

/// A law: a text has at most one fault of its own (`OneFault`): that of its first line that has a fault, or `Empty` if no line has one and
/// the text has no slot. So a fault that `assemble` returns is the only one, unless it is `Memory`. The body calls the law that each line
/// is read in one way, for the proof.
pub fn at_most_one_fault()
    ensures { OneFault }
{
    text_line::laws::one_reading();
}

/// A law: for each list of instructions that is a program, the text that `disassemble` prints of it is assembled to this program
/// (`IsAssembled`). The proof of the clause `program` of `disassemble` needs it. The body calls two laws, for the proof: each printed line
/// is read as its instruction (`printed_is_read`), and has no fault in its numbers or labels (`written_in_range`).
pub fn printed_text_is_assembled()
    ensures { PrintedIsAssembled }
{
    text_line::laws::printed_is_read();
    text_line::laws::written_in_range();
}

/// A law: the text that `hex_lines` writes for a program is read, by `from_hex_lines`, as the slots of this program.
pub fn hex_lines_are_read()
    ensures { HexLinesAreRead }
{}

/// A law: if 1 to `MAX_SLOTS` slots are written as hex lines (`hex_text`), the slots of these lines are the written ones (`IsHexText`), so
/// `from_hex_lines` returns them unless memory is refused. They need not be a program's, unlike in `hex_lines_are_read`. `slots` is their
/// number, and `bytes` has eight bytes for each; `IsBytes` requires that each is below 256.
pub fn hex_slots_are_read()
    ensures { (slots : ℕ) (bytes : List ℕ) → IsBytes bytes → length bytes ≡ 8 * slots → 1 ≤ slots
        → slots ≤ MAX_SLOTS → IsHexText (hex_text bytes) bytes }
{}

/// A law: a text is the hex lines of at most one list of slots. `a` and `b` are the bytes of two such lists, which are then equal. So the
/// slots that `from_hex_lines` returns are the only ones of the text.
pub fn one_hex_text()
    ensures { (text a b : List ℕ) → IsHexText text a → IsHexText text b → a ≡ b }
{}
