//! Laws of lines. A law does nothing when it runs.

ghost use Rattle.insn_set.specs.declared.insn.Insn.{Insn};
ghost use Rattle.insn_set.specs.Spelling.{IsInsn};
ghost use Rattle.text_line.specs.Law.{OneReading, OneInsn, IsWrittenInRange, IsPrinted};

/// A law: two readings of the same bytes by the definition `ReadAs` are equal; a reading is a line, or `None` if the bytes are no line. So
/// what `read_line` returns is the only reading that the definition allows, and a text has at most one program.
pub fn one_reading()
    ensures { OneReading }
{}

/// A law: two instructions with the same written form are the same, whatever their numbers are. The written form (`written`) is the `Form`
/// of the line that is printed for an instruction. So the forms on the lines of a text, with a distance for each label, determine its
/// program (`one_program` of `bpf_text`).
pub fn one_instruction()
    ensures { OneInsn }
{}

/// A law about each instruction whose numbers fit their fields, with registers 0 to 10 (`IsInsn`). Its written form, that of its printed
/// line, has each number in the range of its field, names no label, and has as many slots as the instruction is spelled in. The form is
/// unchanged if labels are resolved, whatever distance replaces a label. So a printed line has no fault in its numbers or labels.
pub fn written_in_range()
    ensures { (insn : Insn) → IsInsn insn → IsWrittenInRange insn }
{}

/// A law: for an instruction whose numbers fit their fields (`IsInsn`), the printed text is one line, without a line feed, and that line is
/// read as the instruction's written form, without a label (`IsPrinted`). No other instruction has this form (law `one_instruction`), so
/// the text that `disassemble` of `bpf_text` prints of a program is read as its instructions. The body calls the law `written_in_range`,
/// since the proof needs that each number of the form is in its range and that the form names no label.
pub fn printed_is_read()
    ensures { (insn : Insn) → IsInsn insn → IsPrinted insn }
{
    written_in_range();
}
