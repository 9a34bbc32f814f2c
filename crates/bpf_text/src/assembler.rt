//! The assembler: text to programs.

ghost use Rattle.std.specs.Prelude.{◌≡◌, ◌<◌, ◌≤◌, ◌⊎◌, ℕ, List, length, map, option_map, Some};
ghost use Rattle.std.specs.Prelude.{None, if◌then◌else◌, IfOk, OnOk, IfErr, IsErrAnd, MatchResult};
ghost use Rattle.std.specs.List.{AllByRecursion};
ghost use Rattle.std.specs.Option.{option_or, option_to_list};
ghost use Rattle.insn_set.specs.Program.{slot_count};
ghost use Rattle.insn_set.specs.declared.insn.Insn.{Insn as AnyInsn};
ghost use Rattle.text_line.specs.Shown.{seen_option, seen_lines};
ghost use Rattle.bpf_text.specs.declared.fault.TextFault.{TextFault as AnyFault};
ghost use Rattle.bpf_text.specs.Fault.{IsFirstFaultyLine, memory_fault, empty_fault};
ghost use Rattle.bpf_text.specs.Assembly.{AreRead, IsAssembled, IsOwnFault, line_slots, slots_on, defines, fault_at, forms_from};
ghost use Rattle.bpf_text.specs.inside.Labels.{defined_label, definition_of, FindsLabels};
ghost use Rattle.bpf_text.specs.inside.Labels.{kept_distance, code_fault, kept_fault, kept_form, IsNoneOrWellFormed};
ghost use Rattle.text_line.specs.Form.{IsForm};
ghost use Rattle.text_line.specs.Ranges.{resolved};
ghost use Rattle.text_line.specs.Written.{written};

use crate::fault::{NO_SLOT, OUT_OF_MEMORY, TextFault, TextFaultKind};
use crate::laws;
use crate::lines::split_lines;
use insn_codec::{Insn, MAX_SLOTS, Program};
use std::alloc::{AllocError, Global};
use std::collections::HashMap;
use text_line::{Form, Line, read_line};

/// Parses the lines of a text, given without their line feeds. The result has an entry for each line, in order (`AreRead`). The entry is
/// `None` if the line is neither blank, nor a label, nor an instruction: `instruction` later reports this as `Syntax`. `AllocError`: out of
/// memory.
fn read_lines<'a>(alloc: Global, text: &'a [&'a str]) -> Result<Vec<Option<Line<'a>>>, AllocError>
    ensures { IfOk result (λ lines. AreRead (map (λ line. line.now) text.now)
        (seen_lines lines.items)) }
{
    let mut lines = Vec::new(alloc);
    for line in text {
        // The proof of the loop cites the arm `Ok` and the call of `extend_from_slice` by name, so `?` and `push` need another proof.
        let found = match read_line(alloc, line) {
            Ok(found) => found,
            Err(error) => return Err(error),
        };
        lines.extend_from_slice(&[found])?;
    }
    Ok(lines)
}

/// The start of a line: the line's index, from 0, and the number of slots before it. The assembler keeps it for the first line that defines
/// each label, and computes it for the line that it assembles.
#[derive(Clone, Copy, Debug)]
struct LineStart {
    line: usize,
    slot: usize,
}

/// The number of slots of a line's instruction, 1 or 2. 0 if the line has no instruction: it is blank, defines a label, or has none of the
/// forms. Only in the last case `line` is `None`; the line then has the fault `Syntax`. By these numbers the assembler counts the slots
/// before each line. `seen_option` is the line, or none, in the type of the definitions.
fn line_slots(line: &Option<Line<'_>>) -> usize
    ensures value { result ≡ line_slots (seen_option line.now) }
    ensures bound { result ≤ 2 }
{
    match line {
        Some(Line::Code(form, _)) => form.slots(),
        _ => 0,
    }
}

/// The name of the label that a line defines, as `done` in `done:`. `line` is the line as it was read, `None` if it has none of the forms
/// of a line. The result is `None` if the line defines no label: if it is blank or an instruction, or if `line` is `None`. The contract has
/// the name as its bytes (`n.now`), and the line as the value of a definition that `line` represents (`seen_option`).
fn defined<'a>(line: &Option<Line<'a>>) -> Option<&'a str>
    ensures { option_map (λ n. n.now) result ≡ defined_label (seen_option line.now) }
{
    match line {
        Some(Line::Label(name)) => Some(*name),
        _ => None,
    }
}

/// Adds the label that a line defines to `labels`, with `definition`: the line's index, and the number of slots of the instructions on the
/// lines before it. Nothing is added if the line has none of the forms (`None`), or defines no label, or one that an earlier line defines:
/// the first definition counts. The contract states this for each name `q`: its definition is the one that `labels` had before, or else
/// (`option_or`) the argument `definition`, if the line defines `q`. Fails only if memory is refused.
fn note<'a>(
    labels: &mut HashMap<&'a str, LineStart>,
    line: &Option<Line<'a>>,
    definition: LineStart,
) -> Result<(), AllocError>
    ensures { OnOk result ((q : List ℕ) → definition_of labels.new q
        ≡ option_or (definition_of labels.old q)
        (if defines q (seen_option line.now) then Some definition else None)) }
{
    let Some(name) = defined(line) else {
        return Ok(());
    };
    if labels.get(name).is_none() {
        labels.insert(name, definition)?;
    }
    Ok(())
}

/// Finds for each label the first line that defines it: the line's index, from 0, and the number of slots before it. A label that no line
/// defines has no entry. A line that has none of the forms (`None`) defines none and has no slots. `FindsLabels` states this for all lines
/// (`length`). Jumps may name labels of later lines, so `instructions` needs this first. `AllocError`: out of memory.
fn labels<'a>(
    alloc: Global,
    lines: &[Option<Line<'a>>],
) -> Result<HashMap<&'a str, LineStart>, AllocError>
    ensures { IfOk result (λ labels. FindsLabels (seen_lines lines.now) labels (length lines.now)) }
{
    let mut labels = HashMap::new(alloc);
    let mut slot = 0;
    for (index, line) in lines.iter().enumerate() {
        note(&mut labels, line, LineStart { line: index, slot })?;
        slot += line_slots(line);
    }
    Ok(labels)
}

/// Finds the label `name` in `labels`: the index of the first line that defines it, and the number of slots before this line. `None` if no
/// line defines the label.
fn definition_of_label(labels: &HashMap<&str, LineStart>, name: &str) -> Option<LineStart>
    ensures { result ≡ definition_of labels.now name.now }
{
    labels.get(name).copied()
}

/// The distance in slots from slot `slot + 1`, the next after a jump at `slot`, to a label. `label` is the start of the first line that
/// defines the label: the label's slot is the number of slots before this line. A slot above `MAX_SLOTS`, the most slots of a program
/// (4,096), counts as `MAX_SLOTS`, so that the distance fits 16 bits. Such a text is rejected: the slots of a line before the label go past
/// `MAX_SLOTS`, so that line has the fault `TooLong`, unless it has another one. `None` counts as a label at slot 0: either no line defines
/// the label, which is a fault, or the form names no label, and the distance is not used. `kept_distance` is this distance, as an integer.
fn distance(label: Option<LineStart>, slot: usize) -> i16
    requires { slot ≤ MAX_SLOTS }
    ensures { result ≡ kept_distance label slot }
{
    let to = match label {
        Some(definition) => definition.slot.min(MAX_SLOTS),
        None => 0,
    };
    to as i16 - (slot as i16 + 1)
}

/// The instruction of a line's form, or the first fault that applies (`fault`, by `code_fault`), in this order: `Range`, a number is out of
/// range; `UnknownLabel`, no line defines the label; `TooLong`, the slots go past `MAX_SLOTS`. An instruction is returned only if no fault
/// applies (`none`). Written as a form (`written`), the instruction is the line's form (`found`), with two changes (`resolved`): it has 0
/// if the line has -0, since the fields of an instruction have no -0, and the label of a jump is replaced by the distance in slots from
/// slot `slot + 1`, the next after the jump, to the label (`kept_distance`). In this distance a label past slot `MAX_SLOTS` is taken to be
/// at `MAX_SLOTS`, so that the distance fits 16 bits; this distance gets into no program, since a line before the label then has a fault.
/// As the form is that of a line (`IsForm`), `Form::insn` is `None` only if a number is out of range. `label` is the first definition of
/// the label that the form names; `None` if the form names none, or no line defines it. `slot` is the number of slots before the form: at
/// most `MAX_SLOTS`, as no earlier line is `TooLong`.
fn resolve(form: &Form, label: Option<LineStart>, slot: usize) -> Result<Insn, TextFaultKind>
    requires form { IsForm form.now }
    requires room { slot ≤ MAX_SLOTS }
    ensures found { IfOk result (λ insn. written insn
        ≡ resolved (kept_distance label slot) form.now) }
    ensures none { OnOk result (code_fault form.now label slot ≡ None) }
    ensures fault { IfErr result (λ kind. code_fault form.now label slot ≡ Some kind) }
{
    let insn = form
        .insn(distance(label, slot))
        .ok_or(TextFaultKind::Range)?;
    if form.names_label() && matches!(label, None) {
        return Err(TextFaultKind::UnknownLabel);
    }
    if slot + form.slots() > MAX_SLOTS {
        return Err(TextFaultKind::TooLong);
    }
    Ok(insn)
}

/// Assembles a line. Returns its instruction (`found`): written as a form, this is the line's form, but with the distance to the label that
/// the form names, and with 0 for -0, since the fields of an instruction have no -0. Returns `Ok(None)` for a blank line, and for the first
/// line that defines a label. The error is the line's fault (`fault`); if the result is `Ok`, the line has none (`none`). `kept_form` (a
/// list of this form, [] if the line has no instruction) and `kept_fault` find labels in `labels`: there the first definition of each label
/// is kept. `line` is `None` if the line has none of the forms: the fault is `Syntax`. Any other line is one that a text can have (`form`):
/// for example, its registers are 0 to 10. A line whose label an earlier line also defines has the fault `LabelTwice`. An instruction has
/// the first of these that applies: `Range` if a number is out of range, `UnknownLabel` if no line defines the label that it names,
/// `TooLong` if the slots up to its end are more than `MAX_SLOTS`. `here` is the line's index and the number of slots before it, at most
/// `MAX_SLOTS` (`room`), since no earlier line is `TooLong`.
fn instruction(
    labels: &HashMap<&str, LineStart>,
    line: &Option<Line<'_>>,
    here: LineStart,
) -> Result<Option<Insn>, TextFaultKind>
    requires form { IsNoneOrWellFormed (seen_option line.now) }
    requires room { here.slot ≤ MAX_SLOTS }
    ensures found { IfOk result (λ insn. map written (option_to_list insn)
        ≡ kept_form labels.now here.slot (seen_option line.now)) }
    ensures none { OnOk result (kept_fault labels.now here (seen_option line.now) ≡ None) }
    ensures fault { IfErr result (λ kind. kept_fault labels.now here (seen_option line.now)
        ≡ Some kind) }
{
    match line {
        None => Err(TextFaultKind::Syntax),
        Some(Line::Blank) => Ok(None),
        Some(Line::Label(name)) => {
            match definition_of_label(labels, name) {
                Some(first) if first.line < here.line => Err(TextFaultKind::LabelTwice),
                _ => Ok(None),
            }
        }
        Some(Line::Code(form, label)) => {
            let insn = resolve(form, definition_of_label(labels, label), here.slot)?;
            Ok(Some(insn))
        }
    }
}

/// The instructions on the lines, in order. `lines` are as `read_lines` parsed them (`formed`), with `None` for a line that has none of the
/// forms. `labels` has the first definition of each label on them: `FindsLabels` is about the first `length lines.now` lines, that is, all.
/// The error is the fault of the first line that has one (`fault_at`, by the line's index from 0), or `Memory` at line 0 if out of memory
/// (`fault`). On success no line has a fault (`none`), and the instructions are those of the lines' forms, in which the distance to a label
/// replaces the label (`forms`): `forms_from` gets the lines that define labels, the slot of the first instruction, and the lines with the
/// instructions. The slots of the instructions are as many as those of the lines (`count`), at most `MAX_SLOTS` (`room`), since the line
/// whose slots go past them has the fault `TooLong`.
fn instructions(
    alloc: Global,
    lines: &[Option<Line<'_>>],
    labels: &HashMap<&str, LineStart>,
) -> Result<Vec<Insn>, TextFault>
    requires formed { AllByRecursion IsNoneOrWellFormed (seen_lines lines.now) }
    requires labels { FindsLabels (seen_lines lines.now) labels.now (length lines.now) }
    ensures none { OnOk result ((i : ℕ) → fault_at (seen_lines lines.now) i ≡ None) }
    ensures forms { IfOk result (λ insns. map written insns.items
        ≡ forms_from (seen_lines lines.now) 0 (seen_lines lines.now)) }
    ensures count { IfOk result (λ insns. slot_count insns.items
        ≡ slots_on (seen_lines lines.now)) }
    ensures room { IfOk result (λ insns. slot_count insns.items ≤ MAX_SLOTS) }
    ensures fault { IfErr result (λ e. (e ≡ memory_fault)
        ⊎ IsFirstFaultyLine (fault_at (seen_lines lines.now)) e) }
{
    let mut insns = Vec::new(alloc);
    let mut slot = 0;
    for (index, line) in lines.iter().enumerate() {
        let insn = match instruction(labels, line, LineStart { line: index, slot }) {
            Ok(insn) => insn,
            Err(kind) => return Err(TextFault::at(index, kind)),
        };
        insns.extend_from_slice(insn.as_slice())?;
        slot += line_slots(line);
    }
    Ok(insns)
}

/// Makes the program of the instructions. It has them in their order, and at least one slot (`made`). The fault is `Empty` if there is no
/// instruction, and so no slot, or `Memory` if out of memory, both at line 0 (`refused`). `instructions` has checked that the slots are at
/// most `MAX_SLOTS`, so `Program::new` fails only if out of memory.
fn program(alloc: Global, insns: &[Insn]) -> Result<Program, TextFault>
    requires { slot_count insns.now ≤ MAX_SLOTS }
    ensures made { IfOk result (λ program. (program ≡ insns.now) × (0 < slot_count insns.now)) }
    ensures refused { IfErr result (λ e. (e ≡ memory_fault)
        ⊎ ((e ≡ empty_fault) × (slot_count insns.now ≡ 0))) }
{
    if insns.is_empty() {
        return Err(NO_SLOT);
    }
    match Program::new(alloc, insns) {
        Ok(program) => Ok(program),
        Err(_) => Err(OUT_OF_MEMORY),
    }
}

/// Assembles the text, for `assemble`, whose only other calls are of laws. Returns the program of the text (`ok`), or an error (`fault`):
/// either out of memory, `Memory` at line 0, or the text's own fault. This is the fault of the first line that has one; if no line has a
/// fault and the text has no instruction, it is `Empty` at line 0. By the laws, the contract of `assemble` also says that the text has no
/// other program and no other fault of its own.
fn program_of(alloc: Global, text: &str) -> Result<Program, TextFault>
    ensures ok { IfOk result (λ program. IsAssembled text.now program) }
    ensures fault { IfErr result (λ e. (e ≡ memory_fault) ⊎ IsOwnFault text.now e) }
{
    let text = split_lines(alloc, text)?;
    let lines = read_lines(alloc, &text)?;
    let labels = labels(alloc, &lines)?;
    let insns = instructions(alloc, &lines, &labels)?;
    program(alloc, &insns)
}

/// Assembles a text, line by line. The result is the program of its instructions, in the order of their lines.
///
/// A line is empty, a label `name:`, or one instruction; `//` begins a comment. A label names the slot after it; in a jump it is
/// replaced by the offset that leads there.
///
/// # Errors
///
/// The fault of the first line that has one; lines are numbered from 1. If the line has several faults, it is the first of these kinds:
/// `Syntax` if the line has none of the forms, `Range` if a number is out of range, `UnknownLabel` if no line defines the label that the
/// line's jump names, `LabelTwice` if the line defines a label that an earlier line defines, `TooLong` if the line's slots go past
/// `MAX_SLOTS`. Faults of the whole text have line 0: `Empty` if no line has a fault and there is no slot, and `Memory` if out of memory.
pub fn assemble(alloc: Global, text: &str) -> Result<Program, TextFault>
    // No line of the text has a fault, and the program that is returned has the text's instructions, at least one (`IsAssembled`).
    ensures ok { IfOk result (λ program. IsAssembled text.now program) }
    // If the text has a program (`insns`), it is returned, unless memory runs out (`memory_fault`: `Memory` at line 0).
    ensures only { (insns : List AnyInsn) → IsAssembled text.now insns → MatchResult result
        (λ program. program ≡ insns) (λ e. e ≡ memory_fault) }
    // A fault that is returned is `Memory` or the fault of the text itself, which is of one of the other kinds (`IsOwnFault`).
    ensures fault { IfErr result (λ e. (e ≡ memory_fault) ⊎ IsOwnFault text.now e) }
    // If the text itself has a fault, this is returned, unless memory runs out.
    ensures faulty { (fault : AnyFault) → IsOwnFault text.now fault → IsErrAnd result
        (λ e. (e ≡ fault) ⊎ (e ≡ memory_fault)) }
{
    // Laws, which do nothing when they run: with them the contract of `program_of` gives `only` and `faulty`.
    laws::one_program();
    laws::program_has_no_fault();
    laws::at_most_one_fault();
    program_of(alloc, text)
}
