//! Parsing a line: its tokens as one of the forms. A parser is `None` if the tokens do not have its form, or if more follow.
//!
//! `wide` is true of `r` registers (64 bits), false of `w` registers (their low 32 bits).

ghost use Rattle.std.specs.Prelude.{◌≡◌, option_map};
ghost use Rattle.text_line.specs.inside.Shown.{shown_tokens};
ghost use Rattle.text_line.specs.Shown.{seen_line};
ghost use Rattle.text_line.specs.inside.Reading.{parsed_binary, parsed_sign_extension, parsed_in_place, parsed_unary};
ghost use Rattle.text_line.specs.inside.Reading.{parsed_operation, parsed_load, parsed_store, parsed_atomic, parsed_wide_load};
ghost use Rattle.text_line.specs.inside.Reading.{parsed_assigned, parsed_branch, parsed_form, parsed_label, line_of, seen_destination};

use crate::form::{Access, Form, Line, Operation};
use crate::names::{atomic_size, register_named};
use crate::parts::{
    address, after_symbol, after_word, at_end, constant, destination, ended, leading_symbol, name,
    operand, register, wide_value,
};
use crate::token::Token;
use insn_set::{
    AluOp, AtomicOp, ExtendedBits, Reg, alu_by_symbol, condition_by_symbol, extension_by_name,
    order_by_name,
};
use words::BITS_64;

// ---- operations

/// The operation `op`, an operator of two operands or a move, with the source in `tokens`, which are those after the operator's symbol. The
/// source is a constant, a number after a minus or without a sign, or a register: an `r` register (64 bits) if `wide`, else a `w` register
/// (the low 32). Whether the constant fits in its field, `Form::insn` tests later. `None` if the tokens do not begin with such a source, or
/// if more tokens follow it. If `op` is a move, the caller, `operation`, then tries the operations of one operand.
#[tactic(auto, unfolding(crate::specs::inside::Reading::parsed_binary))]
fn binary(wide: bool, op: AluOp, tokens: &[Token<'_>]) -> Option<Operation>
    ensures { result ≡ parsed_binary wide op (shown_tokens tokens.now) }
{
    let Some((src, rest)) = operand(wide, tokens) else {
        return None;
    };
    at_end(Operation::Binary { op, src }, rest)
}

/// A move with sign extension, from the tokens after `(`, for example `s16)r2`. Its source is an `r` register if `wide`, else a `w`
/// register. `None` if the tokens are anything else, also `s32` with a `w` register, since that has only 32 bits.
#[tactic(auto, unfolding(crate::specs::inside::Reading::parsed_sign_extension))]
fn sign_extension(wide: bool, tokens: &[Token<'_>]) -> Option<Operation>
    ensures { result ≡ parsed_sign_extension wide (shown_tokens tokens.now) }
{
    let (name, rest) = name(tokens)?;
    let from = extension_by_name(name)?;
    let rest = after_symbol(rest, ")")?;
    let Some((src, rest)) = register(wide, rest) else {
        return None;
    };
    if !wide && from == ExtendedBits::Bits32 {
        return None;
    }
    at_end(Operation::SignExtend { from, src }, rest)
}

/// Reads the end of a line that names its destination again, as the second `r1` of `r1 = -r1`. `dst` is the destination, an `r` register if
/// `wide`, else a `w` register; `found` is the operation that the caller has read. Returns `found` if `tokens` are the destination and
/// nothing else, and `None` for any other tokens.
#[tactic(auto, unfolding(crate::specs::inside::Reading::parsed_in_place))]
fn in_place(wide: bool, dst: Reg, found: Operation, tokens: &[Token<'_>]) -> Option<Operation>
    ensures { result ≡ parsed_in_place wide dst found (shown_tokens tokens.now) }
{
    let Some((again, rest)) = register(wide, tokens) else {
        return None;
    };
    if again.number() != dst.number() {
        return None;
    }
    at_end(found, rest)
}

/// An operation of one operand, from the tokens after `=`. Its destination `dst` is an `r` register if `wide`, else a `w` register. It is a
/// move with sign extension if the tokens begin with `(`, and a negation if they begin with `-`. Else it is a byte-order conversion, which
/// only an `r` register has. A negation and a byte-order conversion have to name `dst` again (`in_place`), as in `r1 = -r1`. `None` if the
/// tokens are none of these.
#[tactic(auto, unfolding(crate::specs::inside::Reading::parsed_unary))]
fn unary(wide: bool, dst: Reg, tokens: &[Token<'_>]) -> Option<Operation>
    ensures { result ≡ parsed_unary wide dst (shown_tokens tokens.now) }
{
    if let Some(rest) = after_symbol(tokens, "(") {
        return sign_extension(wide, rest);
    }
    if let Some(rest) = after_symbol(tokens, "-") {
        return in_place(wide, dst, Operation::Neg, rest);
    }
    if !wide {
        return None;
    }
    let (name, rest) = name(tokens)?;
    let (how, bits) = order_by_name(name)?;
    in_place(BITS_64, dst, Operation::End { how, bits }, rest)
}

/// An operation on `dst`, an `r` register if `wide`, else a `w` register, from the tokens after `op`, the operator that the symbol in the
/// line names. The tokens are a constant or a register, the second operand of `op`, as in `r1 += 5` (`binary`). If `op` is a move (`Mov`,
/// with the symbol `=`), they may also be an operation of one operand (`unary`): a move with sign extension, a negation or a byte-order
/// conversion. Only the last two need `dst`, which they name again, as in `r1 = -r1`. `None` if the tokens are anything else.
#[tactic(auto, unfolding(crate::specs::inside::Reading::parsed_operation))]
fn operation(wide: bool, op: AluOp, dst: Reg, tokens: &[Token<'_>]) -> Option<Operation>
    ensures { result ≡ parsed_operation wide op dst (shown_tokens tokens.now) }
{
    if let Some(found) = binary(wide, op, tokens) {
        return Some(found);
    }
    if op == AluOp::Mov {
        unary(wide, dst, tokens)
    } else {
        None
    }
}

// ---- forms

/// A load into `dst`, from the tokens after `=`: a memory operand, as `*(u32 *)(r6 + 0)`; a size as `s32` is `signed`, which means that the
/// load extends the sign. `None` if the tokens are anything else.
#[tactic(auto, unfolding(crate::specs::inside::Reading::parsed_load))]
fn load(dst: Reg, tokens: &[Token<'_>]) -> Option<Form>
    ensures { result ≡ parsed_load dst (shown_tokens tokens.now) }
{
    let Some((((signed, size), address), rest)) = address(tokens) else {
        return None;
    };
    let access = Access::Load { size, signed, dst };
    at_end(Form::Access { access, address }, rest)
}

/// The form of a store: a memory operand, as `*(u32 *)(r6 + 0)`, then `=`, and what is stored, a constant or an `r` register. `None` if the
/// tokens are anything else, also if the size is written as signed, as `s32`: of the accesses to memory only a load extends a sign.
#[tactic(auto, unfolding(crate::specs::inside::Reading::parsed_store))]
fn store(tokens: &[Token<'_>]) -> Option<Form>
    ensures { result ≡ parsed_store (shown_tokens tokens.now) }
{
    let Some((((signed, size), address), rest)) = address(tokens) else {
        return None;
    };
    let rest = after_symbol(rest, "=")?;
    let Some((src, rest)) = operand(BITS_64, rest) else {
        return None;
    };
    if signed {
        return None;
    }
    let access = Access::Store { size, src };
    at_end(Form::Access { access, address }, rest)
}

/// An atomic operation, from the tokens after `lock`: a memory operand of 4 or 8 bytes, not signed, the symbol of the operation, and an `r`
/// register. `None` if they are anything else.
#[tactic(auto, unfolding(crate::specs::inside::Reading::parsed_atomic))]
fn atomic(tokens: &[Token<'_>]) -> Option<Form>
    ensures { result ≡ parsed_atomic (shown_tokens tokens.now) }
{
    let Some((((signed, size), address), rest)) = address(tokens) else {
        return None;
    };
    let size = atomic_size(signed, size)?;
    let (symbol, rest) = leading_symbol(rest)?;
    let op = AtomicOp::from_symbol(symbol)?;
    let Some((src, rest)) = register(BITS_64, rest) else {
        return None;
    };
    let access = Access::Atomic { size, op, src };
    at_end(Form::Access { access, address }, rest)
}

/// The form of a load of a 64-bit value into `dst`, from the tokens after `=`, which are the value and `ll`: a number, as `5 ll`, a map by
/// its descriptor, as `map_fd 3 ll`, or an address in a map's value, as `map_value 3 + 8 ll`. `None` if the tokens are anything else, or if
/// more follow. The contract: the definition `parsed_wide_load` reads the same form; `shown_tokens` turns tokens of the code into those of
/// definitions.
#[tactic(auto, unfolding(crate::specs::inside::Reading::parsed_wide_load))]
fn wide_load(dst: Reg, tokens: &[Token<'_>]) -> Option<Form>
    ensures { result ≡ parsed_wide_load dst (shown_tokens tokens.now) }
{
    let (value, rest) = wide_value(tokens)?;
    let rest = after_word(rest, "ll")?;
    at_end(Form::WideLoad { dst, value }, rest)
}

/// Parses a line that begins with its destination register, from all tokens of the line. It may be an operation on this register, as
/// `w1 += 2`. If `=`, the symbol of `Mov`, follows an `r` register, it may also be a wide load, as `r2 = 5 ll`, or a load, as
/// `r1 = *(u32 *)(r6 + 0)`. `None` if the tokens are none of these, or if more follow. The contract: the definition `parsed_assigned` reads
/// the same form from the tokens with their texts as bytes (`shown_tokens`).
#[tactic(auto, unfolding(crate::specs::inside::Reading::parsed_assigned))]
fn assigned(tokens: &[Token<'_>]) -> Option<Form>
    ensures { result ≡ parsed_assigned (shown_tokens tokens.now) }
{
    let (name, rest) = name(tokens)?;
    let (wide, dst) = register_named(name)?;
    let (symbol, rest) = leading_symbol(rest)?;
    let op = alu_by_symbol(symbol)?;
    if let Some(op) = operation(wide, op, dst, rest) {
        return Some(Form::Operation { wide, dst, op });
    }
    if !wide || op != AluOp::Mov {
        return None;
    }
    match wide_load(dst, rest) {
        Some(form) => Some(form),
        None => load(dst, rest),
    }
}

/// Parses a conditional jump from the tokens after `if`, as `r1 == 0 goto +2` or `w1 < w2 goto out`. Returns its form, and the name of the
/// label to which it jumps: the form has only `Label` as its target. If the target is a number of slots, which has a sign, the form has the
/// number, and the name is empty. Returns `None` if the tokens are anything else. In the contract, `seen_destination` and `shown_tokens`
/// replace borrowed texts by their bytes.
#[tactic(auto, unfolding(crate::specs::inside::Reading::parsed_branch))]
fn branch<'a>(tokens: &[Token<'a>]) -> Option<(Form, &'a str)>
    ensures { seen_destination result ≡ parsed_branch (shown_tokens tokens.now) }
{
    let (name, rest) = name(tokens)?;
    let (wide, dst) = register_named(name)?;
    let (symbol, rest) = leading_symbol(rest)?;
    let cond = condition_by_symbol(symbol)?;
    let Some((src, rest)) = operand(wide, rest) else {
        return None;
    };
    let rest = after_word(rest, "goto")?;
    let (to, label) = destination(rest)?;
    Some((
        Form::Branch {
            wide,
            cond,
            dst,
            src,
            to,
        },
        label,
    ))
}

/// The form of the instruction that the tokens are, and the name of the label to which it jumps: the empty text if it names none, as a jump
/// by a number of slots. If the first token is none of `if`, `goto`, `gotol`, `call`, `exit` and `lock`, it is the destination register
/// (`assigned`), or the instruction is a store. `None` if the tokens are no instruction, or more follow. The contract: the definition
/// `parsed_form` reads the same form and the same name; `seen_destination` and `shown_tokens` replace the borrowed texts of the result and
/// of the tokens by their bytes.
#[tactic(auto, unfolding(crate::specs::inside::Reading::parsed_form))]
fn form<'a>(tokens: &[Token<'a>]) -> Option<(Form, &'a str)>
    ensures { seen_destination result ≡ parsed_form (shown_tokens tokens.now) }
{
    if let Some(rest) = after_word(tokens, "if") {
        return branch(rest);
    }
    if let Some(rest) = after_word(tokens, "goto") {
        let (to, label) = destination(rest)?;
        return Some((Form::Jump { long: false, to }, label));
    }
    if let Some(rest) = after_word(tokens, "gotol") {
        let (to, label) = destination(rest)?;
        return Some((Form::Jump { long: true, to }, label));
    }
    if let Some(rest) = after_word(tokens, "call") {
        let (id, rest) = constant(rest)?;
        let form = at_end(Form::Call { id }, rest)?;
        return Some((form, ""));
    }
    if let Some(rest) = after_word(tokens, "exit") {
        let form = at_end(Form::Exit, rest)?;
        return Some((form, ""));
    }
    if let Some(rest) = after_word(tokens, "lock") {
        let form = atomic(rest)?;
        return Some((form, ""));
    }
    if let Some(form) = assigned(tokens) {
        return Some((form, ""));
    }
    let form = store(tokens)?;
    Some((form, ""))
}

// ---- lines

/// The name of the label that the line defines, if its tokens are a name and `:`, and nothing more; `None` of any other line.
#[tactic(auto, unfolding(crate::specs::inside::Reading::parsed_label))]
fn label<'a>(tokens: &[Token<'a>]) -> Option<&'a str>
    ensures { option_map (λ n. n.now) result ≡ parsed_label (shown_tokens tokens.now) }
{
    let (name, rest) = name(tokens)?;
    let rest = after_symbol(rest, ":")?;
    at_end(name, rest)
}

/// The line of these tokens: blank if there are none; the definition of a label if they are a name and `:`; else an instruction, with the
/// label that its jump names, the empty text if it names none. `None` if they are none of these. The contract: the result is the line that
/// the definition `line_of` reads from the tokens.
#[tactic(auto, unfolding(crate::specs::inside::Reading::line_of))]
pub(crate) fn line_of<'a>(tokens: &[Token<'a>]) -> Option<Line<'a>>
    ensures { option_map seen_line result ≡ line_of (shown_tokens tokens.now) }
{
    if ended(tokens) {
        return Some(Line::Blank);
    }
    if let Some(name) = label(tokens) {
        return Some(Line::Label(name));
    }
    let Some((form, label)) = form(tokens) else {
        return None;
    };
    Some(Line::Code(form, label))
}
