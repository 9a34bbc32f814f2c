//! Parsers of parts of a line. Each returns the part at the front of the tokens, and the tokens after it; `None` if they do not begin
//! with such a part.

ghost use Rattle.std.specs.Prelude.{◌≡◌};
ghost use Rattle.text_line.specs.inside.Shown.{shown_tokens};
ghost use Rattle.text_line.specs.inside.Reading.{leading_symbol, leading_name, leading_number, after_symbol, after_word};
ghost use Rattle.text_line.specs.inside.Reading.{leading_register, number_from, leading_constant, leading_signed_number};
ghost use Rattle.text_line.specs.inside.Reading.{leading_operand, parsed_destination, leading_address};
ghost use Rattle.text_line.specs.inside.Reading.{leading_wide_value, is_ended, at_end, seen, seen_pair, seen_token, seen_destination};

use crate::form::{Address, JumpTarget, Number, SourceOperand, WideValue};
use crate::names::register_named;
use crate::token::Token;
use insn_set::{AccessSize, Reg, load_by_name};
use words::BITS_64;

/// The number has a minus before it.
const NEGATIVE: bool = true;

/// The number has a plus before it, or no sign.
const NOT_NEGATIVE: bool = false;

// ---- one token, and the tokens after it

/// The text of the first token, if it is a symbol (one of `SYMBOLS`, as `+=` or `(`), and the tokens after it; `None` if it is a name or a
/// number, or if there is no token. The contract compares with the definition `leading_symbol`: `shown_tokens` and `seen_token` convert the
/// tokens and the result of the code to those of definitions.
pub(crate) fn leading_symbol<'t, 'a>(tokens: &'t [Token<'a>]) -> Option<(&'a str, &'t [Token<'a>])>
    ensures { seen_token result ≡ leading_symbol (shown_tokens tokens.now) }
{
    match tokens.split_first() {
        Some((Token::Symbol(symbol), rest)) => Some((*symbol, rest)),
        _ => None,
    }
}

/// The text of the first token, if it is a name, and the tokens after it; `None` if it is a symbol or a number, or if there is no token.
/// The definition `leading_name` gives the same; `seen_token` and `shown_tokens` turn names and tokens of the code to those of definitions.
pub(crate) fn name<'t, 'a>(tokens: &'t [Token<'a>]) -> Option<(&'a str, &'t [Token<'a>])>
    ensures { seen_token result ≡ leading_name (shown_tokens tokens.now) }
{
    match tokens.split_first() {
        Some((Token::Name(name), rest)) => Some((*name, rest)),
        _ => None,
    }
}

/// The value of the first token, if it is a number, and the tokens after it; `None` if it is a name or a symbol, or if there is no token.
/// The value itself is `None` from 2 ^ 64 on. A sign is a token of its own, so no value is negative. In the contract, `shown_tokens` and
/// `seen_pair` only turn tokens of the code into those of the definitions.
pub(crate) fn number<'t, 'a>(tokens: &'t [Token<'a>]) -> Option<(Option<u64>, &'t [Token<'a>])>
    ensures { seen_pair result ≡ leading_number (shown_tokens tokens.now) }
{
    match tokens.split_first() {
        Some((Token::Number(value), rest)) => Some((*value, rest)),
        _ => None,
    }
}

/// The tokens after the first one, if this is the symbol `expected`; `None` if the first token is another symbol, a name or a number, or if
/// there is none. The contract: the definition `after_symbol` returns the same for these tokens; `seen` and `shown_tokens` turn the result
/// and the tokens of the code into those of definitions.
#[tactic(auto, unfolding(crate::specs::inside::Reading::after_symbol))]
pub(crate) fn after_symbol<'t, 'a>(
    tokens: &'t [Token<'a>],
    expected: &str,
) -> Option<&'t [Token<'a>]>
    ensures { seen result ≡ after_symbol expected.now (shown_tokens tokens.now) }
{
    let (found, rest) = leading_symbol(tokens)?;
    if found == expected { Some(rest) } else { None }
}

/// The tokens after the first, if this is the name `expected`, for instance the keyword `goto`; `None` if the first token is another name
/// or no name, or if there is no token. `seen`: the result, with its tokens as definitions have them.
#[tactic(auto, unfolding(crate::specs::inside::Reading::after_word))]
pub(crate) fn after_word<'t, 'a>(tokens: &'t [Token<'a>], expected: &str) -> Option<&'t [Token<'a>]>
    ensures { seen result ≡ after_word expected.now (shown_tokens tokens.now) }
{
    let (found, rest) = name(tokens)?;
    if found == expected { Some(rest) } else { None }
}

// ---- parts of a line

/// Parses the register with which the tokens begin: `r0` to `r10` (all 64 bits) if `wide`, else `w0` to `w10` (the low 32). Returns the
/// register and the tokens after it; `None` if there is no token, or the first is another, also a register of the other width. The
/// definition `leading_register` gives the same: `seen_pair` and `shown_tokens` only turn tokens of the code into those of definitions.
#[tactic(auto, unfolding(crate::specs::inside::Reading::leading_register))]
pub(crate) fn register<'t, 'a>(
    wide: bool,
    tokens: &'t [Token<'a>],
) -> Option<(Reg, &'t [Token<'a>])>
    ensures { seen_pair result ≡ leading_register wide (shown_tokens tokens.now) }
{
    let (name, rest) = name(tokens)?;
    let (found, reg) = register_named(name)?;
    if found == wide {
        Some((reg, rest))
    } else {
        None
    }
}

/// Reads the first token, a number, and gives it the sign that the caller has read before it, which is a token of its own: a minus if
/// `negative`, else a plus or none. Returns the number with its sign, and the tokens after it; `None` if the first token is a name or a
/// symbol, or if there is no token. In the contract `leading_number` reads the token, and the definition `number_from` adds the sign;
/// `seen_pair` and `shown_tokens` turn tokens of the code into those of definitions.
fn number_from<'t, 'a>(negative: bool, tokens: &'t [Token<'a>]) -> Option<(Number, &'t [Token<'a>])>
    ensures { seen_pair result ≡ number_from negative (leading_number (shown_tokens tokens.now)) }
{
    let (magnitude, rest) = number(tokens)?;
    Some((
        Number {
            negative,
            magnitude,
        },
        rest,
    ))
}

/// A constant: a number with a `-` before it, or without a sign. Returns the number and the tokens after it; `None` if the tokens begin
/// with anything else, also with a `+`. The number may be too large for its field, which `Form::insn` checks. The contract has the result
/// and the tokens as definitions have them (`seen_pair`, `shown_tokens`).
#[tactic(auto, unfolding(crate::specs::inside::Reading::leading_constant))]
pub(crate) fn constant<'t, 'a>(tokens: &'t [Token<'a>]) -> Option<(Number, &'t [Token<'a>])>
    ensures { seen_pair result ≡ leading_constant (shown_tokens tokens.now) }
{
    match after_symbol(tokens, "-") {
        Some(rest) => number_from(NEGATIVE, rest),
        None => number_from(NOT_NEGATIVE, tokens),
    }
}

/// A number after its sign, `+` or `-`, as the offset of an address and the target of a jump are written, and the tokens after the number.
/// `None` if the tokens do not begin with a sign and then a number. The first argument of `number_from` is whether the sign is a minus. The
/// contract has the result and the tokens as definitions have them (`seen_pair`, `shown_tokens`).
#[tactic(auto, unfolding(crate::specs::inside::Reading::leading_signed_number))]
pub(crate) fn signed<'t, 'a>(tokens: &'t [Token<'a>]) -> Option<(Number, &'t [Token<'a>])>
    ensures { seen_pair result ≡ leading_signed_number (shown_tokens tokens.now) }
{
    match after_symbol(tokens, "+") {
        Some(rest) => number_from(NOT_NEGATIVE, rest),
        None => number_from(NEGATIVE, after_symbol(tokens, "-")?),
    }
}

/// Parses the second operand of arithmetic or of a conditional jump, or what a store writes, and returns it and the tokens after it. It is
/// a register, an `r` register (64 bits) if `wide`, else a `w` register (the low 32), or a constant, which is a number after a minus or
/// without a sign. `None` if the tokens begin with neither, also with a register of the other width. The contract has the result and the
/// tokens as definitions have them (`seen_pair`, `shown_tokens`).
#[tactic(auto, unfolding(crate::specs::inside::Reading::leading_operand))]
pub(crate) fn operand<'t, 'a>(
    wide: bool,
    tokens: &'t [Token<'a>],
) -> Option<(SourceOperand, &'t [Token<'a>])>
    ensures { seen_pair result ≡ leading_operand wide (shown_tokens tokens.now) }
{
    match register(wide, tokens) {
        Some((reg, rest)) => Some((SourceOperand::Reg(reg), rest)),
        None => {
            let (number, rest) = constant(tokens)?;
            Some((SourceOperand::Number(number), rest))
        }
    }
}

/// Whether `tokens` is empty. For the tokens after a part of a line that was parsed, `true` means that the line ends after this part
/// (`at_end`); for all tokens of a line, that the line is blank, or has only a comment (`line_of`).
pub(crate) fn ended(tokens: &[Token<'_>]) -> bool
    ensures { result ≡ is_ended (shown_tokens tokens.now) }
{
    match tokens.split_first() {
        None => true,
        Some(_) => false,
    }
}

/// Ends the parsing of a line: returns `found`, which the caller has read, if no token is left in `tokens`, those after it. `None` if a
/// token is left, so that nothing may follow a whole instruction or label in a line.
pub(crate) fn at_end<T: Copy>(found: T, tokens: &[Token<'_>]) -> Option<T>
    ensures { result ≡ at_end found (shown_tokens tokens.now) }
{
    if ended(tokens) { Some(found) } else { None }
}

/// Parses the target of a jump, with which a line ends: a number with its sign, as in `goto -1`, or a label, as in `goto done`. Returns the
/// target, and the name of the label, which is empty for a number. `None` if the tokens begin with neither, or if more tokens follow. The
/// contract says that the result is that of the definition, `parsed_destination`.
#[tactic(auto, unfolding(crate::specs::inside::Reading::parsed_destination))]
pub(crate) fn destination<'a>(tokens: &[Token<'a>]) -> Option<(JumpTarget, &'a str)>
    ensures { seen_destination result ≡ parsed_destination (shown_tokens tokens.now) }
{
    match signed(tokens) {
        Some((number, rest)) => at_end((JumpTarget::Number(number), ""), rest),
        None => {
            let (name, rest) = name(tokens)?;
            at_end((JumpTarget::Label, name), rest)
        }
    }
}

/// Reads a memory operand, as `*(u32 *)(r6 + 0)`, from the front of the tokens. Returns whether the name of its size is signed (`s8` to
/// `s32`, not `u8` to `u64`), the size, the address (an `r` register and an offset with its sign, of any range), and the tokens after the
/// operand; `None` if the tokens do not begin with a memory operand. The callers read loads, stores and atomic operations; those of stores
/// and of atomic operations reject a signed size. The contract: the definition `leading_address` reads the same from these tokens;
/// `seen_pair` and `shown_tokens` have the result and the tokens as definitions have them.
#[tactic(auto, unfolding(crate::specs::inside::Reading::leading_address))]
pub(crate) fn address<'t, 'a>(
    tokens: &'t [Token<'a>],
) -> Option<(((bool, AccessSize), Address), &'t [Token<'a>])>
    ensures { seen_pair result ≡ leading_address (shown_tokens tokens.now) }
{
    let rest = after_symbol(tokens, "*")?;
    let rest = after_symbol(rest, "(")?;
    let (name, rest) = name(rest)?;
    let size = load_by_name(name)?;
    let rest = after_symbol(rest, "*")?;
    let rest = after_symbol(rest, ")")?;
    let rest = after_symbol(rest, "(")?;
    let Some((base, rest)) = register(BITS_64, rest) else {
        return None;
    };
    let (offset, rest) = signed(rest)?;
    let rest = after_symbol(rest, ")")?;
    Some(((size, Address { base, offset }), rest))
}

/// The value of a wide load, and the tokens after it; the caller reads the `ll` that follows. The value is `map_fd` and a descriptor;
/// `map_value`, a descriptor, `+` and an offset; or a number. Only a descriptor may have a minus: its field is signed, so that slots with a
/// negative descriptor decode, and are printed with a minus; the offset and the number are unsigned. `None` if the tokens begin with none
/// of these. A number may be out of its field's range, which `Form::insn` checks. The contract: the definition `leading_wide_value` reads
/// the same; `shown_tokens` and `seen_pair` convert the tokens and the result to those of definitions.
#[tactic(auto, unfolding(crate::specs::inside::Reading::leading_wide_value))]
pub(crate) fn wide_value<'t, 'a>(tokens: &'t [Token<'a>]) -> Option<(WideValue, &'t [Token<'a>])>
    ensures { seen_pair result ≡ leading_wide_value (shown_tokens tokens.now) }
{
    if let Some(rest) = after_word(tokens, "map_fd") {
        let (fd, rest) = constant(rest)?;
        return Some((WideValue::MapFd(fd), rest));
    }
    if let Some(rest) = after_word(tokens, "map_value") {
        let (fd, rest) = constant(rest)?;
        let rest = after_symbol(rest, "+")?;
        let (off, rest) = number(rest)?;
        return Some((WideValue::MapValue { fd, off }, rest));
    }
    let (value, rest) = number(tokens)?;
    Some((WideValue::Number(value), rest))
}
