//! The tokens of a line.

ghost use Rattle.std.specs.Prelude.{◌≡◌, ◌≤◌, ◌<◌, List, length, drop, map, nat_eq, find};
ghost use Rattle.std.specs.Prelude.{option_map, IfSome, IfNone, IfOk, IsTrue, slice_index};
ghost use Rattle.std.specs.List.{prefix_len, starts_with};
ghost use Rattle.std.specs.Option.{option_map_or};
ghost use Rattle.std.specs.Str.{IsAscii};
ghost use Rattle.std.specs.Str.Parse.{digits_value};
ghost use Rattle.text_line.specs.Blanks.{skip_blanks};
ghost use Rattle.text_line.specs.Token.{Token as AnyToken, number as Number, symbol as Symbol};
ghost use Rattle.text_line.specs.Token.{value_of, is_name_start, is_hex_digit, is_over, IsTokens};
ghost use Rattle.text_line.specs.inside.Tokens.{symbol_at, name_at, number_at, token_at, run};
ghost use Rattle.text_line.specs.inside.Shown.{shown, shown_front, shown_tokens};
ghost use Rattle.text_line.specs.inside.Class.{in_class, IsDigits};

use crate::blanks::is_blank;
use std::alloc::{AllocError, Global};

/// A token of a line. Names and symbols are borrowed from the line.
#[derive(Clone, Copy, Debug)]
pub(crate) enum Token<'a> {
    /// A letter or `_`, and the letters, digits and `_` after it.
    Name(&'a str),
    /// The value of a number, whose sign is a symbol before it; `None` from 2 ^ 64 on.
    Number(Option<u64>),
    /// One of `SYMBOLS`.
    Symbol(&'a str),
}

/// The symbols, the longer ones first: so the first one with which a text begins is the longest.
const SYMBOLS: [&str; 31] = [
    "s>>=", "s/=", "s%=", "s>=", "s<=", "<<=", ">>=", "s>", "s<", "+=", "-=", "*=", "/=", "|=",
    "&=", "%=", "^=", "==", ">=", "!=", "<=", "=", ">", "<", "&", "+", "-", "*", "(", ")", ":",
];

/// The length, in bytes, of the longest symbol with which the text begins, as 3 for `<<=1`; 0 if it begins with none (no symbol is empty).
/// `SYMBOLS` has the longer symbols first, so the first one with which the text begins is the longest. `value`: the definition `symbol_at`
/// finds this symbol. At this length, at most the text's (`bound`), `symbol` splits the text.
#[tactic(auto, unfolding(crate::specs::inside::Tokens::symbol_at))]
fn symbol_len(text: &[u8]) -> usize
    ensures bound { result ≤ length text.now }
    ensures value { result ≡ option_map_or length (symbol_at text.now) 0 }
{
    first_len(text, &SYMBOLS)
}

/// The length in bytes of the first symbol of `symbols` with which `text` begins; 0 if it begins with none of them. The caller's list,
/// `SYMBOLS`, has the longer ones first, so of its symbols this is the longest.
fn first_len(text: &[u8], symbols: &[&str]) -> usize
    ensures bound { result ≤ length text.now }
    ensures value { result ≡ option_map_or length
        (find (λ s. starts_with nat_eq text.now s) (map (λ s. s.now) symbols.now)) 0 }
{
    for symbol in symbols {
        if text.starts_with(symbol.as_bytes()) {
            return symbol.len();
        }
    }
    0
}

/// Classes of bytes: blanks, the bytes of a name after its first, decimal digits, and hexadecimal ones.
#[derive(Clone, Copy, Debug)]
enum ByteClass {
    Blank,
    Name,
    Digit,
    HexDigit,
}

impl ByteClass {
    ghost use Rattle.text_line.specs.inside.Class.{in_class};

    /// Whether the byte is of this class. `Blank`: a space, a tab or a carriage return. `Name`: a letter of ASCII, `_` or a decimal digit,
    /// as a name may have after its first byte. `Digit`: a decimal digit. `HexDigit`: a hexadecimal digit, in upper or lower case.
    fn contains(self, byte: u8) -> bool
        ensures { result ≡ in_class self byte }
    {
        match self {
            ByteClass::Blank => is_blank(byte),
            ByteClass::Name => is_name_start(byte) || byte.is_ascii_digit(),
            ByteClass::Digit => byte.is_ascii_digit(),
            ByteClass::HexDigit => is_hex_digit(byte),
        }
    }

    /// How many bytes `text` has before its first byte that is not of this class; its length if all are of the class.
    fn run_len(self, text: &[u8]) -> usize
        ensures value { result ≡ prefix_len (in_class self) text.now }
        ensures bound { result ≤ length text.now }
    {
        let mut len = 0;
        while len < text.len() && self.contains(text[len]) {
            len += 1;
        }
        len
    }
}

/// Whether a name can begin with the byte: an ASCII letter or `_`. After its first byte a name can have digits too.
fn is_name_start(byte: u8) -> bool
    ensures { result ≡ is_name_start byte }
{
    byte.is_ascii_alphabetic() || byte == b'_'
}

/// Whether the byte is a hexadecimal digit, in either case: `A` to `F` are 65 to 70, `a` to `f` 97 to 102.
fn is_hex_digit(byte: u8) -> bool
    ensures { result ≡ is_hex_digit byte }
{
    byte.is_ascii_digit() || (byte > 64 && byte < 71) || (byte > 96 && byte < 103)
}

/// The byte at `index` of `text`; the byte 0 if `index` is past the end. So `name` and `number` can test the first bytes of a text of any
/// length: the byte 0 begins no name, and is no digit and no `x`.
fn byte_at(text: &[u8], index: usize) -> u8
    ensures { result ≡ slice_index text.now index }
{
    if index < text.len() { text[index] } else { 0 }
}

/// The text without the blanks at its front: spaces, tabs and carriage returns. The text is ASCII, as `tokens` has checked, so it can be
/// split at any byte; the result is ASCII too (`ascii`). By `bound` the result is not longer than the text: each token makes the text
/// shorter, so `tokens` terminates.
fn after_blanks(text: &str) -> &str
    requires { IsAscii text.now }
    ensures value { result.now ≡ skip_blanks text.now }
    ensures ascii { IsAscii result.now }
    ensures bound { length result.now ≤ length text.now }
{
    let (_, rest) = text.split_at(ByteClass::Blank.run_len(text.as_bytes()));
    rest
}

/// The longest of `SYMBOLS` (such as `+=`, `s>` or `(`) with which `text` begins, as a token, and the text after it; `None` if `text`
/// begins with none. The text after a symbol is ASCII (`ascii`) and shorter than `text` (`shorter`), since no symbol is empty: so the loop
/// of `tokens` ends. `text` is ASCII, as `tokens` has checked, so it can be split at any byte.
fn symbol(text: &str) -> Option<(Token<'_>, &str)>
    requires { IsAscii text.now }
    ensures value { shown_front result ≡ option_map
        (λ s. (Symbol s, drop (length s) text.now)) (symbol_at text.now) }
    ensures ascii { IfSome result (λ r. IsAscii r.1.now) }
    ensures shorter { IfSome result (λ r. length r.1.now < length text.now) }
{
    let len = symbol_len(text.as_bytes());
    if len == 0 {
        return None;
    }
    let (symbol, rest) = text.split_at(len);
    Some((Token::Symbol(symbol), rest))
}

/// The name at the front, a letter or `_` and the letters, digits and `_` after it, as a token, and the text after it (`value`). All words
/// of a line are names: registers, mnemonics, sizes and labels, as `r1`, `goto`, `u8` or `out`. `None` if the text does not begin with a
/// letter or `_`. The text is ASCII, as `tokens` has checked, so it can be split at any byte. The text after the name is ASCII too
/// (`ascii`), and shorter (`shorter`), so that the loop of `tokens` ends.
#[tactic(auto, unfolding(crate::specs::inside::Tokens::name_at))]
fn name(text: &str) -> Option<(Token<'_>, &str)>
    requires { IsAscii text.now }
    ensures value { shown_front result ≡ name_at text.now }
    ensures ascii { IfSome result (λ r. IsAscii r.1.now) }
    ensures shorter { IfSome result (λ r. length r.1.now < length text.now) }
{
    let bytes = text.as_bytes();
    if !is_name_start(byte_at(bytes, 0)) {
        return None;
    }
    let (name, rest) = text.split_at(ByteClass::Name.run_len(bytes));
    Some((Token::Name(name), rest))
}

/// The number at the front, decimal, or hexadecimal after `0x`, and the text after it (`value`; `number_at` is the definition). The result
/// is `None` if no digit is at the front; the value in the token is `None` from 2^64 on. If no hexadecimal digit follows `0x`, the number
/// is 0, and the text after it begins with the `x`. The text is ASCII, as `tokens` has checked, so it can be split at any byte. The text
/// after the number is ASCII too (`ascii`), and shorter (`shorter`), so the loop of `tokens` ends.
#[tactic(auto, unfolding(crate::specs::inside::Tokens::number_at))]
fn number(text: &str) -> Option<(Token<'_>, &str)>
    requires { IsAscii text.now }
    ensures value { shown_front result ≡ number_at text.now }
    ensures ascii { IfSome result (λ r. IsAscii r.1.now) }
    ensures shorter { IfSome result (λ r. length r.1.now < length text.now) }
{
    let bytes = text.as_bytes();
    let first = byte_at(bytes, 0);
    if first == b'0' && byte_at(bytes, 1) == b'x' && is_hex_digit(byte_at(bytes, 2)) {
        let (_, digits) = text.split_at(2);
        return Some(value(digits, ByteClass::HexDigit, 16));
    }
    if first.is_ascii_digit() {
        return Some(value(text, ByteClass::Digit, 10));
    }
    None
}

/// The number at the front, and the text after it (`rest`). Its digits are all bytes at the front that are of this class, which is `Digit`
/// with radix 10 or `HexDigit` with radix 16 (`digits`). The caller has seen that the first byte is a digit (`first`), so the text after
/// the number is shorter (`shorter`). The value in the token is that of the digits, or `None` from 2 ^ 64 on (`value`). The text is ASCII,
/// as `tokens` has checked, so it can be split at any byte, and the text after the number is ASCII too (`ascii`).
fn value(text: &str, class: ByteClass, radix: u32) -> (Token<'_>, &str)
    requires ascii { IsAscii text.now }
    requires digits { IsDigits class radix }
    requires first { IsTrue (in_class class (slice_index text.now 0)) }
    ensures value { shown result.0 ≡ Number
        (value_of (digits_value radix (run (in_class class) text.now))) }
    ensures rest { result.1.now ≡ drop (prefix_len (in_class class) text.now) text.now }
    ensures ascii { IsAscii result.1.now }
    ensures shorter { length result.1.now < length text.now }
{
    let (digits, rest) = text.split_at(class.run_len(text.as_bytes()));
    (Token::Number(u64::from_str_radix(digits, radix).ok()), rest)
}

/// The longest token at the front of the text, and the text after it; `None` if no token begins there. `value`: `token_at` defines the
/// result. Blanks are not skipped. Symbols are tried first: a text that begins with `s>=` also begins with the name `s`, which is shorter.
/// The text is ASCII, as `tokens` has checked, and so is the text after the token (`ascii`), which `tokens` gives to the next call. That
/// text is shorter (`shorter`), so the loop of `tokens` ends.
#[tactic(auto, unfolding(crate::specs::inside::Tokens::token_at))]
fn first_token(text: &str) -> Option<(Token<'_>, &str)>
    requires { IsAscii text.now }
    ensures value { shown_front result ≡ token_at text.now }
    ensures ascii { IfSome result (λ r. IsAscii r.1.now) }
    ensures shorter { IfSome result (λ r. length r.1.now < length text.now) }
{
    if let Some(found) = symbol(text) {
        return Some(found);
    }
    if let Some(found) = name(text) {
        return Some(found);
    }
    number(text)
}

/// Whether a line has no more tokens: `text`, the rest of the line, is empty, or it is a comment, which begins with `//`. `tokens` asks
/// this after it has removed the blanks at the front (`after_blanks`); the contract does not require that, and a blank at the front gives
/// false.
fn is_over(text: &[u8]) -> bool
    ensures { result ≡ is_over text.now }
{
    text.is_empty() || text.starts_with(b"//")
}

/// The tokens of a line, in order, each the longest with which the rest of the line begins; blanks and the comment, from `//` on, are no
/// tokens. `None` if something before the comment is no token, or a byte of the line is not ASCII, also in the comment. `found`: the tokens
/// that are returned are those that the definition `IsTokens` gives the line. `none`: if `None` is returned, the line has no tokens by that
/// definition, not even an empty list. `AllocError`: out of memory.
pub(crate) fn tokens<'a>(alloc: Global, line: &'a str) -> Result<Option<Vec<Token<'a>>>, AllocError>
    ensures found { IfOk result (λ o. IfSome o (λ ts. IsTokens line.now (shown_tokens ts.items))) }
    ensures none { IfOk result (λ o. IfNone o ((ts : List AnyToken) → ¬ IsTokens line.now ts)) }
{
    if !line.is_ascii() {
        return Ok(None);
    }
    let mut tokens = Vec::new(alloc);
    let mut rest = line;
    loop {
        let text = after_blanks(rest);
        if is_over(text.as_bytes()) {
            return Ok(Some(tokens));
        }
        let Some((token, after)) = first_token(text) else {
            return Ok(None);
        };
        tokens.push(token)?;
        rest = after;
    }
}
