//! A line and its parts.

ghost use Rattle.std.specs.Prelude.{◌≡◌, ◌==◌};
ghost use Rattle.std.specs.List.{after_first, before_first};
ghost use Rattle.cases.specs.Lines.{is_space, is_remark};

use crate::case_error::CaseError;

/// Whether a line is a remark: it is empty, or begins with `#`. `play_lines` prints a remark, but does not play it.
pub fn is_remark(line: &str) -> bool
    ensures { result ≡ is_remark line.now }
{
    match line.as_bytes() {
        [] => true,
        [first, ..] => *first == b'#',
    }
}

/// Splits a text at its first space: the first word, before it (`word`), and the text after it (`rest`). Without a space the first word is
/// the whole text, and the rest is empty. If the text begins with a space, the first word is empty. Players of cases split a line with this
/// function, one word at a time.
pub fn first_word(text: &str) -> (&str, &str)
    ensures word { result.0.now ≡ before_first is_space text.now }
    ensures rest { result.1.now ≡ after_first is_space text.now }
{
    text.split_once(' ').unwrap_or((text, ""))
}

/// Splits the text of a case that runs a command line, such as that of the host: before the first `<` are the arguments, after it is the
/// input. Both are returned as the case has them. `Notation` if there is no `<`.
pub fn input_of(text: &str) -> Result<(&str, &str), CaseError> {
    text.split_once('<').ok_or(CaseError::Notation)
}
