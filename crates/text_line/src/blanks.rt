//! Blanks: spaces, tabs and carriage returns.

ghost use Rattle.std.specs.Prelude.{◌≡◌};
ghost use Rattle.text_line.specs.Blanks.{is_blank, skip_blanks, stripped};

/// Whether the byte is a space, a tab or a carriage return: the blanks around tokens and hex lines.
pub(crate) fn is_blank(byte: u8) -> bool
    ensures { result ≡ is_blank byte }
{
    byte == b' ' || byte == b'\t' || byte == b'\r'
}

/// The line without the blanks at its front: spaces, tabs and carriage returns. Empty if it has nothing else.
fn skip_blanks(line: &[u8]) -> &[u8]
    ensures { result.now ≡ skip_blanks line.now }
{
    let mut rest = line;
    while let Some((first, after)) = rest.split_first() {
        if !is_blank(*first) {
            break;
        }
        rest = after;
    }
    rest
}

/// The line without the blanks at both ends: spaces, tabs and carriage returns. Empty if it has nothing else.
pub fn stripped(line: &[u8]) -> &[u8]
    ensures { result.now ≡ stripped line.now }
{
    let mut rest = skip_blanks(line);
    while let Some((last, before)) = rest.split_last() {
        if !is_blank(*last) {
            break;
        }
        rest = before;
    }
    rest
}
