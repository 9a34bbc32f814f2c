//! Reading a line.

ghost use Rattle.std.specs.Prelude.{option_map, IfOk};
ghost use Rattle.text_line.specs.Line.{ReadAs};
ghost use Rattle.text_line.specs.Shown.{seen_line};

use crate::form::Line;
use crate::line::line_of;
use crate::token::tokens;
use std::alloc::{AllocError, Global};

/// Parses one line of a text, given without its line feed. A line is blank, defines a label, or has an instruction.
///
/// `None` if the line is none of these; so also if something before its comment is no token, or if a byte is not ASCII, even in its
/// comment. A number out of its field's range is no reason for `None`: the form keeps it, and the assembler rejects it. The contract: by
/// the definition of the grammar, the bytes are read as the returned line, or as no line if it is `None` (`ReadAs`). `seen_line` is the
/// line of the definitions that a `Line` of the code represents.
///
/// # Errors
///
/// `AllocError`: out of memory for the line's tokens. Nothing is kept then.
pub fn read_line<'a>(alloc: Global, line: &'a str) -> Result<Option<Line<'a>>, AllocError>
    ensures { IfOk result (λ found. ReadAs line.now (option_map seen_line found)) }
{
    match tokens(alloc, line)? {
        None => Ok(None),
        Some(tokens) => Ok(line_of(&tokens)),
    }
}
