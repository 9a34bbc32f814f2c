//! The lines of a text.

ghost use Rattle.std.specs.Prelude.{◌≡◌, map, IfOk};
ghost use Rattle.bpf_text.specs.Lines.{text_lines};

use std::alloc::{AllocError, Global};

/// The lines of a text, in order: the text is split at each line feed, and no line has one. What follows the last line feed is a line too,
/// even if it is empty (`text_lines`), so an empty text has one empty line. The assembler and the reader of hex lines use this.
/// `AllocError`: out of memory.
pub(crate) fn split_lines(alloc: Global, text: &str) -> Result<Vec<&str>, AllocError>
    ensures { IfOk result (λ lines. map (λ line. line.now) lines.items ≡ text_lines text.now) }
{
    text.split('\n').collect(alloc)
}
