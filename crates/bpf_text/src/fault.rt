//! Faults of a text.

ghost use Rattle.std.specs.Prelude.{◌≡◌, ◌<◌, ◌^◌};

use std::alloc::{AllocError, AllocFailed};

/// The kinds of faults, lowest first: a line that has several has the lowest of them.
#[derive(Clone, Copy, Debug, PartialEq, Eq)]
pub enum TextFaultKind {
    /// The line has none of the forms.
    Syntax,
    /// A number is out of its range.
    Range,
    /// A jump names a label that no line defines.
    UnknownLabel,
    /// The line defines a label that an earlier line defines.
    LabelTwice,
    /// The line's slots go past the most that a program may have.
    TooLong,
    /// The text has no slot.
    Empty,
    /// Out of memory.
    Memory,
}

impl TextFaultKind {
    ghost use Rattle.bpf_text.specs.Fault.{kind_number};

    /// The number of the kind, from 1 for the lowest kind, `Syntax`, to 7 for the highest, `Memory`. A line that has several faults has the
    /// kind with the lowest number. Error texts print the number, as `line 3: fault 1`.
    pub fn number(self) -> u16
        ensures { result ≡ kind_number self }
    {
        match self {
            TextFaultKind::Syntax => 1,
            TextFaultKind::Range => 2,
            TextFaultKind::UnknownLabel => 3,
            TextFaultKind::LabelTwice => 4,
            TextFaultKind::TooLong => 5,
            TextFaultKind::Empty => 6,
            TextFaultKind::Memory => 7,
        }
    }
}

/// A fault, and the line that has it. Lines are numbered from 1; line 0 is the whole text.
#[derive(Clone, Copy, Debug, PartialEq, Eq)]
pub struct TextFault {
    pub line: usize,
    pub kind: TextFaultKind,
}

/// The fault of a text for which memory is refused: of the whole text, at line 0.
pub(crate) const OUT_OF_MEMORY: TextFault = TextFault {
    line: 0,
    kind: TextFaultKind::Memory,
};

/// The fault of a text without a slot of which no line has a fault: of the whole text, at line 0.
pub(crate) const NO_SLOT: TextFault = TextFault {
    line: 0,
    kind: TextFaultKind::Empty,
};

impl TextFault {
    ghost use Rattle.bpf_text.specs.inside.Faults.{fault_on};

    /// The fault of the line with this index, counted from 0, so that its number is `index + 1`; `Memory` is a fault of the whole text,
    /// at line 0. The bound, which an index of a list meets, keeps the sum from overflowing.
    pub(crate) fn at(index: usize, kind: TextFaultKind) -> TextFault
        requires { index < 2 ^ 63 }
        ensures { result ≡ fault_on index kind }
    {
        let line = if kind == TextFaultKind::Memory {
            0
        } else {
            index + 1
        };
        TextFault { line, kind }
    }
}

/// With `?`, a refusal of memory becomes the fault `Memory` at line 0.
impl From<AllocError> for TextFault {
    ghost use Rattle.bpf_text.specs.Fault.{memory_fault};

    ghost from_gives = { λ _ e. e ≡ memory_fault };

    /// The fault `Memory` at line 0, which is the whole text (`OUT_OF_MEMORY`). It is the result for every error, since an `AllocError` has
    /// no data. The contract is `from_gives`, which the impl defines as a relation of the error, `_`, and the result, `e`: by it the proof
    /// of a function that uses `?` knows the fault.
    fn from(_e: AllocError) -> TextFault {
        OUT_OF_MEMORY
    }
}

impl<T: Drop> From<AllocFailed<T>> for TextFault {
    ghost use Rattle.bpf_text.specs.Fault.{memory_fault};

    ghost from_gives = { λ _ e. e ≡ memory_fault };

    /// The fault `Memory` at line 0, which is the whole text (`OUT_OF_MEMORY`). By this conversion `?` turns the error of a call that
    /// needed memory for a value of type `T` and got none, as `Vec::push`, into this fault. The error has that value, which is dropped. The
    /// contract is `from_gives`, which the impl defines as a relation of the error, `_`, and the result, `e`.
    fn from(_e: AllocFailed<T>) -> TextFault {
        OUT_OF_MEMORY
    }
}
