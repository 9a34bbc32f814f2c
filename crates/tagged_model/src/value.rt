//! Tagged values, and the outcomes of a run on them.

use words::GIVEN_WORDS;

/// The number of words in the context of a run, the first ones of `__sk_buff` (linux/bpf.h): the packet's length, and those that the
/// caller gives.
pub const CONTEXT_WORDS: usize = 1 + GIVEN_WORDS;

/// The largest offset of a pointer in its object, in bytes, and minus the smallest: 2^29. A step that moves a pointer farther is a fault. A
/// limit of this project.
pub const FARTHEST_OFFSET: i64 = 0x2000_0000;

/// The object that a pointer points into.
#[derive(Clone, Copy, Debug, PartialEq, Eq)]
pub enum Object {
    /// The stack. Its bytes have the offsets -512 to -1, counted from its upper end.
    Stack,
    /// The context of the run. Offsets count from its start.
    Context,
    /// A value of a map, by the map's descriptor and a number in that map that is never given twice in a run. Offsets count from its start.
    Value { map: u32, number: u64 },
}

/// A tagged value, which a register may hold.
#[derive(Clone, Copy, Debug, PartialEq, Eq)]
pub enum Tagged {
    /// A 64-bit word.
    Scalar(u64),
    /// A map, by its descriptor.
    Map(u32),
    /// A pointer, by its object and its offset in it, in bytes; it may point outside the object.
    Pointer { object: Object, offset: i64 },
}

/// How a run ends.
#[derive(Clone, Copy, Debug, PartialEq, Eq)]
pub enum Outcome {
    /// A result: the low 32 bits of register 0.
    Value(u32),
    /// A fault: the machine of tagged values has no step.
    Fault,
}
