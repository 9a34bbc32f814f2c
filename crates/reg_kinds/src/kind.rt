//! Kinds of values, and of stack slots.

ghost use Rattle.std.specs.Prelude.{◌≤ℤ◌};

use interval::Range;

/// A pointer into a value of a map, at an offset from `lo` to `hi`, both included.
#[derive(Clone, Copy, Debug, PartialEq, Eq)]
pub struct ValuePointer {
    /// The descriptor of the map.
    pub map: u32,
    /// The least offset, in bytes from the start of the value. Offsets may lie outside the value: each access is checked.
    pub lo: i32,
    /// The greatest offset, included.
    pub hi: i32,
    /// For contracts: the least offset is at most the greatest.
    pub ghost ordered: { lo ≤ℤ hi },
}

impl ValuePointer {
    ghost use Rattle.std.specs.Prelude.{◌≡◌, ◌≤ℤ◌};
    ghost use Rattle.reg_kinds.specs.Pointers.{value_span};

    /// A pointer into a value of the map with descriptor `map`, at an offset from `lo` to `hi`, both included, in bytes from the start of
    /// the value. `value_span` defines such a pointer for any two numbers: its upper end is the greater of both, so that no range is empty.
    /// Callers pass the ends of a range, in order, so here that end is `hi`.
    pub fn new(map: u32, lo: i32, hi: i32) -> ValuePointer
        requires { lo ≤ℤ hi }
        ensures { result ≡ value_span map lo hi }
    {
        ValuePointer { map, lo, hi }
    }
}

/// What is known of a value.
#[derive(Clone, Copy, Debug, PartialEq, Eq)]
pub enum Kind {
    /// Nothing is known: it may be uninitialized, and may not be read.
    Unreadable,
    /// A number of a range.
    Scalar(Range),
    /// A map, by its descriptor.
    MapRef(u32),
    /// A pointer into the stack, by its offset from the stack's upper end.
    Stack(i32),
    /// The pointer to the context.
    Ctx,
    /// A pointer into a value of a map.
    Value(ValuePointer),
    /// The result of a look-up before its null test: 0, or a pointer to the start of a value of the map.
    MaybeValue {
        /// The descriptor of the map.
        map: u32,
        /// The slot of the look-up. All copies of its result carry it.
        site: usize,
    },
}

/// What is known of eight bytes of the stack.
#[derive(Clone, Copy, Debug, PartialEq, Eq)]
pub enum Slot {
    /// The mask of the bytes that are written: bit 0 is the lowest byte.
    Bytes(u8),
    /// A spill: the eight bytes hold a pointer or a map of this kind, whole.
    Spill(Kind),
}

impl Kind {
    ghost use Rattle.std.specs.Prelude.{◌≡◌};
    ghost use Rattle.reg_kinds.specs.Kinds.{is_pointer};

    /// Whether the kind counts as a pointer: true for a pointer, for the result of a look-up before its null test, and for a map reference.
    /// A store puts such a value into the stack whole or not at all, and never into the value of a map. False for a number, and for
    /// `Unreadable`.
    pub fn is_pointer(self) -> bool
        ensures { result ≡ is_pointer self }
    {
        match self {
            Kind::Unreadable | Kind::Scalar(_) => false,
            Kind::MapRef(_) => true,
            Kind::Stack(_) => true,
            Kind::Ctx => true,
            Kind::Value(_) => true,
            Kind::MaybeValue { .. } => true,
        }
    }
}
