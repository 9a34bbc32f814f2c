//! The shapes of maps, and the objects that descriptors name.

ghost use Rattle.std.specs.Prelude.{◌≡◌, ◌<◌, ◌≤◌, true, IsTrue, IfOk, OnOk, IfErr, Some, None};
ghost use Rattle.tagged_model.specs.Shape.{area, is_shape, largest_area, longest_value, shape_fault};

/// The length of the longest key of a hash map in bytes, a limit of this project.
pub const LONGEST_KEY: u32 = 512;

/// The length of the longest value in bytes, a limit of this project.
pub const LONGEST_VALUE: u32 = 4096;

/// The most entries that a map may have, a limit of this project.
pub const MOST_ENTRIES: u32 = 4096;

/// The size of the largest area, which holds the values of one map, in bytes. A limit of this project.
pub const LARGEST_AREA: u32 = 65_536;

/// How a map finds the value of a key.
#[derive(Clone, Copy, Debug, PartialEq, Eq)]
pub enum MapKind {
    /// By a key of any bytes: a hash map.
    Hash,
    /// By an index: an array.
    Array,
}

/// Why no map may have a shape.
#[derive(Clone, Copy, Debug, PartialEq, Eq)]
pub enum ShapeFault {
    /// A field is outside its limits, or a flag is set.
    Invalid,
    /// The values take more than `LARGEST_AREA` bytes.
    TooBig,
}

/// The shape of a map. Its fields are within their limits, and its values take at most `LARGEST_AREA` bytes.
#[derive(Clone, Copy, Debug, PartialEq, Eq)]
pub struct MapShape {
    pub kind: MapKind,
    /// In bytes: 4 for an array, 1 to `LONGEST_KEY` for a hash map.
    pub key_size: u32,
    /// In bytes, 1 to `LONGEST_VALUE`.
    pub value_size: u32,
    /// The most entries of a hash map, or the number of entries of an array: 1 to `MOST_ENTRIES`.
    pub max_entries: u32,
    /// For contracts: the fields are within their limits, and so is the area of the values.
    pub ghost listed: { IsTrue (is_shape kind key_size value_size max_entries) },
}

/// The object that a descriptor names.
#[derive(Clone, Copy, Debug, PartialEq, Eq)]
pub enum Target {
    /// A map of this shape.
    Map(MapShape),
    /// A loaded program.
    Program,
}

/// An open descriptor, `fd`, and the object that it names.
#[derive(Clone, Copy, Debug, PartialEq, Eq)]
pub struct Named {
    pub fd: u32,
    pub target: Target,
}

impl MapShape {
    ghost use Rattle.tagged_model.specs.Table.{has_direct_value};

    /// Makes the shape with these fields (`made`), as in bpf(2), BPF_MAP_CREATE. The sizes are in bytes; `flags` has to be 0. A shape is
    /// made only of fields for which `shape_fault` is `None` (`listed`); else the error is this fault (`fault`).
    ///
    /// # Errors
    ///
    /// `Invalid` if a flag is set or a field is outside its limits: `key_size` is 4 for an array, 1 to `LONGEST_KEY` for a hash map,
    /// `value_size` is 1 to `LONGEST_VALUE`, `max_entries` is 1 to `MOST_ENTRIES`. Else `TooBig` if the values, each rounded up to a
    /// multiple of eight bytes, take more than `LARGEST_AREA` bytes.
    pub fn new(
        kind: MapKind,
        key_size: u32,
        value_size: u32,
        max_entries: u32,
        flags: u32,
    ) -> Result<MapShape, ShapeFault>
        ensures made { IfOk result (λ s. (s.kind ≡ kind) × (s.key_size ≡ key_size)
            × (s.value_size ≡ value_size) × (s.max_entries ≡ max_entries)) }
        ensures listed { OnOk result (shape_fault kind key_size value_size max_entries flags
            ≡ None) }
        ensures fault { IfErr result (λ e. shape_fault kind key_size value_size max_entries flags
            ≡ Some e) }
    {
        let has_key = match kind {
            MapKind::Hash => key_size >= 1 && key_size <= LONGEST_KEY,
            MapKind::Array => key_size == 4,
        };
        let in_limits = value_size >= 1
            && value_size <= LONGEST_VALUE
            && max_entries >= 1
            && max_entries <= MOST_ENTRIES;
        if !has_key || !in_limits || flags != 0 {
            return Err(ShapeFault::Invalid);
        }
        if max_entries * value_size.next_multiple_of(8) > LARGEST_AREA {
            return Err(ShapeFault::TooBig);
        }
        Ok(MapShape {
            kind,
            key_size,
            value_size,
            max_entries,
        })
    }

    /// Whether a program may load the address of a value without a call, at an offset in bytes: true if the map is an array of one element,
    /// and the offset lies in its value (linux/bpf.h, BPF_PSEUDO_MAP_VALUE). Such an offset is below `LONGEST_VALUE` (`bound`), since no
    /// value has more bytes. The verifier's facts have the offset of a pointer into a value as an `i32`: by `bound` the cast to that type
    /// (`signed_offset` of `transfer`) does not change the offset.
    pub fn has_direct_value(&self, offset: u32) -> bool
        ensures value { result ≡ has_direct_value self.now offset }
        ensures bound { result ≡ true → offset < longest_value }
    {
        self.kind == MapKind::Array && self.max_entries == 1 && offset < self.value_size
    }

    /// The number of bytes that the values of a map of this shape take, each rounded up to a multiple of eight: at most `LARGEST_AREA`
    /// (`bound`). This follows from `listed`, a field of each shape that only contracts see: the other fields and the area are within their
    /// limits. So the product does not overflow.
    pub fn area(&self) -> u32
        ensures value { result ≡ area self.now.value_size self.now.max_entries }
        ensures bound { result ≤ largest_area }
    {
        self.max_entries * self.value_size.next_multiple_of(8)
    }
}
