//! What a descriptor names.

ghost use Rattle.std.specs.Prelude.{◌≡◌, ℕ, List, IsSome};
ghost use Rattle.bpf_maps.specs.Live.{live_at, map_in};
ghost use Rattle.tenant.specs.Described.{described, described_map, described_program, nothing_there, type_number};
ghost use Rattle.tenant.specs.Kept.{state_in};

use crate::object::{LoadedProgram, OpenObject};
use crate::tenant::Tenant;
use bpf_maps::MapKey;
use tagged_model::MapKind;

/// The `kind` of a `Described` whose descriptor is not open.
pub const NOTHING_THERE: u32 = 0;

/// The `kind` of a `Described` whose descriptor names a map.
pub const MAP_THERE: u32 = 1;

/// The `kind` of a `Described` whose descriptor names a program.
pub const PROGRAM_THERE: u32 = 2;

/// What a descriptor names. Fields that do not belong to a map or a program, whichever it names, are 0. A C struct with the same fields has
/// this layout.
#[derive(Clone, Copy, Debug, PartialEq, Eq)]
#[repr(C)]
pub struct Described {
    /// `NOTHING_THERE`, `MAP_THERE` or `PROGRAM_THERE`.
    pub kind: u32,
    /// The type of a map in bpf(2): 1 for a hash map, 2 for an array.
    pub map_type: u32,
    /// The size of a map's keys in bytes.
    pub key_size: u32,
    /// The size of a map's values in bytes.
    pub value_size: u32,
    /// The most keys that a map may have.
    pub max_entries: u32,
    /// How many keys a map has. An array has all its indices.
    pub entries: u32,
    /// How many slots a program has.
    pub slots: u32,
}

impl Described {
    /// The description of a descriptor that is not open: `kind` is `NOTHING_THERE`, and the other fields, which only a map or a program
    /// has, are 0. It is also that of any descriptor of a tenant that is not served.
    pub fn nothing() -> Described
        ensures { result ≡ nothing_there }
    {
        Described {
            kind: NOTHING_THERE,
            map_type: 0,
            key_size: 0,
            value_size: 0,
            max_entries: 0,
            entries: 0,
            slots: 0,
        }
    }

    /// Describes a loaded program, for a call of the library that asks what a descriptor names (`Host::describe`): `kind` is
    /// `PROGRAM_THERE`, and `slots` the number of slots of its instructions, two for a wide one. The other fields, which only a map has,
    /// are 0. The first `program()` lends the verified program, and the second its instructions. A program has at most `MAX_SLOTS` slots,
    /// so the cast keeps their number.
    fn of_program(program: &LoadedProgram) -> Described
        ensures { result ≡ described_program program.now.insns }
    {
        Described {
            kind: PROGRAM_THERE,
            slots: program.program().program().slots() as u32,
            ..Described::nothing()
        }
    }
}

/// The number that bpf(2) has for a kind of maps, there called the type of a map: 1 for hash maps (BPF_MAP_TYPE_HASH), 2 for arrays
/// (BPF_MAP_TYPE_ARRAY). `Described` has it as `map_type`, and the frame of a save that creates a map has it as its kind.
pub fn type_number(kind: MapKind) -> u32
    ensures { result ≡ type_number kind }
{
    match kind {
        MapKind::Hash => 1,
        MapKind::Array => 2,
    }
}

impl Tenant {
    /// The description of a live map, for `describe`: that it is a map (`MAP_THERE`), its shape, and how many keys it has. `slots`, which
    /// only a program has, is 0. The contract holds for any bytes of the tenant's part (`part`), which has the map's values: the
    /// description does not depend on them.
    fn described_map(&self, map: MapKey) -> Described
        requires { IsSome (live_at self.now.live map) }
        ensures { (part : List ℕ) → result ≡ described_map (map_in part self.now.live map) }
    {
        let shape = self.maps.shape(map);
        Described {
            kind: MAP_THERE,
            map_type: type_number(shape.kind),
            key_size: shape.key_size,
            value_size: shape.value_size,
            max_entries: shape.max_entries,
            entries: self.maps.key_count(map),
            slots: 0,
        }
    }

    /// What the descriptor `fd` names at this moment, for the owner of the host (`Host::describe`). `kind` is `MAP_THERE` for a map, of
    /// which the result has the shape and the number of keys; `PROGRAM_THERE` for a program, with its number of slots; `NOTHING_THERE` if
    /// the descriptor is not open. All other fields are 0. The contract holds for any bytes `part` of the tenant's part: what is returned
    /// does not depend on them.
    pub fn describe(&self, fd: u32) -> Described
        ensures { (part : List ℕ) → result ≡ described (state_in part self.now) fd }
    {
        match self.objects.get(fd) {
            None => Described::nothing(),
            Some(OpenObject::Map(map)) => self.described_map(*map),
            Some(OpenObject::Program(program)) => Described::of_program(program),
        }
    }
}
