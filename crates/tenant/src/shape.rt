//! The shape of a map in MAP_CREATE.

ghost use Rattle.std.specs.Prelude.{◌≡◌, ◌≢◌, IfErr};
ghost use Rattle.tenant.specs.Machine.{kind_of, asked_shape};
ghost use Rattle.tenant.specs.declared.errno.Errno.TheVariants.{BadAddress};

use crate::errno::Errno;
use tagged_model::{MapKind, MapShape, ShapeFault};

/// The kind of maps that has this number in bpf(2): a hash map for 1 (BPF_MAP_TYPE_HASH), an array for 2 (BPF_MAP_TYPE_ARRAY); `None` for
/// any other number, which `asked_shape` rejects.
fn map_kind(number: u32) -> Option<MapKind>
    ensures { result ≡ kind_of number }
{
    match number {
        1 => Some(MapKind::Hash),
        2 => Some(MapKind::Array),
        _ => None,
    }
}

/// The shape with these fields of MAP_CREATE: `kind` is the number of a map's type in bpf(2), from which `kind_of` has the kind of the map,
/// and the sizes are in bytes.
///
/// # Errors
///
/// `Invalid` if `kind` is the number of neither hash maps nor arrays, `key_size` is not 4 for an array or from 1 to 512 for a hash map,
/// `value_size` or `max_entries` is not from 1 to 4096, or a flag is set; else `TooBig` if the map's area would have more than
/// `LARGEST_AREA` bytes, 65,536. `no_fault`: never `BadAddress`, the error of a run that faults, which no command may return.
pub fn asked_shape(
    kind: u32,
    key_size: u32,
    value_size: u32,
    max_entries: u32,
    flags: u32,
) -> Result<MapShape, Errno>
    ensures shape { result ≡ asked_shape (kind_of kind) key_size value_size max_entries flags }
    ensures no_fault { IfErr result (λ errno. errno ≢ BadAddress) }
{
    let Some(kind) = map_kind(kind) else {
        return Err(Errno::Invalid);
    };
    match MapShape::new(kind, key_size, value_size, max_entries, flags) {
        Ok(shape) => Ok(shape),
        Err(ShapeFault::Invalid) => Err(Errno::Invalid),
        Err(ShapeFault::TooBig) => Err(Errno::TooBig),
    }
}
