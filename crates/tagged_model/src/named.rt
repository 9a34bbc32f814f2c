//! The objects that descriptors name.

ghost use Rattle.std.specs.Prelude.{◌≡◌};
ghost use Rattle.tagged_model.specs.Named.{target_of, shapes_named};

use crate::shape::{MapShape, Named, Target};

/// The object that a descriptor names: that of the first entry of `named`, the open descriptors, with this descriptor. `None` if none has
/// it.
pub fn target_of(named: &[Named], fd: u32) -> Option<Target>
    ensures { result ≡ target_of named.now fd }
{
    for entry in named {
        if entry.fd == fd {
            return Some(entry.target);
        }
    }
    None
}

/// The shape of the map that a descriptor names, by `named`, the open descriptors; `None` if it is not open, or names a program.
pub fn shape_of(named: &[Named], fd: u32) -> Option<MapShape>
    ensures { result ≡ shapes_named named.now fd }
{
    match target_of(named, fd) {
        Some(Target::Map(shape)) => Some(shape),
        Some(Target::Program) => None,
        None => None,
    }
}
