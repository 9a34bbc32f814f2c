//! An accepted program, with other objects than those with which it was accepted.

ghost use Rattle.std.specs.Prelude.{◌≡◌, Ok, IsTrue, IfErr, OnOk, OnErr, ◌↔◌};
ghost use Rattle.insn_set.specs.Program.{program_bytes};
ghost use Rattle.verifier.specs.Fits.{Fits};
ghost use Rattle.verifier.specs.Judgement.{Judges};
ghost use Rattle.verifier.specs.Maps.{maps_of, objects_at};
ghost use Rattle.verifier.specs.Verified.{shapes_in};
ghost use Rattle.verifier.specs.declared.fitting.ReplaceFault.TheVariants.{OtherShapes, Memory};

use crate::laws;
use crate::maps::objects_at;
use crate::verified::Verified;
use std::alloc::{AllocError, Global};
use tagged_model::{MapShape, Named, shape_of};

/// Why objects do not replace those with which a program was accepted.
#[derive(Clone, Copy, Debug, PartialEq, Eq)]
pub enum ReplaceFault {
    /// A descriptor of the program's maps names no map of the shape with which the program was accepted.
    OtherShapes,
    /// Out of memory.
    Memory,
}

impl From<AllocError> for ReplaceFault {
    ghost from_gives = { λ _ fault. fault ≡ Memory };

    /// Converts the error of an allocation, for the `?` in `replace_objects`. An allocation fails only if out of memory, so the fault is
    /// `Memory`.
    fn from(_error: AllocError) -> ReplaceFault {
        ReplaceFault::Memory
    }
}

/// Whether `one` and `other` are the same shape, or both `None`. It is a function of its own, so that only its proof has to show that `==`
/// on shapes is equality.
fn is_same(one: Option<MapShape>, other: Option<MapShape>) -> bool
    ensures { IsTrue result ↔ one ≡ other }
{
    one == other
}

impl Verified {
    /// Whether `shape` is the shape that the map of descriptor `fd` had when the program was accepted (`shapes_in`). That shape is `None`
    /// if the program loads neither a map nor an address in a map's value by `fd`. `Verified::fits` and `Tenant::fits` pass the shape of
    /// the map that `fd` names now, or `None` if it names no map. If the result is true for each descriptor of the program's maps, the
    /// program is not verified again.
    pub fn has_shape(&self, fd: u32, shape: Option<MapShape>) -> bool
        ensures { IsTrue result ↔ shape ≡ shapes_in self.now fd }
    {
        is_same(shape, shape_of(&self.found.objects, fd))
    }

    /// Whether each descriptor of the program's maps names, in the list `named`, a map of the shape with which the program was accepted
    /// (`Fits`). If so, the program is accepted with the objects of `named` too, so `replace_objects` does not verify it again. The search
    /// ends at the first descriptor that names no such map.
    fn fits(&self, named: &[Named]) -> bool
        ensures { IsTrue result ↔ Fits self.now named.now }
    {
        for fd in self.maps() {
            if !self.has_shape(*fd, shape_of(named, *fd)) {
                return false;
            }
        }
        true
    }

    /// Replaces the maps with which the program was accepted by those that its descriptors name in `named`, the open descriptors with their
    /// objects. So a prepared program can be installed without a second verification. The new maps need the shapes of the old ones
    /// (`fits`). By `code` the instructions are unchanged, by `judged` the program is accepted with `named` too, and by `objects` it has
    /// the entries of `named` for the descriptors of its maps: so it is what `verify_slots` gives for its slots and `named`.
    ///
    /// # Errors
    ///
    /// `OtherShapes` if a descriptor of its maps names no map of the same shape in `named`; else `Memory` if out of memory. After an
    /// error nothing has changed.
    pub fn replace_objects(&mut self, alloc: Global, named: &[Named]) -> Result<(), ReplaceFault>
        ensures fits { OnOk result (Fits self.old named.now) }
        ensures code { self.new.code ≡ self.old.code }
        ensures judged { OnOk result
            (Judges named.now (program_bytes self.old.code) (Ok self.old.code)) }
        ensures objects { OnOk result
            (self.new.objects ≡ objects_at (maps_of self.old.code) named.now) }
        ensures shapes { IfErr result (λ fault. fault ≡ OtherShapes → ¬ Fits self.old named.now) }
        ensures memory { IfErr result (λ fault. fault ≡ Memory → Fits self.old named.now) }
        ensures err { OnErr result (self.new ≡ self.old) }
    {
        if !self.fits(named) {
            return Err(ReplaceFault::OtherShapes);
        }
        laws::same_shapes_are_accepted();
        // By the contract of `code` the instructions are a program (`IsProgram`).
        self.program.code();
        self.found.objects = objects_at(alloc, named, &self.found.maps)?;
        Ok(())
    }
}
