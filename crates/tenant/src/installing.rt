//! Programs that were verified elsewhere.

ghost use Rattle.std.specs.Prelude.{◌≡◌, ℕ, Bool, List, [], Ok, IsTrue, IfOk, IfErr, OnOk, ◌↔◌};
ghost use Rattle.insn_set.specs.Program.{program_bytes};
ghost use Rattle.tagged_model.specs.Named.{shapes_named};
ghost use Rattle.verifier.specs.Fits.{Fits};
ghost use Rattle.verifier.specs.Judgement.{Judges};
ghost use Rattle.tenant.specs.Kept.{IsBound, state_in};
ghost use Rattle.tenant.specs.Loaded.{map_handles};
ghost use Rattle.tenant.specs.inside.Loading.{AreLive};
ghost use Rattle.tenant.specs.Machine.{loaded_program, targets, Loads};
ghost use Rattle.tenant.specs.Replies.{shown_reply, IsWritable};
ghost use Rattle.tenant.specs.State.{TenantState};

use crate::errno::Errno;
use crate::object::LoadedProgram;
use crate::reply::Reply;
use crate::tenant::Tenant;
use std::alloc::{AllocError, Global};
use tagged_model::{MapShape, Target};
use verifier::{ReplaceFault, Verified};

impl Tenant {
    /// The shape of the map that the descriptor `fd` names; `None` if it is not open or names a program. `fits` compares this shape with
    /// that with which a program was accepted. In the contract, `targets` is the list of the open descriptors with their objects, and
    /// `shapes_named` finds the shape in it, as in `Fits`. `part` may be any bytes, since shapes do not depend on them.
    fn shape_at(&self, fd: u32) -> Option<MapShape>
        ensures { (part : List ℕ) →
            result ≡ shapes_named (targets (state_in part self.now)) fd }
    {
        match self.target(fd) {
            Some(Target::Map(shape)) => Some(shape),
            Some(Target::Program) => None,
            None => None,
        }
    }

    /// Whether `program`, which was verified without a host, fits this tenant: each descriptor of its maps names here a map of the shape
    /// with which the program was accepted. If so, `install` opens it without verifying it again. The test ends at the first descriptor
    /// that names no such map. In the clause, `targets` are the open descriptors with their objects, which `Fits` compares; `part`, the
    /// bytes of the tenant's part, may be any, since the shape of a map does not depend on its values.
    fn fits(&self, program: &Verified) -> bool
        ensures { (part : List ℕ) →
            IsTrue result ↔ Fits program.now (targets (state_in part self.now)) }
    {
        for fd in program.maps() {
            if !program.has_shape(*fd, self.shape_at(*fd)) {
                return false;
            }
        }
        true
    }

    /// The loaded program that `program`, which was verified without this tenant, becomes in it: the objects with which it was accepted are
    /// replaced by those that its descriptors name here, and it gets the handles of its maps. These have the shapes with which it was
    /// accepted (`fits`), as `install` has tested, so `OtherShapes` can't occur. The result is accepted with the open descriptors
    /// (`judges`), and is what a load of its slots would open (`found`). Its maps are live (`there`), with the shapes with which it was
    /// accepted (`bound`). `part` may be any bytes. It allocates three lists: the open descriptors with their objects, those of the
    /// program's maps with their objects, and the handles of these maps. `AllocError`: out of memory for one of them.
    fn program_here(
        &self,
        alloc: Global,
        mut program: Verified,
    ) -> Result<LoadedProgram, AllocError>
        requires fits { (part : List ℕ) → Fits program (targets (state_in part self.now)) }
        ensures judges { IfOk result (λ l. (part : List ℕ) → Judges
            (targets (state_in part self.now)) (program_bytes program.code) (Ok l.insns)) }
        ensures found { IfOk result (λ l. (part : List ℕ) →
            l ≡ loaded_program (state_in part self.now) l.insns) }
        ensures bound { IfOk result (IsBound self.now.live) }
        ensures there { IfOk result (λ l. AreLive self.now.live (map_handles l)) }
    {
        let descriptors = self.targets(alloc)?;
        match program.replace_objects(alloc, &descriptors) {
            Ok(()) => self.loaded(alloc, program),
            Err(ReplaceFault::Memory) => Err(AllocError),
            Err(ReplaceFault::OtherShapes) => unreachable!(),
        }
    }

    /// Opens a prepared program, which was verified without a host, at the lowest free descriptor, as PROG_LOAD of its slots does (type 1,
    /// a socket filter). The program fits if each descriptor of its maps names here a map of the shape with which it was accepted. The
    /// program is neither copied nor verified again. Memory is allocated only for three lists (`program_here`): the open descriptors with
    /// their objects, the descriptors of the program's maps with their objects, and the handles of these maps.
    ///
    /// The result is `Err`, with the program, if it does not fit; then nothing has changed (`stale`). If it fits (`fits`), the result is
    /// `Ok`, with the reply or the error of a load of its slots; after an error the program is dropped. The reply is `Opened`, with the new
    /// descriptor. By `loaded` this result and the change of the tenant are those of such a load (`Loads`), whatever bytes the tenant's
    /// part has (`part`); `refused` is whether memory is refused to the load. The result can be written as a reply to a frame (`writable`).
    /// That reply has no payload (`no_payload`): the reply to a load has one only if the verifier rejects the load.
    ///
    /// # Errors
    ///
    /// The error in `Ok` is the first that applies: `TooManyOpen` if no descriptor is free; `NoMemory` if memory for one of the lists is
    /// refused, which sets the tenant's flag of refused memory (`refused`).
    pub fn install(
        &mut self,
        alloc: Global,
        program: Box<Verified>,
    ) -> Result<Result<Reply<'static>, Errno>, Box<Verified>>
        ensures loaded { IfOk result (λ reply. (part : List ℕ) → (refused : Bool)
            × Loads refused (state_in part self.old) 1 (program_bytes program.value.code)
            (shown_reply reply (state_in part self.new))) }
        ensures fits { OnOk result ((part : List ℕ) →
            Fits program.value (targets (state_in part self.old))) }
        ensures stale { IfErr result (λ kept. (kept.value ≡ program.value) × (self.new ≡ self.old)
            × ((part : List ℕ) → ¬ Fits program.value (targets (state_in part self.old)))) }
        ensures writable { IfOk result IsWritable }
        ensures no_payload { IfOk result (λ reply. (s : TenantState) →
            (shown_reply reply s).payload ≡ []) }
    {
        if !self.fits(&program) {
            return Err(program);
        }
        if self.objects.is_full() {
            return Ok(Err(Errno::TooManyOpen));
        }
        match self.program_here(alloc, Box::into_inner(program)) {
            Ok(program) => Ok(Ok(Reply::Opened(self.open_program(program)))),
            Err(AllocError) => {
                self.refused = true;
                Ok(Err(Errno::NoMemory))
            }
        }
    }
}
