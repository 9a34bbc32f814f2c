//! PROG_LOAD.

ghost use Rattle.std.specs.Prelude.{◌≡◌, ◌≤◌, ◌+◌, ◌*◌, ◌<◌, ◌^◌, ℕ, Bool, false, List, IfOk, IfErr, Ok, Err, Some, length, is_none, map};
ghost use Rattle.bpf_maps.specs.Live.{references_at};
ghost use Rattle.fd_table.specs.Table.{first_descriptor, most, named, lowest};
ghost use Rattle.verifier.specs.Judgement.{Judges};
ghost use Rattle.verifier.specs.Maps.{maps_of, objects_at};
ghost use Rattle.verifier.specs.Verdict.{IsAccepted};
ghost use Rattle.tenant.specs.Kept.{times_listed, AreHeld, IsBound, state_in};
ghost use Rattle.tenant.specs.Loaded.{map_handles};
ghost use Rattle.tenant.specs.inside.Loading.{with_program, AreLive, IsHeldMore};
ghost use Rattle.tenant.specs.Machine.{loaded_program, named_handle, handles_from, targets, Loads};
ghost use Rattle.tenant.specs.Replies.{shown_reply, IsWritable};

use crate::errno::Errno;
use crate::object::{LoadedProgram, OpenObject};
use crate::reply::Reply;
use crate::tenant::{Tenant, open};
use bpf_maps::{MapKey, Maps};
use fd_table::FdTable;
use std::alloc::{AllocError, Global};
use verifier::{Refusal, Verified, WorkingMemory, laws, verify_slots};

/// The type of socket filters, the only one that can be loaded (BPF_PROG_TYPE_SOCKET_FILTER).
const SOCKET_FILTER: u32 = 1;

/// Adds one reference to the map of each handle in `held`, the handles of a program that is opened. Their maps are live (`there`). Before
/// and after, each live map has a reference, and no element is kept apart (`AreHeld`); shapes, keys and values are unchanged
/// (`IsHeldMore`). `references_at` is the number of a map's references, `times_listed` how often `held` has a handle; their sum fits in 32
/// bits (`few`): a map has few references, since at most `MOST` objects (`fd_table`) are open, and each names a map at most once.
fn hold_all(maps: &mut Maps, held: &[MapKey])
    requires live { AreHeld maps.old }
    requires there { AreLive maps.old held.now }
    requires few { (handle : ℕ)
        → references_at maps.old handle + times_listed handle held.now < 2 ^ 32 }
    ensures held { IsHeldMore maps.old maps.new }
    ensures holds { (handle : ℕ) → references_at maps.new handle
        ≡ references_at maps.old handle + times_listed handle held.now }
{
    for map in held {
        maps.hold(*map);
    }
}

/// The handle of the map that a descriptor names; `None` if the descriptor is not open or names a program. `maps_named` leaves such a
/// descriptor out. The method `map_named` of `Tenant`, for commands on a map, returns an error number for it.
fn map_named(objects: &FdTable<OpenObject>, fd: u32) -> Option<MapKey>
    ensures { result ≡ named_handle (named objects.now fd) }
{
    match objects.get(fd)? {
        OpenObject::Map(map) => Some(*map),
        OpenObject::Program(_) => None,
    }
}

/// The handles of the maps that the descriptors `fds` name, in the order of `fds`. A descriptor that names no map is left out; `loaded`,
/// the only caller, gives none, since each descriptor of an accepted program's maps names a live map. In the contract, `handles_from` has
/// pairs of a descriptor and a handle, of which `m.1` is the handle. `AllocError`: out of memory.
fn maps_named(
    alloc: Global,
    objects: &FdTable<OpenObject>,
    fds: &[u32],
) -> Result<Vec<MapKey>, AllocError>
    ensures { IfOk result (λ found.
        found.items ≡ map (λ m. m.1) (handles_from objects.now fds.now)) }
{
    let mut found = Vec::new(alloc);
    for fd in fds {
        if let Some(map) = map_named(objects, *fd) {
            found.push(map)?;
        }
    }
    Ok(found)
}

impl Tenant {
    /// Makes a loaded program of `program` and the handles of its maps, for a load or an install. The maps get no reference here, but from
    /// `open_program`. By `accepted`, `program` is accepted with the objects that the open descriptors name now (`targets`). By `objects`,
    /// the list kept with `program` is that of the open descriptors of its maps, each with its object. Each descriptor of its maps names a
    /// map, by the law `loaded_maps_have_shapes`, and is in `maps_of` only once, by `maps_are_listed`. So its maps are live (`there`), have
    /// the shapes with which `program` was accepted, and, since no two descriptors name one map, no handle occurs twice (`bound`). The
    /// result has the instructions of `program` (`insns`), and is the loaded program that the tenant's machine makes of them (`found`). The
    /// machine's state, `state_in`, takes the values of maps from `part`, the bytes of the tenant's part of the arena. The clauses hold for
    /// any bytes, as no value matters for a load. `AllocError`: out of memory.
    pub(crate) fn loaded(
        &self,
        alloc: Global,
        program: Verified,
    ) -> Result<LoadedProgram, AllocError>
        requires accepted { (part : List ℕ)
            → IsAccepted program.code (targets (state_in part self.now)) }
        requires objects { (part : List ℕ) → program.objects
            ≡ objects_at (maps_of program.code) (targets (state_in part self.now)) }
        ensures insns { IfOk result (λ l. l.insns ≡ program.code) }
        ensures found { IfOk result (λ l. (part : List ℕ) →
            l ≡ loaded_program (state_in part self.now) l.insns) }
        ensures bound { IfOk result (IsBound self.now.live) }
        ensures there { IfOk result (λ l. AreLive self.now.live (map_handles l)) }
    {
        laws::loaded_maps_have_shapes();
        laws::maps_are_listed();
        let maps = maps_named(alloc, &self.objects, program.maps())?;
        Ok(LoadedProgram::new(program, maps))
    }

    /// Verifies the program that the slots spell, with the tenant's open descriptors. `working` is memory to work in, which the next load
    /// of any tenant can use again; its contents mean nothing. Returns the program (`judges`) with the handles of its maps (`found`) if it
    /// is accepted, else why the slots are rejected (`refused`). `AllocError`: out of memory. The maps of an accepted program are live
    /// (`there`), and have the shapes with which it was verified (`bound`). The clauses hold for any bytes of the tenant's part of the
    /// arena (`part`). By the clause `slot` the slot of a refusal is at most the number of slots. `load` needs this for its clause
    /// `writable`, since a reply has four bytes for the slot.
    fn program_of(
        &self,
        slots: &[u8],
        working: &mut WorkingMemory,
    ) -> Result<Result<LoadedProgram, Refusal>, AllocError>
        ensures judges { IfOk result (λ verdict. IfOk verdict (λ l. (part : List ℕ) →
            Judges (targets (state_in part self.now)) slots.now (Ok l.insns))) }
        ensures found { IfOk result (λ verdict. IfOk verdict (λ l. (part : List ℕ) →
            l ≡ loaded_program (state_in part self.now) l.insns)) }
        ensures bound { IfOk result (λ verdict. IfOk verdict (IsBound self.now.live)) }
        ensures there { IfOk result (λ verdict. IfOk verdict (λ l.
            AreLive self.now.live (map_handles l))) }
        ensures refused { IfOk result (λ verdict. IfErr verdict (λ refusal. (part : List ℕ) →
            Judges (targets (state_in part self.now)) slots.now (Err refusal))) }
        ensures slot { IfOk result (λ verdict. IfErr verdict (λ refusal.
            8 * refusal.slot ≤ length slots.now)) }
    {
        let alloc = working.alloc();
        let descriptors = self.targets(alloc)?;
        match verify_slots(alloc, slots, &descriptors, working)? {
            Ok(program) => Ok(Ok(self.loaded(alloc, program)?)),
            Err(refusal) => Ok(Err(refusal)),
        }
    }

    /// Opens a program at the lowest free descriptor, and returns this descriptor (`lowest`). By `within` the descriptor is at most 66,
    /// below `first_descriptor` + `most` (`FIRST` and `MOST` of `fd_table`); `load` and `install` need this for their clause `writable`.
    /// They call this function after they have seen that a descriptor is free (`free`). The program gets a reference to each of its maps,
    /// which are live (`there`), have the shapes with which it was accepted, and are listed once (`bound`). By `opened` the tenant's state
    /// is changed only at this descriptor, which then names the program; this holds for any bytes of the tenant's part (`part`).
    pub(crate) fn open_program(&mut self, program: LoadedProgram) -> u32
        requires free { is_none (lowest self.old.objects) ≡ false }
        requires bound { IsBound self.old.live program }
        requires there { AreLive self.old.live (map_handles program) }
        ensures lowest { lowest self.old.objects ≡ Some result }
        ensures within { result < first_descriptor + most }
        ensures opened { (part : List ℕ) →
            state_in part self.new ≡ with_program (state_in part self.old) result program }
    {
        hold_all(&mut self.maps, program.maps());
        open(&mut self.objects, OpenObject::Program(program))
    }

    /// PROG_LOAD: verifies the program that the bytes `slots` spell, eight for each slot, given what each open descriptor names. If it is
    /// accepted, it is opened at the lowest free descriptor, which the result has (`Reply::Opened`). It keeps its maps when their
    /// descriptors are closed.
    ///
    /// Slots that are no program, or whose program is not accepted, are no error here: the result is `Reply::Refused`, which has the slot
    /// and the cause. `working` is memory to work in, which the next load of any tenant can use again; its contents mean nothing. By
    /// `answer` the result (`shown_reply`) and the new state are those of the tenant's machine for this load (`Loads`), with memory refused
    /// to it or not (`refused`), whatever bytes the tenant's part has (`part`). By `writable` the result can be written as a reply if
    /// `slots` has fewer than 2^32 bytes: then the slot of a refusal fits in the four bytes that the reply has for it.
    ///
    /// # Errors
    ///
    /// The first that applies: `Invalid` if `kind`, the type of the program, is not that of socket filters (`SOCKET_FILTER`); `TooManyOpen`
    /// if no descriptor is free; `NoMemory` if out of memory, which sets the tenant's flag of refused memory.
    pub fn load(
        &mut self,
        kind: u32,
        slots: &[u8],
        working: &mut WorkingMemory,
    ) -> Result<Reply<'static>, Errno>
        ensures answer { (part : List ℕ) → (refused : Bool)
            × Loads refused (state_in part self.old) kind slots.now
            (shown_reply result (state_in part self.new)) }
        ensures writable { length slots.now < 2 ^ 32 → IsWritable result }
    {
        if kind != SOCKET_FILTER {
            return Err(Errno::Invalid);
        }
        if self.objects.is_full() {
            return Err(Errno::TooManyOpen);
        }
        match self.program_of(slots, working) {
            Ok(Ok(program)) => Ok(Reply::Opened(self.open_program(program))),
            Ok(Err(refusal)) => Ok(Reply::Refused(refusal)),
            Err(AllocError) => {
                self.refused = true;
                Err(Errno::NoMemory)
            }
        }
    }
}
