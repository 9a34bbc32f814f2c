//! Programs that are verified without a host, on any thread, and then installed in one.

ghost use Rattle.std.specs.Prelude.{◌≡◌, ◌≢◌, Ok, Err, None, IfOk, IfErr, min, slice_get};
ghost use Rattle.host_core.specs.Saving.{Call};
ghost use Rattle.tenant.specs.Errno.{status_of};
ghost use Rattle.tenant.specs.Machine.{cause_errno};
ghost use Rattle.verifier.specs.Judgement.{Judges, cause_number};
ghost use Rattle.verifier.specs.Maps.{maps_of, objects_at};
ghost use Rattle.bpfhost_c.specs.Calls.{states, host_of};
ghost use Rattle.bpfhost_c.specs.Prepares.{object_of, are_objects, named_by, prepare_code};
ghost use Rattle.bpfhost_c.specs.Prepares.{Prepares, install_code, FitsPrepared, InstallsPrepared};
ghost use Rattle.bpfhost_c.specs.declared.codes.TheConstants.{DONE, ERR_NO_MEMORY, ERR_STALE};

use crate::codes::{
    DONE, ERR_DESCRIPTORS, ERR_HAS_PROGRAM, ERR_NO_HOST, ERR_NO_MEMORY, ERR_NO_PROGRAM, ERR_STALE,
};
use crate::handle::Handle;
use crate::prepared::Prepared;
use std::alloc::{AllocError, Global};
use tagged_model::{Named, Target};
use tenant::{Errno, asked_shape};
use verifier::{Refusal, Verified, WorkingMemory, verify_slots};

/// The most descriptors that a tenant can have open, so a program is prepared for no more.
const MOST_DESCRIPTORS: usize = 64;

/// A descriptor that a program names, and the object that it is to name. `kind` is 0 for a program, else a type of bpf(2), 1 for a hash map
/// and 2 for an array; the rest are the fields of MAP_CREATE, without meaning for a program.
#[derive(Clone, Copy)]
#[repr(C)]
pub struct Descriptor {
    pub fd: u32,
    pub kind: u32,
    pub key_size: u32,
    pub value_size: u32,
    pub max_entries: u32,
}

/// Why slots are refused: the status, the slot and the number of the reason in the reply to PROG_LOAD; all 0 if they are accepted.
#[derive(Clone, Copy)]
#[repr(C)]
pub struct PreparedRefusal {
    pub status: i32,
    pub slot: u32,
    pub reason: u32,
}

/// The object that `descriptor` is to name, as the caller of the library says: a program if `kind` is 0, else a map as MAP_CREATE makes it
/// with these fields and flags 0 (of `kind` 1, a hash map, or 2, an array). `None` if MAP_CREATE has an error for them; then no program is
/// prepared. The definition `object_of` in the contract has these cases.
fn object_of(descriptor: &Descriptor) -> Option<Target>
    ensures { result ≡ object_of descriptor.now }
{
    if descriptor.kind == 0 {
        return Some(Target::Program);
    }
    let Descriptor {
        kind,
        key_size,
        value_size,
        max_entries,
        ..
    } = *descriptor;
    match asked_shape(kind, key_size, value_size, max_entries, 0) {
        Ok(shape) => Some(Target::Map(shape)),
        Err(_) => None,
    }
}

/// Whether each of these descriptors can name its object: the object is a program (`kind` 0), or a map whose fields MAP_CREATE accepts, so
/// `object_of` is not `None`. True if there are no descriptors. If it is false, `bpfhost_c_prepare` returns `ERR_DESCRIPTORS`; so the list
/// that `named_by` makes afterwards leaves out no descriptor.
fn are_objects(descriptors: &[Descriptor]) -> bool
    ensures { result ≡ are_objects descriptors.now }
{
    for descriptor in descriptors {
        if object_of(descriptor).is_none() {
            return false;
        }
    }
    true
}

/// The descriptors in their order, each with the object that it is to name (`object_of`): a program, or a map with the fields of the
/// descriptor. `verify_slots` verifies a program with this list. A descriptor is left out, also in the contract (`named_by`), if MAP_CREATE
/// has an error for its fields. None is left out after the test of `bpfhost_c_prepare` (`are_objects`). `AllocError`: out of memory.
fn named_by(alloc: Global, descriptors: &[Descriptor]) -> Result<Vec<Named>, AllocError>
    ensures { IfOk result (λ named. named.items ≡ named_by descriptors.now) }
{
    let mut named = Vec::with_capacity(alloc, descriptors.len())?;
    for descriptor in descriptors {
        if let Some(target) = object_of(descriptor) {
            let fd = descriptor.fd;
            named.push(Named { fd, target })?;
        }
    }
    Ok(named)
}

/// Verifies slots without a host. The open descriptors are taken to be `descriptors`, and each names the object that its fields describe
/// (`object_of`, `named_by`). The outer error is `AllocError`: out of memory. The inner result is the accepted program that the slots spell
/// (`accepted`), or why they are refused (`refused`); `Judges` relates slots to their verdict, of which there is at most one. The program's
/// `objects` are the descriptors of its maps, each with its object (`objects`). The working memory is freed afterwards.
fn verified(
    alloc: Global,
    slots: &[u8],
    descriptors: &[Descriptor],
) -> Result<Result<Box<Verified>, Refusal>, AllocError>
    ensures accepted { IfOk result (λ verdict. IfOk verdict (λ program.
        Judges (named_by descriptors.now) slots.now (Ok program.value.code))) }
    ensures objects { IfOk result (λ verdict. IfOk verdict (λ program. program.value.objects
        ≡ objects_at (maps_of program.value.code) (named_by descriptors.now))) }
    ensures refused { IfOk result (λ verdict. IfErr verdict (λ refusal.
        Judges (named_by descriptors.now) slots.now (Err refusal))) }
{
    let named = named_by(alloc, descriptors)?;
    let mut working = WorkingMemory::new(alloc);
    match verify_slots(alloc, slots, &named, &mut working)? {
        Ok(program) => Ok(Ok(Box::new(alloc, program)?)),
        Err(refusal) => Ok(Err(refusal)),
    }
}

/// What is written instead of a refusal if the slots are accepted.
const NOT_REFUSED: PreparedRefusal = PreparedRefusal {
    status: 0,
    slot: 0,
    reason: 0,
};

/// Why slots are refused, as in the reply to PROG_LOAD: the negated error number (`status`), the slot (`slot`), and the number of the
/// reason (`reason`). A slot above 2^32 - 1 does not fit in the field `slot`, and is written as 2^32 - 1. Only one fault can have such a
/// slot: the length of the bytes is no multiple of eight. Its slot is the number of whole slots, which is above 2^32 - 1 if there are more
/// than 2^35 bytes.
fn shown_refusal(refusal: Refusal) -> PreparedRefusal
    ensures status { result.status ≡ status_of (cause_errno refusal.cause) }
    ensures slot { result.slot ≡ min refusal.slot 4294967295 }
    ensures reason { result.reason ≡ cause_number refusal.cause }
{
    PreparedRefusal {
        status: Errno::of_cause(refusal.cause).status(),
        slot: refusal.slot.min(u32::MAX as usize) as u32,
        reason: u32::from(refusal.cause.number()),
    }
}

/// Verifies the slots of a program with these objects, stores it in an empty handle, and writes 0 to all of `refusal`; or stores none, and
/// writes why the slots are refused, as PROG_LOAD refuses them if the descriptors name these objects. No host is needed, so this can be
/// done on any thread. If `descriptors` has the same descriptor more than once, its first object counts.
///
/// Returns `DONE` in both cases; else `ERR_HAS_PROGRAM`, `ERR_DESCRIPTORS` (more than `MOST_DESCRIPTORS`, or an object that there cannot
/// be) or `ERR_NO_MEMORY`, and `prepared` and `refusal` are unchanged.
#[unsafe(no_mangle)]
pub extern "C" fn bpfhost_c_prepare(
    alloc: Global,
    prepared: &mut Prepared,
    slots: &[u8],
    descriptors: &[Descriptor],
    refusal: &mut PreparedRefusal,
) -> i32
    ensures done { result ≡ DONE →
        Prepares (named_by descriptors.now) slots.now prepared.new.program refusal.new }
    ensures code { result ≢ ERR_NO_MEMORY
        → result ≡ prepare_code prepared.old.program descriptors.now }
    ensures memory { result ≡ ERR_NO_MEMORY
        → prepare_code prepared.old.program descriptors.now ≡ DONE }
    ensures otherwise { result ≢ DONE → prepared.new.program ≡ prepared.old.program }
    ensures refusal { result ≢ DONE → refusal.new ≡ refusal.old }
{
    if let Some(program) = prepared.take(alloc) {
        prepared.put(program);
        return ERR_HAS_PROGRAM;
    }
    if descriptors.len() > MOST_DESCRIPTORS || !are_objects(descriptors) {
        return ERR_DESCRIPTORS;
    }
    match verified(alloc, slots, descriptors) {
        Ok(Ok(program)) => {
            prepared.put(program);
            *refusal = NOT_REFUSED;
            DONE
        }
        Ok(Err(cause)) => {
            *refusal = shown_refusal(cause);
            DONE
        }
        Err(AllocError) => ERR_NO_MEMORY,
    }
}

/// Opens a prepared program at a descriptor of `tenant`, and writes the status of the reply to the frame that would load it: the
/// descriptor, or the negated error number. What happens is what happens at this frame, but the program is neither copied nor verified
/// again. `prepared` is empty afterwards, whatever the status is.
///
/// Returns `DONE`; else `ERR_NO_HOST`, `ERR_NO_PROGRAM`, or `ERR_STALE` if a descriptor of the program names no map of the shape with
/// which it was prepared, and the host, `prepared` and `status` are unchanged.
#[unsafe(no_mangle)]
pub extern "C" fn bpfhost_c_install(
    alloc: Global,
    handle: &mut Handle,
    tenant: u16,
    prepared: &mut Prepared,
    status: &mut i32,
) -> i32
    ensures done { result ≡ DONE → InstallsPrepared tenant prepared.old.program status.new
        (host_of handle.old.session) (host_of handle.new.session) }
    ensures fits { result ≡ DONE → FitsPrepared prepared.old.program
        (slice_get (states handle.old.session) tenant) }
    ensures stale { result ≡ ERR_STALE → ¬ FitsPrepared prepared.old.program
        (slice_get (states handle.old.session) tenant) }
    ensures code { result ≢ ERR_STALE
        → result ≡ install_code handle.old.session prepared.old.program }
    ensures there { result ≡ ERR_STALE
        → install_code handle.old.session prepared.old.program ≡ DONE }
    ensures empty { result ≡ DONE → prepared.new.program ≡ None }
    ensures call { Call (host_of handle.old.session) (host_of handle.new.session) }
    ensures otherwise { result ≢ DONE → handle.new.session ≡ handle.old.session }
    ensures kept { result ≢ DONE → prepared.new.program ≡ prepared.old.program }
    ensures status { result ≢ DONE → status.new ≡ status.old }
{
    let Some(mut session) = handle.take(alloc) else {
        return ERR_NO_HOST;
    };
    let Some(program) = prepared.take(alloc) else {
        handle.put(session);
        return ERR_NO_PROGRAM;
    };
    let code = match session.install(tenant, program) {
        Ok(found) => {
            *status = found;
            DONE
        }
        Err(program) => {
            prepared.put(program);
            ERR_STALE
        }
    };
    handle.put(session);
    code
}

/// Frees a prepared program. `prepared` is empty afterwards, also if it was before. The assignment drops what it had, which frees it.
#[unsafe(no_mangle)]
pub extern "C" fn bpfhost_c_prepared_free(alloc: Global, prepared: &mut Prepared)
    ensures { prepared.new.program ≡ None }
{
    *prepared = Prepared::empty(alloc);
}
