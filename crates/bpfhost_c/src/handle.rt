//! The handle that C holds of a session: a pointer to it, or null.

ghost use Rattle.std.specs.Prelude.{◌≡◌, Some, None, Option, option_map};
ghost use Rattle.bpfhost_c.specs.declared.session.Session.{Session};
ghost use Rattle.bpfhost_c.specs.Owned.{handle_coded, handle_owns};

use crate::raw_box::RawBox;
use crate::session::Session;
use std::alloc::Global;
use std::marker::Model;
use std::mem::replace;
use std::ptr::null_mut;

/// A pointer to a session, cast to a pointer to bytes, or null. For C it is an opaque type of the size of a pointer, since `alloc` has no
/// bytes. `session`, for contracts only, is what the pointer leads to; `None` if it is null.
#[repr(C)]
pub struct Handle {
    at: *mut u8,
    alloc: Global,
    pub ghost session: { Option Session } by { handle_coded },
}

impl Model for Handle {
    ghost also_owns = { λ h. handle_owns h.alloc h.at h.session };
}

impl Handle {
    /// A handle with no session: its pointer is null, and it owns nothing. A session is a host with its last reply and the last part of a
    /// save. `take`, which takes the session out of a handle, and `bpfhost_c_free`, which frees it, leave such a handle. Nothing is
    /// allocated; `alloc` only fills the field.
    pub(crate) fn empty(alloc: Global) -> Handle
        ensures { result.session ≡ None }
    {
        Handle {
            at: null_mut(),
            alloc,
        }
    }

    /// Makes a handle that owns the session of a box, a host with its last reply and the last part of a save. `raw` is this box as a raw
    /// pointer (`RawBox::from_box`), and `raw.value` the session; the handle gets its pointer and its allocator. A handle is opaque to C,
    /// so it has the pointer as one to bytes, and `into_raw_box`, the inverse, casts it back. A handle that is dropped frees its session.
    pub(crate) fn from_raw_box(raw: RawBox<Session, Global>) -> Handle
        ensures { result.session ≡ Some raw.value }
    {
        let RawBox { at, alloc } = raw;
        Handle {
            at: at as *mut u8,
            alloc,
        }
    }

    /// Consumes the handle, and returns the box of its session, a host with its last reply and last saved part, as a raw pointer. The
    /// caller then owns the session, and makes the pointer a box again by `into_box`: `take` returns this box, and `drop` frees it. `None`
    /// if the handle is empty: its pointer is null. By the contract, the box has the session that the handle had (`self.session`, `None` if
    /// it was empty).
    pub(crate) fn into_raw_box(self) -> Option<RawBox<Session, Global>>
        ensures { option_map (λ raw. raw.value) result ≡ self.session }
    {
        let Handle { at, alloc } = self;
        if at.is_null() {
            return None;
        }
        Some(RawBox {
            at: at as *mut Session,
            alloc,
        })
    }

    /// Takes the session, a host with its last reply and the last part of a save, out of the handle and returns it in a box (`session`).
    /// Then the handle is empty (`empty`). `None` if it was empty before. A handle has only a raw pointer to its session, so each function
    /// of the library that needs the session, even to read it, takes it out, and then puts it back (`put`). `alloc` only fills a field of
    /// the empty handle.
    pub(crate) fn take(&mut self, alloc: Global) -> Option<Box<Session>>
        ensures session { option_map (λ b. b.value) result ≡ self.old.session }
        ensures empty { self.new.session ≡ None }
    {
        match replace(self, Handle::empty(alloc)).into_raw_box() {
            Some(raw) => Some(raw.into_box()),
            None => None,
        }
    }

    /// Makes `session`, a host with its last reply and the last part of a save, the session of the handle. The functions for C call this
    /// with the session that they took out (`take`), or with a new one if `take` found none, so the handle is empty here. The assignment
    /// drops the old handle, which would free a session in it.
    pub(crate) fn put(&mut self, session: Box<Session>)
        ensures { self.new.session ≡ Some session.value }
    {
        *self = Handle::from_raw_box(RawBox::from_box(session));
    }
}

/// Frees `session`, a host with its last reply and the last part of a save, of a handle that is dropped. Most handles that are dropped are
/// empty, without a session: `put` drops the handle that it replaces, which `take` has left empty. So `drop` of `Handle`, a test for null,
/// is inlined. This function, which only `bpfhost_c_free` needs, is not.
#[cold]
#[inline(never)]
fn free(session: Box<Session>) {
    drop(session);
}

impl Drop for Handle {
    /// Frees the session of the handle, if it has one: a host with its last reply and the last part of a save. Most handles that are
    /// dropped are empty: the functions for C take the session out, and `put`, which puts it back, drops the empty handle. So this
    /// function, a test for null (`into_raw_box`), is inlined, and `free`, which only a handle with a session needs, is not.
    #[inline(always)]
    fn drop(self) {
        if let Some(raw) = self.into_raw_box() {
            free(raw.into_box());
        }
    }
}

// The handle owns its box, and a session may be sent to another thread.
unsafe impl Send for Handle {}
