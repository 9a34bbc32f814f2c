//! The handle that C holds of a prepared program: a pointer to it, or null.

ghost use Rattle.std.specs.Prelude.{◌≡◌, Some, None, Option, option_map};
ghost use Rattle.verifier.specs.Verified.{Accepted};
ghost use Rattle.bpfhost_c.specs.OwnedProgram.{prepared_coded, prepared_owns};

use crate::raw_box::RawBox;
use std::alloc::Global;
use std::marker::Model;
use std::mem::replace;
use std::ptr::null_mut;
use verifier::Verified;

/// A pointer to a prepared program, cast to a pointer to bytes, or null. For C it is an opaque type of the size of a pointer, since `alloc`
/// has no bytes. `program`, for contracts only, is what the pointer leads to; `None` if it is null.
#[repr(C)]
pub struct Prepared {
    at: *mut u8,
    alloc: Global,
    pub ghost program: { Option Accepted } by { prepared_coded },
}

impl Model for Prepared {
    ghost also_owns = { λ h. prepared_owns h.alloc h.at h.program };
}

impl Prepared {
    /// A handle with no program: its pointer is null, and it owns nothing. `take`, which moves the program out of a handle, and
    /// `bpfhost_c_prepared_free`, which frees the program, replace the handle with this one. So a later call or drop finds null, and no
    /// pointer to that program. Nothing is allocated; `alloc` only fills the field.
    pub(crate) fn empty(alloc: Global) -> Prepared
        ensures { result.program ≡ None }
    {
        Prepared {
            at: null_mut(),
            alloc,
        }
    }

    /// A handle that owns the program of `raw`, a box as a raw pointer, which owned the program before. `program` of the handle, for
    /// contracts only, is the program in the box (`raw.value`). The handle is opaque to C, so it has the pointer as one to bytes, which
    /// `into_raw_box` casts back. `put` calls this function.
    pub(crate) fn from_raw_box(raw: RawBox<Verified, Global>) -> Prepared
        ensures { result.program ≡ Some raw.value }
    {
        let RawBox { at, alloc } = raw;
        Prepared {
            at: at as *mut u8,
            alloc,
        }
    }

    /// Consumes the handle, and returns the box of its program as a raw pointer; `None` if the handle is empty: its pointer is null. The
    /// caller then owns the program, and makes the pointer a box again by `into_box`. For contracts, `program` of the handle and `value` of
    /// the raw box are the program that each owns. The handle has its pointer as one to bytes, since its type is opaque to C, so the
    /// pointer is cast back.
    pub(crate) fn into_raw_box(self) -> Option<RawBox<Verified, Global>>
        ensures { option_map (λ raw. raw.value) result ≡ self.program }
    {
        let Prepared { at, alloc } = self;
        if at.is_null() {
            return None;
        }
        Some(RawBox {
            at: at as *mut Verified,
            alloc,
        })
    }

    /// Takes the program out of the handle, and returns it in a box; `None` if the handle was empty (`program`). Afterwards the handle is
    /// empty (`empty`). A caller that does not use up the program puts it back (`put`). `alloc` only fills the field `alloc` of the empty
    /// handle: nothing is allocated.
    pub(crate) fn take(&mut self, alloc: Global) -> Option<Box<Verified>>
        ensures program { option_map (λ b. b.value) result ≡ self.old.program }
        ensures empty { self.new.program ≡ None }
    {
        match replace(self, Prepared::empty(alloc)).into_raw_box() {
            Some(raw) => Some(raw.into_box()),
            None => None,
        }
    }

    /// Puts a program into the handle, which then owns it. A program that the handle had would be dropped; it has none, since each caller
    /// has called `take` before.
    pub(crate) fn put(&mut self, program: Box<Verified>)
        ensures { self.new.program ≡ Some program.value }
    {
        *self = Prepared::from_raw_box(RawBox::from_box(program));
    }
}

impl Drop for Prepared {
    /// Frees the program that the handle owns, if there is one: `into_box` makes the pointer a box again, and the box is dropped. An
    /// assignment to the handle calls this function for what the handle had before, for example in `bpfhost_c_prepared_free`.
    fn drop(self) {
        if let Some(raw) = self.into_raw_box() {
            drop(raw.into_box());
        }
    }
}

// The handle owns its box, and a program may be sent to another thread.
unsafe impl Send for Prepared {}
