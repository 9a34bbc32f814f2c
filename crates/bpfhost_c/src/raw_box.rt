//! A box as a raw pointer.

ghost use Rattle.std.specs.Prelude.{◌≡◌};
ghost use Rattle.std.specs.Box.Ownership.{box_owns};

use std::alloc::Allocator;
use std::marker::Model;

/// The pointer of a box, with all that the box owns. `value`, for contracts only, is what the box has.
pub(crate) struct RawBox<T, A: Allocator> {
    pub(crate) at: *mut T,
    pub(crate) alloc: A,
    pub(crate) ghost value: { T },
}

impl<T, A: Allocator> Model for RawBox<T, A> {
    ghost also_owns = { λ raw. box_owns (A.dealloc_token raw.alloc) T.row raw.at raw.value };
}

impl<T: Drop, A: Allocator> RawBox<T, A> {
    /// Makes a box a raw pointer to what is in it, with the box's allocator; `value` of the box and of the result is what is in it. A
    /// handle for C (`Handle`, `Prepared`) has the pointer and the allocator as fields. What was in the box is not freed until `into_box`
    /// makes the pointer a box again.
    pub(crate) fn from_box(value: Box<T, A>) -> RawBox<T, A>
        ensures { result.value ≡ value.value }
    {
        let (at, alloc) = Box::into_raw_with_allocator(value);
        RawBox { at, alloc }
    }

    /// Makes the raw pointer a box again, with the same content (`value`): the inverse of `from_box`. The unsafe `Box::from_raw` requires
    /// that the caller owns what is at the pointer, and the right to free its memory with `alloc`. A `RawBox` owns both, like a box.
    pub(crate) fn into_box(self) -> Box<T, A>
        ensures { result.value ≡ self.value }
    {
        let RawBox { at, alloc } = self;
        unsafe { Box::from_raw(alloc, at) }
    }
}
