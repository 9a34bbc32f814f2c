//! An order of elements, in which an element is put last or taken out in a few steps.

ghost use Rattle.std.specs.Prelude.{◌≡◌, ℕ, ◌+◌, ◌<◌, ◌++◌, [], ◌∷◌, None, Some, nat_eq};
ghost use Rattle.std.specs.Prelude.{if◌then◌else◌, length, vec_len, slice_index_or, IfOk};
ghost use Rattle.ordered_keys.specs.Orders.{occurrences, following, first_element, taken_out};

use std::alloc::{AllocError, Global};
use std::marker::Model;

/// The neighbours of an element, or of the bound, in the ring of an `ElementOrder`. The bound is before the first element and after the
/// last.
#[derive(Clone, Copy, Drop)]
pub struct Link {
    pub(crate) before: u32,
    pub(crate) after: u32,
}

/// Elements less than a bound, each at most once, in an order. They are a ring of links, in which the order begins and ends at
/// the bound.
#[derive(Drop)]
pub struct ElementOrder {
    // By number: the link of each element, and of the bound. The link of any other number means nothing.
    links: Vec<Link>,
    bound: u32,
    // The number of elements.
    count: u32,
}

impl Model for ElementOrder {
    ghost use Rattle.ordered_keys.specs.Orders.{Order};

    ghost Value = { Order };

    ghost use Rattle.ordered_keys.specs.inside.Links.{order_of, IsRing};

    ghost view = { order_of };

    ghost invariant = { IsRing };
}

impl ElementOrder {
    /// An order without elements. Allocates a link for each number less than `bound`, which may become an element, and for the bound
    /// itself, at which the order begins and ends. At first the ring has only the bound's link. `AllocError`: out of memory.
    pub(crate) fn new(alloc: Global, bound: u32) -> Result<ElementOrder, AllocError>
        ensures bound { IfOk result (λ order. order.bound ≡ bound) }
        ensures elements { IfOk result (λ order. order.elements ≡ []) }
    {
        let alone = Link {
            before: bound,
            after: bound,
        };
        let links = vec![in alloc; alone; bound as usize + 1]?;
        Ok(ElementOrder {
            links,
            bound,
            count: 0,
        })
    }

    /// Returns the element for a number in a link (`element`): the number itself, or `None` if it is the bound, which is above all elements
    /// and is none itself. In the ring the bound is after the last element and before the first, so `None` says that no element follows, or
    /// that the order has no element.
    fn element_or_none(&self, element: u32) -> Option<u32>
        ensures { result ≡ (if nat_eq element self.now.bound then None else Some element) }
    {
        if element == self.bound {
            None
        } else {
            Some(element)
        }
    }

    /// The first element in the order; `None` if the order has no element.
    pub(crate) fn first(&self) -> Option<u32>
        ensures { result ≡ first_element self.now.elements }
    {
        // The ring of links begins and ends at the bound, a number above all elements. The first element comes after it; without elements
        // the bound comes after itself, and the result is `None`.
        let end = self.bound as usize;
        self.element_or_none(self.links[end].after)
    }

    /// The element that follows `element`, which is in the order; `None` if it is the last. In the ring of links the bound, a number above
    /// all elements, comes after the last element: `element_or_none` returns `None` for the bound, and any element unchanged.
    pub(crate) fn after(&self, element: u32) -> Option<u32>
        requires { 0 < occurrences element self.now.elements }
        ensures { result ≡ following element self.now.elements }
    {
        self.element_or_none(self.links[element as usize].after)
    }

    /// Puts an element last. The element is less than the bound (`within`) and not yet in the order (`new`). The elements of an order are
    /// distinct and less than the bound, so without the new one they are fewer than the bound. A clause requires this too (`few`), so that
    /// the proof that `count` does not overflow needs no lemma on the number of distinct elements; `insert` of `OrderedMap` has it from its
    /// own precondition `few`. The bound is unchanged.
    pub(crate) fn push(&mut self, element: u32)
        requires within { element < self.old.bound }
        requires new { occurrences element self.old.elements ≡ 0 }
        requires few { length self.old.elements < self.old.bound }
        ensures bound { self.new.bound ≡ self.old.bound }
        ensures elements { self.new.elements ≡ self.old.elements ++ element ∷ [] }
    {
        // Before the bound, the end of the ring, is the last element; in an order without elements it is the bound itself.
        let end = self.bound;
        let last = self.links[end as usize].before;
        self.links[last as usize].after = element;
        self.links[element as usize] = Link {
            before: last,
            after: end,
        };
        self.links[end as usize].before = element;
        self.count += 1;
    }

    /// Takes all elements out. The bound, which is above all elements and at which the ring of links begins and ends, is unchanged
    /// (`bound`), and is then its own neighbour in the ring. No other link is written, since the link of an element that is not in the
    /// order means nothing: so the steps are few, however many elements there were.
    pub fn clear(&mut self)
        ensures bound { self.new.bound ≡ self.old.bound }
        ensures elements { self.new.elements ≡ [] }
    {
        let end = self.bound;
        self.links[end as usize] = Link {
            before: end,
            after: end,
        };
        self.count = 0;
    }

    /// Takes `element` out of the order, which has it, by the precondition, and only once. The others keep their order (`taken_out`: the
    /// list without `element`), and the bound, a number above all elements, is unchanged. In the ring of links the bound is before the
    /// first element and after the last. So each of the two neighbours of `element` is an element or the bound, and they are linked to each
    /// other. The link of `element` is not written: the link of a number that is not in the order means nothing.
    pub(crate) fn remove(&mut self, element: u32)
        requires { 0 < occurrences element self.old.elements }
        ensures bound { self.new.bound ≡ self.old.bound }
        ensures elements { self.new.elements ≡ taken_out element self.old.elements }
    {
        let Link { before, after } = self.links[element as usize];
        self.links[before as usize].after = after;
        self.links[after as usize].before = before;
        self.count -= 1;
    }
}
