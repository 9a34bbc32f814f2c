//! The order in which the objects of a tenant were created.

ghost use Rattle.std.specs.Prelude.{◌≡◌, ◌<◌, ◌≤◌, ℕ, List, [], ◌∷◌, length, filter, reverse, IfOk};
ghost use Rattle.tenant.specs.Kept.{state_in};
ghost use Rattle.saving.specs.Births.{lives as lives_in};
ghost use Rattle.saving.specs.inside.Opened.{births_after_reply};

use bpf_maps::{MAPS, MapKey};
use fd_table::MOST;
use std::alloc::{AllocError, Global};
use std::marker::Model;
use tenant::{Errno, OpenObject, Reply, Tenant};

/// The most births that a tenant has at a time: one for each descriptor, if a program is open at it, and one for each live map.
const MOST_BIRTHS: usize = MOST + MAPS;

/// A map was created, or a program was loaded, and opened at a descriptor.
#[derive(Clone, Copy)]
pub enum Birth {
    /// The handle of the map, and the descriptor at which it was created, which may be closed since.
    OfMap(MapKey, u32),
    /// The descriptor of the program.
    OfProgram(u32),
}

/// The births of a tenant's live maps and open programs. Contracts see them with the latest first.
#[derive(Drop)]
pub(crate) struct Births {
    oldest_first: Vec<Birth>,
}

impl Model for Births {
    ghost use Rattle.std.specs.Prelude.{◌≤◌, List, reverse, vec_capacity};
    ghost use Rattle.saving.specs.declared.birth.Birth.{Birth};
    ghost use Rattle.saving.specs.declared.birth.TheConstants.{MOST_BIRTHS};

    ghost Value = { List Birth };

    ghost view = { λ b. reverse b.oldest_first.items };

    ghost invariant = { λ b. MOST_BIRTHS ≤ vec_capacity b.oldest_first };
}

/// Whether the object of a birth is still live: its map is live, or its descriptor names a program. Such a map or program is that of the
/// birth, although a later object may get the handle or the descriptor: objects end only by closes, and `keep_living`, which calls this,
/// removes their births after each close, before any other object is opened. The clause holds for any bytes of the tenant's part (`part`),
/// on which the result does not depend.
fn lives(tenant: &Tenant, birth: &Birth) -> bool
    ensures { (part : List ℕ) → result ≡ lives_in (state_in part tenant.now) birth.now }
{
    match *birth {
        Birth::OfMap(map, _) => tenant.is_live(map),
        Birth::OfProgram(fd) => matches!(tenant.object(fd), Some(OpenObject::Program(_))),
    }
}

impl Births {
    /// Makes a list without births. Allocates room for `MOST_BIRTHS`, the most that a tenant has at a time, so that later no birth takes
    /// memory. `AllocError`: out of memory.
    pub(crate) fn new(alloc: Global) -> Result<Births, AllocError>
        ensures { IfOk result (λ births. births ≡ []) }
    {
        Ok(Births {
            oldest_first: Vec::with_capacity(alloc, MOST_BIRTHS)?,
        })
    }

    /// The births, the oldest first: in this order a save creates the objects, so that a program's maps are there before it is loaded.
    /// Contracts see the list reversed, the latest first: there a new birth comes in front of the older ones.
    pub(crate) fn oldest_first(&self) -> &[Birth]
        ensures { result.now ≡ reverse self.now }
    {
        &self.oldest_first
    }

    /// Adds the latest birth, which is then the last one of `oldest_first`, and the first one of the list that contracts see. No memory is
    /// needed: `new` allocated room for `MOST_BIRTHS`, and the caller makes sure that there are fewer before.
    fn push(&mut self, birth: Birth)
        requires { length self.old < MOST_BIRTHS }
        ensures { self.new ≡ birth ∷ self.old }
    {
        self.oldest_first.push_reserved(birth);
    }

    /// Adds the birth of the map or program that a command opened at the descriptor in its reply (`Reply::Opened`), as the latest one: a
    /// save creates objects in the order of their births. Any other reply, or an error, adds none (`births_after_reply`). `answer` is the
    /// command's reply or error, `tenant` the tenant after the command. With the new birth there are at most `MOST_BIRTHS`, as callers know
    /// by the law `births_are_kept`, so there is room.
    pub(crate) fn note(&mut self, tenant: &Tenant, answer: &Result<Reply<'_>, Errno>)
        requires { length (births_after_reply answer.now tenant.now.objects self.old)
            ≤ MOST_BIRTHS }
        ensures { self.new ≡ births_after_reply answer.now tenant.now.objects self.old }
    {
        if let Ok(Reply::Opened(fd)) = answer {
            match tenant.object(*fd) {
                Some(OpenObject::Map(map)) => self.push(Birth::OfMap(*map, *fd)),
                Some(OpenObject::Program(_)) => self.push(Birth::OfProgram(*fd)),
                // Does not happen: the descriptor of such a reply names the new object.
                None => {}
            }
        }
    }

    /// Removes, after a close, the births of maps that are no longer live and of programs that are no longer open; the others keep their
    /// order. `tenant` is the tenant after the close. The contract filters by the tenant's state (`lives_in`), which needs the bytes of its
    /// part too. Whether an object is live does not depend on them, so the equation holds for any bytes (`part`).
    pub(crate) fn keep_living(&mut self, tenant: &Tenant)
        ensures { (part : List ℕ)
            → self.new ≡ filter (lives_in (state_in part tenant.now)) self.old }
    {
        self.oldest_first.retain(|birth| lives(tenant, birth));
    }
}
