//! The cost of a program: the most instructions, and the most calls, on a path from slot 0 to an exit.

ghost use Rattle.std.specs.Prelude.{◌≡◌, ◌+◌, ◌<◌, ◌≤◌, ◌||◌, ◌==◌, ℕ, max, nat_lt, false, List, length, slice_index_or, Some, if◌then◌else◌};
ghost use Rattle.insn_set.specs.Flow.{jump_target, jumps};
ghost use Rattle.insn_set.specs.Profile.{profile};
ghost use Rattle.verifier.specs.declared.cost.Counts.{Counts as AnyCounts};
ghost use Rattle.verifier.specs.Cost.{is_helper};
ghost use Rattle.verifier.specs.inside.Longest.{no_counts, AreFew, IsAdded};

use insn_codec::{Insn, MAX_SLOTS, Profile, Reference};

/// The cost of an accepted program: the most instructions, and the most calls of helpers, on a path from slot 0 to an exit. The two may be
/// of different paths. No run executes more.
#[derive(Clone, Copy, Debug, PartialEq, Eq)]
pub struct Cost {
    /// The most instructions on a path: 1 to `MAX_SLOTS`.
    pub instructions: u32,
    /// The most calls of helpers on a path: 0 to `MAX_SLOTS - 1`.
    pub calls: u32,
}

/// The most instructions, and the most calls of helpers, on some paths from slot 0: on those to a slot, without the instruction there, or
/// on those to an exit, with it. Both are 0 at slot 0, and if there is no such path.
#[derive(Clone, Copy, Debug, PartialEq, Eq)]
pub(crate) struct Counts {
    pub(crate) instructions: u16,
    pub(crate) calls: u16,
}

/// No instruction and no call: the counts at slot 0, or if there is no path.
pub(crate) const NO_COUNTS: Counts = Counts {
    instructions: 0,
    calls: 0,
};

/// The number of calls that an instruction makes, by what it names: 1 for a helper, else 0, since only a call names a helper.
#[inline(always)]
fn calls_of(reference: Reference) -> u16
    ensures { result ≡ (if is_helper reference then 1 else 0) }
{
    match reference {
        Reference::Helper(_) => 1,
        Reference::Nothing => 0,
        Reference::Map(_) => 0,
        Reference::Value(_, _) => 0,
    }
}

impl Counts {
    /// The join of the counts of two sets of paths: the greater number of instructions, and the greater number of calls, of `self` and
    /// `other`. One may be from `self` and the other from `other`.
    #[inline(always)]
    pub(crate) fn greater(self, other: Counts) -> Counts
        ensures instructions { result.instructions ≡ max self.instructions other.instructions }
        ensures calls { result.calls ≡ max self.calls other.calls }
    {
        Counts {
            instructions: self.instructions.max(other.instructions),
            calls: self.calls.max(other.calls),
        }
    }

    /// The counts of the paths through one more instruction. `self` has the most instructions, and the most calls of helpers, on the paths
    /// that lead to it, and `reference` is what it names. The number of instructions grows by one; that of calls grows by one only if
    /// `reference` is a helper. Neither count of `self` is above `MAX_SLOTS`, the most instructions of a path, so both sums fit in 16 bits.
    #[inline(always)]
    pub(crate) fn with(self, reference: Reference) -> Counts
        requires instructions { self.instructions ≤ MAX_SLOTS }
        requires calls { self.calls ≤ MAX_SLOTS }
        ensures instructions { result.instructions ≡ self.instructions + 1 }
        ensures calls { result.calls ≡ self.calls + (if is_helper reference then 1 else 0) }
    {
        Counts {
            instructions: self.instructions + 1,
            calls: self.calls + calls_of(reference),
        }
    }
}

/// Joins `counts`, those of paths that end with a jump to the slot `to`, into the counts that `jumping` has for this slot: the number of
/// instructions (`instructions`) and that of calls (`calls`) each become the greater of the two. The counts of other slots are unchanged.
/// `to` is an index of `jumping`, since the jump has no fault.
#[inline(always)]
fn join_at(jumping: &mut [Counts], to: usize, counts: Counts)
    requires { to < length jumping.old }
    ensures instructions { (i : ℕ) → (slice_index_or jumping.new i no_counts).instructions
        ≡ max (slice_index_or jumping.old i no_counts).instructions
        (if to == i then counts.instructions else 0) }
    ensures calls { (i : ℕ) → (slice_index_or jumping.new i no_counts).calls
        ≡ max (slice_index_or jumping.old i no_counts).calls
        (if to == i then counts.calls else 0) }
{
    jumping[to] = jumping[to].greater(counts);
}

/// The most instructions and calls on the paths that a pass over the slots has found, but for those that end with a jump to a later slot.
#[derive(Drop)]
pub(crate) struct Paths {
    /// The most on the paths to the slot at which the pass is, without its instruction; before `join` only on those along the falling edge.
    here: Counts,
    /// The most on the paths to the exits so far, with the exit itself.
    ended: Counts,
}

impl Paths {
    /// The numbers of instructions and of calls of helpers with which the pass over a program's slots begins, at slot 0. All are 0: the
    /// only path to slot 0 has no instruction (`here`), and no path to an exit has been found (`ended`).
    pub(crate) fn new() -> Paths
        ensures here { result.here ≡ no_counts }
        ensures ended { result.ended ≡ no_counts }
    {
        Paths {
            here: NO_COUNTS,
            ended: NO_COUNTS,
        }
    }

    /// Joins `jumping`, the counts of the paths that end with a jump to the slot at which the pass is, into `here`, those of the paths
    /// along the falling edge: of each count the greater one is kept. The counts at the exits are unchanged (`ended`). `jumping` is
    /// `NO_COUNTS`, both counts 0, if no path ends with such a jump. Then nothing changes, so the test only saves the comparisons.
    #[inline(always)]
    pub(crate) fn join(&mut self, jumping: Counts)
        ensures instructions { self.new.here.instructions
            ≡ max self.old.here.instructions jumping.instructions }
        ensures calls { self.new.here.calls ≡ max self.old.here.calls jumping.calls }
        ensures ended { self.new.ended ≡ self.old.ended }
    {
        if jumping != NO_COUNTS {
            self.here = self.here.greater(jumping);
        }
    }

    /// Whether a path from slot 0 leads to `slot`, the slot at which the pass over the program's slots is; `Paths` does not store its
    /// number. `here` has the most instructions on the paths to this slot, without the instruction at it: 0 at slot 0, or if there is no
    /// path, else at least 1 (`have_instructions`). Paths that end with a jump to `slot` are in `here` only once `join` has been called.
    /// That the result is `is_reachable` of `slot` is no clause here, but a precondition of the caller, `check_and_count` (`LeadTo`).
    #[inline(always)]
    pub(crate) fn lead_to(&self, slot: usize) -> bool
        ensures { result ≡ (nat_lt 0 self.now.here.instructions || slot == 0) }
    {
        self.have_instructions() || slot == 0
    }

    /// Whether a path with at least one instruction leads to the slot that the pass has reached; the instruction at this slot is not
    /// counted. `here` has the most instructions on a path to the slot: by the clause the result is whether this number is above 0. Paths
    /// that end with a jump to the slot are in `here` only once `join` has been called. The result is `false` at slot 0: the only path
    /// there has no instruction. `is_simple` finds instructions that have no fault of shape, so that no other check of shape is made of
    /// them: they can be reached, have only the next instruction of the program as successor, name no helper and no descriptor, and do not
    /// write the frame pointer. `is_simple` is not given the slot's number, so it tests by this function that the instruction can be
    /// reached. So the instruction at slot 0 is not simple, and gets all checks of shape, among them `lead_to`, which is true there.
    #[inline(always)]
    pub(crate) fn have_instructions(&self) -> bool
        ensures { result ≡ nat_lt 0 self.now.here.instructions }
    {
        self.here.instructions > 0
    }

    /// Adds a simple instruction, one that names no helper and no descriptor and whose only successor is the next one, to the paths from
    /// slot 0 that lead to it. `here` has the most instructions, and the most calls of helpers, on such a path. The first becomes one more;
    /// the second is unchanged, since a simple instruction is no call. `ended`, the most on the paths to the exits, is unchanged. `add`
    /// takes any instruction, but tests more. By the precondition `here` has at most `MAX_SLOTS` instructions, so its count, of 16 bits,
    /// does not overflow.
    #[inline(always)]
    pub(crate) fn add_simple(&mut self)
        requires { self.old.here.instructions ≤ MAX_SLOTS }
        ensures instructions { self.new.here.instructions ≡ self.old.here.instructions + 1 }
        ensures calls { self.new.here.calls ≡ self.old.here.calls }
        ensures ended { self.new.ended ≡ self.old.ended }
    {
        self.here.instructions += 1;
    }

    /// Adds `insn`, an instruction at `slot` that does not jump (`stays`), to the paths that lead to this slot. `here` has their counts:
    /// the most instructions, and the most calls of helpers, on any of them. The new counts have one instruction more, and one call more if
    /// `insn` calls a helper. If it is an exit, they are joined into the counts at the exits (`ended`): of each count the greater one is
    /// kept. Then `here` has the counts along the falling edge: the new ones, or `NO_COUNTS`, both 0, after an exit (`IsAdded`). The counts
    /// on jumps, `jumping` of the clause, stay as they are. `row` is the profile of `insn`, its properties: what it reads, writes and
    /// names, and its successors. Only the contract needs `insn` and `slot`. By `few` neither count of `here` is above `MAX_SLOTS`, so no
    /// new one overflows its 16 bits.
    #[inline(always)]
    pub(crate) fn add(&mut self, insn: &Insn, row: &Profile, slot: usize)
        requires row { row.now ≡ profile insn.now }
        requires stays { jumps insn.now ≡ false }
        requires few { AreFew self.old }
        ensures { (jumping : List AnyCounts) →
            IsAdded insn.now slot self.old self.new jumping jumping }
    {
        let counts = self.here.with(row.reference);
        if row.successors.falls() {
            self.here = counts;
        } else {
            self.ended = self.ended.greater(counts);
            self.here = NO_COUNTS;
        }
    }

    /// Adds `insn`, an instruction at `slot` that may jump to the slot `to` (`target`), to the paths that lead to `slot`. `here` has their
    /// counts: the most instructions, and the most calls of helpers, on any of them. The new counts have one instruction more. They are
    /// joined into those that `jumping` has for `to`, an index of it (`lands`), since the caller has found no fault in the jump: of each
    /// count the greater one is kept. Then `here` has the counts along the falling edge: the new ones, or `NO_COUNTS`, both 0, if there is
    /// no such edge (`IsAdded`). `row` is the profile of `insn`, its properties. Only the contract needs `insn` and `slot`. By `few`
    /// neither count of `here` is above `MAX_SLOTS`, so no new one overflows its 16 bits.
    #[inline(always)]
    pub(crate) fn add_jump(
        &mut self,
        jumping: &mut [Counts],
        insn: &Insn,
        row: &Profile,
        slot: usize,
        to: usize,
    )
        requires row { row.now ≡ profile insn.now }
        requires target { jump_target insn.now slot ≡ Some to }
        requires lands { to < length jumping.old }
        requires few { AreFew self.old }
        ensures { IsAdded insn.now slot self.old self.new jumping.old jumping.new }
    {
        let counts = self.here.with(row.reference);
        join_at(jumping, to, counts);
        self.here = if row.successors.falls() {
            counts
        } else {
            NO_COUNTS
        };
    }

    /// The cost of the program: the most instructions, and the most calls of helpers, on a path to an exit. These are the counts `ended`,
    /// those of the exits that the pass has found so far: `check_shape`, the only caller, calls this function after its pass over all
    /// slots. A count has 16 bits in `Paths`, and 32 in `Cost`.
    pub(crate) fn cost(&self) -> Cost
        ensures instructions { result.instructions ≡ self.now.ended.instructions }
        ensures calls { result.calls ≡ self.now.ended.calls }
    {
        Cost {
            instructions: u32::from(self.ended.instructions),
            calls: u32::from(self.ended.calls),
        }
    }
}
