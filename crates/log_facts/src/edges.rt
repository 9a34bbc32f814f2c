//! The facts on the edges out of an instruction.

use insn_codec::{Insn, Operand, Reg};
use interval::Range;
use reg_kinds::{Facts, settle};
use tagged_model::Named;
use transfer::{Flow, apply, set_ranges};

/// Whether a run may take the falling edge out of an instruction, and whether it may take the jumping edge: neither.
const NO_EDGE: (bool, bool) = (false, false);

/// A run may take the falling edge out of an instruction, and not the jumping edge.
const FALLING_EDGE: (bool, bool) = (true, false);

/// A run may take the jumping edge out of an instruction, and not the falling edge.
const JUMPING_EDGE: (bool, bool) = (false, true);

/// A run may take either edge out of an instruction.
const BOTH_EDGES: (bool, bool) = (true, true);

/// The facts on the edges out of an instruction. Facts are large, so they are stored in place, and flags say whether they are valid.
#[derive(Drop)]
pub struct Edges {
    /// Whether a run may take the falling edge.
    pub falls: bool,
    /// The facts on the falling edge, if `falls`.
    pub falling: Facts,
    /// Whether a run may take the jumping edge.
    pub jumps: bool,
    /// The facts on the jumping edge, if `jumps`.
    pub jumping: Facts,
}

/// Refines the facts on one edge of a comparison: sets the range of `dst` to the first of `ranges`, and that of `src`, if it is a register,
/// to the second, and returns `true`. If `ranges` is `None`, no run takes the edge: the facts are unchanged, and it returns `false`.
fn refine(facts: &mut Facts, dst: Reg, src: &Operand, ranges: Option<(Range, Range)>) -> bool {
    match ranges {
        Some(ranges) => {
            set_ranges(facts, dst, src, ranges);
            true
        }
        None => false,
    }
}

impl Edges {
    /// No edges: both flags, `falls` and `jumps`, are false. Into this value `leave` then writes the edges out of an instruction. Both
    /// fields of facts need a value, and get a copy of `filler`, any facts that the caller has: they mean nothing, since both flags are
    /// false.
    pub fn none(filler: &Facts) -> Edges {
        Edges {
            falls: false,
            falling: *filler,
            jumps: false,
            jumping: *filler,
        }
    }

    /// Takes over `flow`, the result of an instruction's transfer function: sets which edges out of the instruction a run may take, and
    /// refines the facts on them. `leave` calls this with the facts after the instruction in both `falling` and `jumping`. `WritesSlot` and
    /// `Writes`, which say which stack slots the instruction may have changed, have only the falling edge, as `Falls` does: the facts have
    /// the change already. A comparison sets the ranges of its operands on each edge; an edge for which it has no ranges (`None`) is never
    /// taken. A null test settles the look-up at `site`: its result is null on one edge, the jumping one if `jumps_on_null`, and not on the
    /// other.
    fn take(&mut self, flow: &Flow) {
        (self.falls, self.jumps) = match *flow {
            Flow::Ends => NO_EDGE,
            Flow::Falls | Flow::WritesSlot(_) | Flow::Writes => FALLING_EDGE,
            Flow::Jumps => JUMPING_EDGE,
            Flow::Either => BOTH_EDGES,
            Flow::Compares {
                dst,
                src,
                falls,
                jumps,
            } => (
                refine(&mut self.falling, dst, &src, falls),
                refine(&mut self.jumping, dst, &src, jumps),
            ),
            Flow::Settles {
                site,
                jumps_on_null,
            } => {
                settle(&mut self.falling, site, !jumps_on_null);
                settle(&mut self.jumping, site, jumps_on_null);
                BOTH_EDGES
            }
        };
    }

    /// Sets which edges a run may take out of `insn`, the instruction at `slot`, and the facts on them. `facts` are those before the
    /// instruction, and `named` lists the open descriptors with their objects. If the instruction may not be run with these facts, there is
    /// no edge, and both fields of facts mean nothing. What `self` had before is lost.
    pub fn leave(&mut self, facts: &Facts, named: &[Named], slot: usize, insn: &Insn) {
        self.falling = *facts;
        match apply(&mut self.falling, named, slot, insn) {
            Ok(flow) => {
                self.jumping = self.falling;
                self.take(&flow);
            }
            Err(_) => {
                self.falls = false;
                self.jumps = false;
            }
        }
    }
}
