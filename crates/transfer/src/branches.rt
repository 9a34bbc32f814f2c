//! The facts on the two edges of a conditional jump.

ghost use Rattle.std.specs.Prelude.{◌≡◌, IfOk, IfErr, Ok, Err};
ghost use Rattle.reg_kinds.specs.declared.facts.Facts.{Facts as AnyFacts};
ghost use Rattle.transfer.specs.Branches.{with_pair, is_same, number_edges, pointer_edges, branch_edges};
ghost use Rattle.tagged_model.specs.Values.{is_null_test};
ghost use Rattle.transfer.specs.Flows.{edges_of, KeepsStack};
ghost use Rattle.transfer.specs.declared.branches.Flow.TheVariants.{Compares};

use insn_set::{Operand, Reg};
use interval::{Range, refine};
use reg_kinds::{Facts, Kind, Reason};
use words::Condition;

/// The edges that control may take after an instruction: the falling edge leads to the next instruction, the jumping edge to the target of
/// its jump. The facts, as `apply` has changed them, hold on each of these edges; what holds on only one is in the variant.
#[derive(Clone, Copy, Debug, PartialEq, Eq)]
pub enum Flow {
    /// No edge: the run ends.
    Ends,
    /// The falling edge, with the facts after the instruction.
    Falls,
    /// The falling edge, after an instruction that may change this stack slot, 0 to 63, and no other.
    WritesSlot(usize),
    /// The falling edge, after an instruction that may change any stack slot.
    Writes,
    /// The jumping edge, with the facts after the instruction.
    Jumps,
    /// Both edges, with the facts after the instruction.
    Either,
    /// The edges after a comparison of two numbers. `falls` and `jumps` have the ranges of the operands on the falling and on the jumping
    /// edge, that of `dst` first; `None` for an edge that can't be taken.
    Compares {
        dst: Reg,
        src: Operand,
        falls: Option<(Range, Range)>,
        jumps: Option<(Range, Range)>,
    },
    /// Both edges after a null test of the result of the look-up at slot `site`. The jump is taken if the result is null (`jumps_on_null`
    /// is true), or if it is not null (false).
    Settles {
        site: usize,
        jumps_on_null: bool,
    },
}

/// Refines the facts on one edge of a comparison of numbers, by the ranges that `pair` has for its operands there. The kind of `dst`
/// becomes a number in the first range. If `src` is a register, its kind becomes a number in the second; if it is a constant, the second is
/// not used, since a constant has no kind in facts. No caller has one register as both operands, which would get only the second range: if
/// a register is compared with itself, `compare_numbers` returns `Flow::Either`, which has no ranges.
#[inline(always)]
pub fn set_ranges(facts: &mut Facts, dst: Reg, src: &Operand, pair: (Range, Range))
    ensures { facts.new ≡ with_pair facts.old dst src.now pair }
{
    facts.set_kind(dst, Kind::Scalar(pair.0));
    if let Operand::Reg(source) = *src {
        facts.set_kind(source, Kind::Scalar(pair.1));
    }
}

/// Whether a comparison of register `dst` with `src` compares a register with itself; false if `src` is a constant. If it does, the
/// register would get two ranges on an edge, and `set_ranges` would leave it only the second. So `compare_numbers` refines no range, and
/// both edges count as possible.
fn is_same(dst: Reg, src: Operand) -> bool
    ensures { result ≡ is_same dst src }
{
    match src {
        Operand::Imm(_) => false,
        Operand::Reg(source) => source == dst,
    }
}

/// The edges of a comparison of two numbers, in `dst` and in `src`, a register or a constant: `Flow::Compares` with these arguments.
/// `falls` and `jumps` have the ranges of `dst` and of `src`, in this order, on the falling and on the jumping edge; `None` for an edge
/// that can't be taken. `compare_numbers` calls this with the ranges that `refine` has found, and only if `src` is not the register `dst`.
fn compared(
    dst: Reg,
    src: &Operand,
    falls: Option<(Range, Range)>,
    jumps: Option<(Range, Range)>,
) -> Flow
    ensures { result ≡ Compares dst src.now falls jumps }
{
    Flow::Compares {
        dst,
        src: *src,
        falls,
        jumps,
    }
}

/// The edges of a comparison of two numbers of 64 bits (`wide`) or 32: register `dst`, in the range `a`, and `src`, a register or a
/// constant, in the range `b`. On each edge both ranges are refined (`refine`); the edge is `None` only if it can't be taken. If a register
/// is compared with itself, no range changes, and both edges count as possible (`Either`), even if the condition never or always holds.
/// `edges`: for any facts `f` before the jump, the result has the edges, each with its facts (`edges_of`), that the definition
/// `number_edges` gives. `stack` is for the proof of `apply`, the transfer function, which promises to change no stack slot in the facts
/// but those that the flow it returns allows (`KeepsStack`). For a comparison `apply` changes no facts, so `f` is both those before and
/// those after it: the refined ranges are set only in the facts on an edge.
#[inline(always)]
fn compare_numbers(
    wide: bool,
    condition: Condition,
    dst: Reg,
    src: Operand,
    a: Range,
    b: Range,
) -> Flow
    ensures edges { (f : AnyFacts) → edges_of result f ≡ number_edges wide condition f dst src a b }
    ensures stack { (f : AnyFacts) → KeepsStack result f f }
{
    if is_same(dst, src) {
        return Flow::Either;
    }
    let (where_taken, where_not) = refine(condition, wide, a, b);
    compared(dst, &src, where_not, where_taken)
}

/// The edges of a test whether a pointer or a map, of the kind `pointer`, is null. `condition` is `Equal`, if the jump is taken on null, or
/// `NotEqual`, if it is taken on not null; the caller has tested this (`is_null_test`), and any other would count as `Equal`. A look-up's
/// result (`MaybeValue`) may be null, and is settled on both edges. Anything else is not null: then a test for `Equal` never jumps, and one
/// for `NotEqual` always does. `edges`: for any facts `f` before the test, the result has the edges, each with its facts (`edges_of`), that
/// the definition `pointer_edges` gives. `stack` is for the proof of `apply`, the transfer function, which promises to change no stack slot
/// in the facts but those that the flow it returns allows (`KeepsStack`). For a null test `apply` changes no facts, so `f` is both those
/// before and those after it: copies of a look-up's result, in registers and stack slots, are settled only in the facts on an edge.
fn test_pointer(condition: Condition, pointer: Kind) -> Flow
    ensures edges { (f : AnyFacts) → edges_of result f ≡ pointer_edges condition f pointer }
    ensures stack { (f : AnyFacts) → KeepsStack result f f }
{
    let jumps_on_null = condition != Condition::NotEqual;
    if let Kind::MaybeValue { site, .. } = pointer {
        Flow::Settles {
            site,
            jumps_on_null,
        }
    } else if jumps_on_null {
        Flow::Falls
    } else {
        Flow::Jumps
    }
}

/// Whether a comparison is a null test: of 64 bits (`wide`), with the constant 0 (`src`), for `Equal` or `NotEqual`. The kind of the first
/// operand is not tested: `branch` calls this only for a pointer or a map, which no other comparison may have as an operand.
fn is_null_test(wide: bool, condition: Condition, src: Operand) -> bool
    ensures { result ≡ is_null_test wide condition src }
{
    let tests_equality = matches!(condition, Condition::Equal | Condition::NotEqual);
    wide && tests_equality && src == Operand::Imm(0)
}

/// The edges of a conditional jump that compares `dst`, of the kind `a`, with `src`, of the kind `b`: all 64 bits (`wide`) or the low 32.
/// `PointerComparison` unless both are numbers, or `dst` is no number and this is a null test of it: a comparison of 64 bits with the
/// constant 0 for `Equal` or `NotEqual`. The caller has rejected operands that may not be read, which the contract does not require. The
/// result has the edges, and what holds on only one of them; `edges_of` adds `f`, the facts before the jump. For any `f` the edges with
/// their facts, or the error, are those of the definition `branch_edges` (`ok`, `refused`). `stack` is for the proof of the caller `apply`,
/// which promises to change no stack slot in the facts but those that the flow it returns allows (`KeepsStack`). For a conditional jump
/// `apply` changes no facts, so `f` is both those before and those after it: refined ranges and settled look-ups are set only in the facts
/// on an edge.
#[inline(always)]
pub(crate) fn branch(
    wide: bool,
    condition: Condition,
    dst: Reg,
    src: Operand,
    a: Kind,
    b: Kind,
) -> Result<Flow, Reason>
    ensures ok { IfOk result (λ flow. (f : AnyFacts) → branch_edges wide condition f dst src a b
        ≡ Ok (edges_of flow f)) }
    ensures refused { IfErr result (λ reason. (f : AnyFacts)
        → branch_edges wide condition f dst src a b ≡ Err reason) }
    ensures stack { IfOk result (λ flow. (f : AnyFacts) → KeepsStack flow f f) }
{
    match (a, b) {
        (Kind::Scalar(a), Kind::Scalar(b)) => {
            Ok(compare_numbers(wide, condition, dst, src, a, b))
        }
        (Kind::Scalar(_), _) => Err(Reason::PointerComparison),
        (pointer, _) if is_null_test(wide, condition, src) => {
            Ok(test_pointer(condition, pointer))
        }
        _ => Err(Reason::PointerComparison),
    }
}
