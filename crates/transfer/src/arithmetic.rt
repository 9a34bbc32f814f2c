//! The kind that an operator leaves in its destination.

ghost use Rattle.std.specs.Prelude.{◌≡◌, ◌≤ℤ◌, ◌+ℤ◌, ◌-ℤ◌, IfSome, true};
ghost use Rattle.transfer.specs.declared.arithmetic.Direction.TheVariants.{Forwards, Backwards};
ghost use Rattle.interval.specs.Table.{range_of};
ghost use Rattle.words.specs.Widths.{width};
ghost use Rattle.transfer.specs.Arithmetic.{check_readable, distance, moved_offset, stack_moved, value_by, value_moved};
ghost use Rattle.transfer.specs.Arithmetic.{pointer_moved, is_maybe_value, of_scalars, sum_kind, difference_kind, arithmetic_kind, of_scalar};

use interval::{Range, alu32, alu64};
use reg_kinds::{Kind, Reason, ValuePointer};
use tagged_model::FARTHEST_OFFSET;
use words::{AluOp, BITS_64, Operator};

/// The direction in which a number moves a pointer: forwards in a sum, backwards in a difference.
#[derive(Clone, Copy, Debug, PartialEq, Eq)]
pub(crate) enum Direction {
    Forwards,
    Backwards,
}

/// Checks that an instruction may read an operand of this kind: returns `kind`, or `UnreadableRegister` if it is `Unreadable`.
#[inline(always)]
pub(crate) fn check_readable(kind: Kind) -> Result<Kind, Reason>
    ensures { result ≡ check_readable kind }
{
    match kind {
        Kind::Unreadable => Err(Reason::UnreadableRegister),
        other => Ok(other),
    }
}

/// The least and the greatest distance, in bytes, by which a number of this range moves a pointer: the range's ends, read as signed, the
/// least first (`ordered`). Numbers from 2^63 on are negative. `None` if the range has negative numbers and others: then its ends, read as
/// signed, are not in order.
fn distance(range: Range) -> Option<(i64, i64)>
    ensures value { result ≡ distance range }
    ensures ordered { IfSome result (λ d. d.0 ≤ℤ d.1) }
{
    if range.hi <= 0x7fff_ffff_ffff_ffff || range.lo > 0x7fff_ffff_ffff_ffff {
        Some((range.lo.cast_signed(), range.hi.cast_signed()))
    } else {
        None
    }
}

/// A pointer's offset after a sum has moved it by `by` bytes, backwards if `by` is negative; `None` if the offset is then farther than
/// `FARTHEST_OFFSET` (2^29 bytes) from 0, in either direction. `moved`: an offset that is returned is the exact sum.
fn offset_after_sum(offset: i32, by: i64) -> Option<i32>
    ensures value { result ≡ moved_offset Forwards offset by }
    ensures moved { IfSome result (λ to. to ≡ offset +ℤ by) }
{
    let to = i64::from(offset).checked_add(by)?;
    if to < -FARTHEST_OFFSET || to > FARTHEST_OFFSET {
        None
    } else {
        Some(to as i32)
    }
}

/// The offset of a pointer that a difference moves backwards: `offset` minus `by`, in bytes. `None` if it is then farther than
/// `FARTHEST_OFFSET` from 0, in either direction. `value`: the result is that of the definition (`moved_offset`). `moved`: a result is the
/// exact difference, so two offsets that `value_by` moves keep their order.
fn offset_after_difference(offset: i32, by: i64) -> Option<i32>
    ensures value { result ≡ moved_offset Backwards offset by }
    ensures moved { IfSome result (λ to. to ≡ offset -ℤ by) }
{
    let to = i64::from(offset).checked_sub(by)?;
    if to < -FARTHEST_OFFSET || to > FARTHEST_OFFSET {
        None
    } else {
        Some(to as i32)
    }
}

/// The kind of a stack pointer at `offset` after a move forwards or backwards (`way`) by the one number of `range`, in bytes, read as
/// signed. `OffsetTooLarge` if the new offset is more than `FARTHEST_OFFSET`, 2^29 bytes, from 0. `distance` gives the least and the
/// greatest number of `range`, or `None` if it has numbers of both signs. The only caller, `pointer_moved`, has tested that `range` has
/// only one number, which the contract does not require. So the least number is also the greatest, and `None` never occurs.
fn stack_moved(way: Direction, offset: i32, range: Range) -> Result<Kind, Reason>
    ensures { result ≡ stack_moved way offset range }
{
    let Some((by, _)) = distance(range) else {
        return Err(Reason::OffsetTooLarge);
    };
    let to = match way {
        Direction::Forwards => offset_after_sum(offset, by),
        Direction::Backwards => offset_after_difference(offset, by),
    };
    match to {
        Some(offset) => Ok(Kind::Stack(offset)),
        None => Err(Reason::OffsetTooLarge),
    }
}

/// `pointer`, a pointer into a value, after it is moved in the direction `way` by a number of bytes from `least` to `greatest`, both
/// included. `value_moved` calls it with the ends of a number's range, read as signed. The new `lo` and `hi` are the least and the greatest
/// offset to which this leads; backwards, the greatest number leads to the least offset. `None` if one of them is farther than
/// `FARTHEST_OFFSET`, 2^29, from 0. `least` is at most `greatest`, so that the new offsets are in order, as `ValuePointer::new` requires.
fn value_by(
    way: Direction,
    pointer: ValuePointer,
    least: i64,
    greatest: i64,
) -> Option<ValuePointer>
    requires { least ≤ℤ greatest }
    ensures { result ≡ value_by way pointer (least, greatest) }
{
    match way {
        Direction::Forwards => Some(ValuePointer::new(
            pointer.map,
            offset_after_sum(pointer.lo, least)?,
            offset_after_sum(pointer.hi, greatest)?,
        )),
        Direction::Backwards => Some(ValuePointer::new(
            pointer.map,
            offset_after_difference(pointer.lo, greatest)?,
            offset_after_difference(pointer.hi, least)?,
        )),
    }
}

/// The kind of `pointer`, a pointer into a value of a map, after a number in `range` is added to it (`way` is `Forwards`) or subtracted
/// from it (`Backwards`). The number is read as signed: from 2^63 on it is negative. `OffsetTooLarge` if the offset may then be more than
/// `FARTHEST_OFFSET` bytes from 0. A range with numbers of both signs always gives this error: its ends are unsigned, so it contains
/// 2^63 - 1.
fn value_moved(way: Direction, pointer: ValuePointer, range: Range) -> Result<Kind, Reason>
    ensures { result ≡ value_moved way pointer range }
{
    let Some((least, greatest)) = distance(range) else {
        return Err(Reason::OffsetTooLarge);
    };
    match value_by(way, pointer, least, greatest) {
        Some(value) => Ok(Kind::Value(value)),
        None => Err(Reason::OffsetTooLarge),
    }
}

/// The kind of `pointer` after it is moved by a number in `range`, read as signed: forwards in a sum, backwards in a difference (`way`).
/// Only a pointer into a value may be moved, and, if `range` has only one number, a stack pointer; in all other cases the error is
/// `PointerArithmetic`. It is `OffsetTooLarge` if the moved offset may be more than `FARTHEST_OFFSET` bytes from 0. A `range` with
/// numbers of both signs moves a pointer too far: its ends are unsigned, so it contains 2^63 - 1.
fn pointer_moved(way: Direction, pointer: Kind, range: Range) -> Result<Kind, Reason>
    ensures { result ≡ pointer_moved way pointer range }
{
    match pointer {
        Kind::Stack(offset) if range.is_constant() => stack_moved(way, offset, range),
        Kind::Value(value) => value_moved(way, value, range),
        _ => Err(Reason::PointerArithmetic),
    }
}

/// A range that includes each result of `op` on a first operand in the range `a` and a second one in `b` (`range_of`). If each operand that
/// `op` reads is one number, the range is one number too. The operator is that of 64 bits if `wide`, else that of 32. A move and a sign
/// extension read only `b`, a negation and a byte-order conversion only `a`.
#[inline(always)]
pub(crate) fn result_range(wide: bool, op: Operator, a: Range, b: Range) -> Range
    ensures { result ≡ range_of (width wide) op a b }
{
    if wide {
        alu64(op, a, b)
    } else {
        alu32(op, a, b)
    }
}

/// The kind of the result of `op` on a first operand of kind `a` and a second of kind `b`, on 64 bits if `wide`, else on 32. Two numbers,
/// each in a range, give a number, in the range that the ranges and `op` give. `PointerArithmetic` if an operand is no number, even one
/// that `op` does not read: so `of_scalar` passes its one operand as both, and the first operand of a move is the number 0. An unreadable
/// operand is rejected before the call, which is not required.
fn of_scalars(wide: bool, op: Operator, a: Kind, b: Kind) -> Result<Kind, Reason>
    ensures { result ≡ of_scalars wide op a b }
{
    match (a, b) {
        (Kind::Scalar(a), Kind::Scalar(b)) => Ok(Kind::Scalar(result_range(wide, op, a, b))),
        _ => Err(Reason::PointerArithmetic),
    }
}

/// The kind of the result of `op`, an operator of one operand, on an operand of the kind `kind`, on 64 bits (`wide`) or 32: a number, in
/// the range of the results. `PointerArithmetic` if the operand is no number. `of_scalars`, which is for two operands, gets this one as
/// both: a sign extension reads the second, a negation and a byte-order conversion the first. No caller has an `op` of two operands, which
/// would read this one twice.
pub(crate) fn of_scalar(wide: bool, op: Operator, kind: Kind) -> Result<Kind, Reason>
    ensures { result ≡ of_scalar wide op kind }
{
    of_scalars(wide, op, kind, kind)
}

/// The kind of a 64-bit sum of operands of the kinds `a` and `b`. Two numbers give a number (`of_scalars`). A pointer and a number, in
/// either order, give the pointer moved forwards by the number, which is read as signed (`pointer_moved`). Only a pointer into a value may
/// be moved, and, if the range of the number has only one number, a stack pointer: `PointerArithmetic` for any other operands.
/// `OffsetTooLarge` if the moved offset may be more than `FARTHEST_OFFSET` bytes from 0. A range with numbers of both signs moves a pointer
/// into a value too far: its ends are unsigned, so it contains 2^63 - 1.
fn sum(a: Kind, b: Kind) -> Result<Kind, Reason>
    ensures { result ≡ sum_kind a b }
{
    match (a, b) {
        (Kind::Scalar(_), Kind::Scalar(_)) => of_scalars(
            BITS_64,
            Operator::Binary(AluOp::Add),
            a,
            b,
        ),
        (Kind::Scalar(range), pointer) => pointer_moved(Direction::Forwards, pointer, range),
        (pointer, Kind::Scalar(range)) => pointer_moved(Direction::Forwards, pointer, range),
        _ => Err(Reason::PointerArithmetic),
    }
}

/// The kind of a 64-bit difference, of two numbers or a pointer minus a number; `a` and `b` are the kinds of the operands. Only a pointer
/// into a value may be moved, and, if the range of `b` has only one number, a stack pointer: `PointerArithmetic` for any other operands.
/// `OffsetTooLarge` if the moved offset may be more than `FARTHEST_OFFSET` from 0, or if the range of `b` has numbers of both signs
/// (`pointer_moved`).
fn difference(a: Kind, b: Kind) -> Result<Kind, Reason>
    ensures { result ≡ difference_kind a b }
{
    match (a, b) {
        (Kind::Scalar(_), Kind::Scalar(_)) => of_scalars(
            BITS_64,
            Operator::Binary(AluOp::Sub),
            a,
            b,
        ),
        (Kind::Scalar(_), _) => Err(Reason::PointerArithmetic),
        (pointer, Kind::Scalar(range)) => pointer_moved(Direction::Backwards, pointer, range),
        _ => Err(Reason::PointerArithmetic),
    }
}

/// Whether the kind is that of a look-up's result that may be null, since no null test has settled it. By this `arithmetic` rejects a
/// 64-bit sum or difference with such an operand for the reason `MaybeNull`. Without the test the reason would be `PointerArithmetic`.
fn is_maybe_value(kind: Kind) -> bool
    ensures { result ≡ is_maybe_value kind }
{
    matches!(kind, Kind::MaybeValue { .. })
}

/// The kind of the result of `op`, an operator of 64 bits (`wide`) or 32. Its first operand, the destination, is of the kind `a`, its
/// second, the source, of the kind `b`. A move does not read the destination, and for it `a` is the kind of the number 0. The caller has
/// found both readable, which is not required: a 64-bit move would copy an unreadable kind, and the other operators reject it. Allowed are
/// a 64-bit move of any value, each operator on two numbers, and 64-bit sums and differences that move a pointer into a value by a number,
/// or a stack pointer by a number whose range has one member. `MaybeNull` if an operand of a 64-bit sum or difference is a look-up's result
/// that may be null; `OffsetTooLarge` if such a move may lead to an offset of more than `FARTHEST_OFFSET`, 2^29 bytes, from 0, or if the
/// number that moves a pointer into a value, read as signed, may have either sign; `PointerArithmetic` for all other operands.
pub(crate) fn arithmetic(wide: bool, op: AluOp, a: Kind, b: Kind) -> Result<Kind, Reason>
    ensures { result ≡ arithmetic_kind wide op a b }
{
    match (wide, op) {
        (BITS_64, AluOp::Mov) => Ok(b),
        (BITS_64, AluOp::Add | AluOp::Sub) if is_maybe_value(a) || is_maybe_value(b) => Err(
            Reason::MaybeNull,
        ),
        (BITS_64, AluOp::Add) => sum(a, b),
        (BITS_64, AluOp::Sub) => difference(a, b),
        _ => of_scalars(wide, Operator::Binary(op), a, b),
    }
}
