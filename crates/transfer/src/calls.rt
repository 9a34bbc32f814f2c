//! Accesses to the values of maps, and calls.

ghost use Rattle.std.specs.Prelude.{◌≡◌, ◌<◌, ◌+ℤ◌, pos, int_le, ◌&&◌, if◌then◌else◌, IfOk, IfErr, OnErr, OnOk, Ok, Err};
ghost use Rattle.tagged_model.specs.Named.{shapes_named};
ghost use Rattle.reg_kinds.specs.declared.reason.Reason.TheVariants.{OutsideValue};
ghost use Rattle.transfer.specs.Calls.{argument_map, check_in_value, input_kind, output_facts, number_range};
ghost use Rattle.transfer.specs.Calls.{lengths_end, length_range, context_kind, any_number, call_facts};

use crate::arithmetic::check_readable;
use insn_set::Reg;
use interval::Range;
use reg_kinds::{Facts, Kind, Reason, ValuePointer, check_read, facts_after_call, fill_stack};
use tagged_model::{Helper, MapShape, Named, shape_of};
use words::BITS_64;

/// A length that is passed to a helper is below this, in bytes: 2^29. So it fits in 32 bits; the stack and values are much shorter.
pub const LENGTHS_END: u64 = 0x2000_0000;

/// The shape of a map, and its descriptor.
#[derive(Clone, Copy, Debug, PartialEq, Eq)]
pub(crate) struct ShapedMap {
    descriptor: u32,
    shape: MapShape,
}

/// The map that is the first argument of a helper: its descriptor, and the shape that `named`, a list of descriptors and their objects, has
/// for this descriptor. `kind` is the kind of the argument's register, which has to be that of a map (`MapRef`). The error is
/// `HelperArgument`, a reason to reject the call, if the kind is another, or if the descriptor names no map in `named`. In the contract
/// `shapes_named` gives the shapes of the maps in `named`, by their descriptors.
fn argument_map(named: &[Named], kind: Kind) -> Result<ShapedMap, Reason>
    ensures { result ≡ argument_map (shapes_named named.now) kind }
{
    let Kind::MapRef(descriptor) = kind else {
        return Err(Reason::HelperArgument);
    };
    match shape_of(named, descriptor) {
        Some(shape) => Ok(ShapedMap { descriptor, shape }),
        None => Err(Reason::HelperArgument),
    }
}

/// The offset in a value, in bytes, of an access that is `by` bytes from a pointer with `offset`: their sum. Each of the three may be
/// negative. The sum can't overflow in 64 bits.
pub(crate) fn offset_of_access(offset: i32, by: i16) -> i64
    ensures { result ≡ offset +ℤ by }
{
    i64::from(offset) + i64::from(by)
}

/// Checks that an access of `count` bytes lies in a value of `size` bytes at each offset from `low` to `last`, both included.
/// `OutsideValue` if not. Only the ends are tested: `low` is not negative, and the access at `last` ends within `size`.
fn room_in(low: i64, last: i64, count: u32, size: u32) -> Result<(), Reason>
    ensures { result ≡ (if int_le (pos 0) low && int_le (last +ℤ pos count) (pos size) then Ok tt
        else Err OutsideValue) }
{
    if low < 0 {
        return Err(Reason::OutsideValue);
    }
    if last > i64::from(size) - i64::from(count) {
        return Err(Reason::OutsideValue);
    }
    Ok(())
}

/// Checks an access of `count` bytes through a pointer into the value of a map: it starts `offset` bytes after the pointer, or before it if
/// `offset` is negative. The pointer's own offset may be any from `pointer.lo` to `pointer.hi`, and for each of them all the bytes have to
/// lie in the value. `OutsideValue` if they don't, or if the pointer's descriptor names no map in `named`, a list of descriptors and their
/// objects.
pub(crate) fn check_in_value(
    named: &[Named],
    pointer: ValuePointer,
    offset: i16,
    count: u32,
) -> Result<(), Reason>
    ensures { result ≡ check_in_value pointer offset count (shapes_named named.now pointer.map) }
{
    let Some(shape) = shape_of(named, pointer.map) else {
        return Err(Reason::OutsideValue);
    };
    let low = offset_of_access(pointer.lo, offset);
    let last = offset_of_access(pointer.hi, offset);
    room_in(low, last, count, shape.value_size)
}

/// Checks that an argument of this kind points to `count` bytes that a helper may read. `facts` are those before the call, and `named`
/// lists the open descriptors and their objects. The errors for a pointer into the stack, the first that applies: the bytes don't all lie
/// in the stack (`OutsideStack`), they touch a spill (`PartOfSpill`), one may be unwritten (`UnwrittenStack`). For a pointer into a value:
/// the bytes may lie outside, or its descriptor names no map (`OutsideValue`). `MaybeNull` for the result of a look-up that may be null,
/// and `HelperArgument` for anything else.
fn check_input(named: &[Named], facts: &Facts, count: u32, kind: Kind) -> Result<(), Reason>
    ensures { result ≡ input_kind (shapes_named named.now) facts.now count kind }
{
    match kind {
        Kind::Stack(offset) => check_read(facts, offset, count),
        Kind::Value(pointer) => check_in_value(named, pointer, 0, count),
        Kind::MaybeValue { .. } => Err(Reason::MaybeNull),
        _ => Err(Reason::HelperArgument),
    }
}

/// Updates the facts for a helper's write of `length.lo` to `length.hi` bytes at an address of this kind. In the stack the first
/// `length.lo` bytes count as written, and a spill that the first `length.hi` bytes touch is lost; in the value of a map no fact changes.
/// The write begins at the address itself, 0 bytes from it (the 0 of `check_in_value`). `check_length` has bounded the length, so it fits
/// in 32 bits. The errors, after which no fact has changed (`stays`): `OutsideStack` or `OutsideValue` if `length.hi` bytes don't all lie
/// in the stack or in the value, or `named`, the open descriptors, has no map for the value's descriptor (`check_in_value`); `MaybeNull`
/// for the result of a look-up that may be null; `HelperArgument` for any other kind.
fn output(facts: &mut Facts, named: &[Named], length: Range, kind: Kind) -> Result<(), Reason>
    requires { length.hi < lengths_end }
    ensures ok { OnOk result (output_facts (shapes_named named.now) facts.old length kind
        ≡ Ok facts.new) }
    ensures refused { IfErr result (λ reason. output_facts (shapes_named named.now) facts.old length
        kind ≡ Err reason) }
    ensures stays { OnErr result (facts.new ≡ facts.old) }
{
    match kind {
        Kind::Stack(offset) => fill_stack(facts, offset, length.lo as u32, length.hi as u32),
        Kind::Value(pointer) => check_in_value(named, pointer, 0, length.hi as u32),
        Kind::MaybeValue { .. } => Err(Reason::MaybeNull),
        _ => Err(Reason::HelperArgument),
    }
}

/// Checks that an argument of this kind is a number: the flags of an update, or the offset of a load of bytes. `HelperArgument` if it is
/// none. `call` ignores the range of the number in `Ok`, since any number is allowed. The range is returned so that the result is that of
/// `number_range`, by which the definition of a call's facts (`call_facts`) has this check.
fn check_number(kind: Kind) -> Result<Range, Reason>
    ensures { result ≡ number_range kind }
{
    match kind {
        Kind::Scalar(range) => Ok(range),
        _ => Err(Reason::HelperArgument),
    }
}

/// The range of an argument of this kind that has to be a length: how many bytes the helper `LoadBytes` (bpf_skb_load_bytes) writes.
/// `LengthUnbounded` if the length may be 0, or 2^29 (`LENGTHS_END`) or more; `HelperArgument` if the argument is no number. By `bound`
/// each length of the range is below `LENGTHS_END`, and so fits in 32 bits: `output`, which updates the facts for the write, requires it.
fn check_length(kind: Kind) -> Result<Range, Reason>
    ensures value { result ≡ length_range kind }
    ensures bound { IfOk result (λ r. r.hi < lengths_end) }
{
    let Kind::Scalar(range) = kind else {
        return Err(Reason::HelperArgument);
    };
    if range.lo == 0 || range.hi >= LENGTHS_END {
        Err(Reason::LengthUnbounded)
    } else {
        Ok(range)
    }
}

/// Checks the first argument of a call of the helper that loads bytes of the packet (`LoadBytes`): `Ok` if its kind is `Ctx`, the pointer
/// to the context, `HelperArgument` for any other kind. The definition `context_kind` has these two cases.
fn check_context(kind: Kind) -> Result<(), Reason>
    ensures { result ≡ context_kind kind }
{
    match kind {
        Kind::Ctx => Ok(()),
        _ => Err(Reason::HelperArgument),
    }
}

/// The kind of a number of which only the width is known, 64 bits (`BITS_64`): it may be any from 0 to 2^64 - 1. The result of each helper
/// but a look-up has this kind.
fn any_number() -> Kind
    ensures { result ≡ any_number }
{
    Kind::Scalar(Range::full(BITS_64))
}

/// Updates the facts for a call of `helper` at `slot`, as `call_facts` defines: register 0 gets the kind of the result, and registers 1 to
/// 5 become unreadable. The result of a look-up has `slot` as its site; that of any other helper is any number. `LoadBytes` may also change
/// what is known of the stack bytes that it writes. `named` lists the objects of the open descriptors. The arguments, in registers 1 to 4,
/// are a map, a pointer to a key, and for `Update` a pointer to a value and flags; for `LoadBytes` the context, an offset in the packet,
/// which may be any number, a pointer to room for the bytes, and their number, which is checked before the pointer. The error, after which
/// the facts are unchanged, is the first that applies: `UnreadableRegister`; then for each argument `HelperArgument` for a wrong kind,
/// `MaybeNull` for a pointer that may be null, `OutsideStack`, `PartOfSpill`, `UnwrittenStack` or `OutsideValue` for the bytes at a
/// pointer, `LengthUnbounded` for their number.
pub(crate) fn call(
    facts: &mut Facts,
    named: &[Named],
    slot: usize,
    helper: Helper,
) -> Result<(), Reason>
    ensures ok { OnOk result (call_facts (shapes_named named.now) slot helper facts.old
        ≡ Ok facts.new) }
    ensures refused { IfErr result (λ reason. call_facts (shapes_named named.now) slot helper
        facts.old ≡ Err reason) }
    ensures stays { OnErr result (facts.new ≡ facts.old) }
{
    let first = check_readable(facts.kind(Reg::new(1)))?;
    let second = check_readable(facts.kind(Reg::new(2)))?;
    match helper {
        Helper::LookUp => {
            let map = argument_map(named, first)?;
            check_input(named, facts, map.shape.key_size, second)?;
            let found = Kind::MaybeValue {
                map: map.descriptor,
                site: slot,
            };
            facts_after_call(facts, found);
        }
        Helper::Update => {
            let value = check_readable(facts.kind(Reg::new(3)))?;
            let flags = check_readable(facts.kind(Reg::new(4)))?;
            let map = argument_map(named, first)?;
            check_input(named, facts, map.shape.key_size, second)?;
            check_input(named, facts, map.shape.value_size, value)?;
            check_number(flags)?;
            facts_after_call(facts, any_number());
        }
        Helper::Delete => {
            let map = argument_map(named, first)?;
            check_input(named, facts, map.shape.key_size, second)?;
            facts_after_call(facts, any_number());
        }
        Helper::LoadBytes => {
            let to = check_readable(facts.kind(Reg::new(3)))?;
            let count = check_readable(facts.kind(Reg::new(4)))?;
            check_context(first)?;
            check_number(second)?;
            let length = check_length(count)?;
            output(facts, named, length, to)?;
            facts_after_call(facts, any_number());
        }
    }
    Ok(())
}
