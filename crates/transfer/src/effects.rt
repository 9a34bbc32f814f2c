//! The transfer function.

ghost use Rattle.std.specs.Prelude.{◌≡◌, ◌<◌, ℕ, pos, IfSome, Some, None, if◌then◌else◌, ◌+ℤ◌, ◌%◌};
ghost use Rattle.std.specs.Prelude.{◌==◌, unsigned_abs, false, IfOk, IfErr, OnErr, OnOk, Ok, Err};
ghost use Rattle.words.specs.Words.{unsigned};
ghost use Rattle.words.specs.Stack.{bytes_of, is_in_stack};
ghost use Rattle.words.specs.Widths.{width};
ghost use Rattle.insn_set.specs.Atomic.{access_size};
ghost use Rattle.tagged_model.specs.Shape.{longest_value};
ghost use Rattle.transfer.specs.Arithmetic.{of_scalar};
ghost use Rattle.transfer.specs.Branches.{ends, falls};
ghost use Rattle.transfer.specs.Effects.{source_kind, first_operand_kind, context_read, load_kind, store_facts};
ghost use Rattle.transfer.specs.Effects.{number_or, stack_changed, is_known_multiple, atomic_facts};
ghost use Rattle.transfer.specs.Effects.{map_of, value_of, exit_edges, operator_edges, unary_edges, effect};
ghost use Rattle.reg_kinds.specs.declared.reason.Reason.TheVariants.{OutsideStack, PointerStored};
ghost use Rattle.tagged_model.specs.Named.{shapes_named};
ghost use Rattle.transfer.specs.Flows.{edges_of, KeepsStack};
ghost use Rattle.reg_kinds.specs.Stack.{ChangesAtMost};
ghost use Rattle.reg_kinds.specs.declared.facts.Facts.{Facts as AnyFacts};
ghost use Rattle.reg_kinds.specs.Kinds.{is_pointer, kind_at, with_kind};
ghost use Rattle.reg_kinds.specs.declared.kind.Kind.TheVariants.{Scalar};
ghost use Rattle.transfer.specs.declared.branches.Flow.TheVariants.{Falls};

use crate::arithmetic::{arithmetic, check_readable, of_scalar, result_range};
use crate::branches::{Flow, branch};
use crate::calls::{call, check_in_value, offset_of_access};
use insn_set::{AtomicSize, Insn, Load, Movsx, Operand, Reg};
use interval::Range;
use reg_kinds::{Facts, Kind, Reason, ValuePointer, loaded, read_stack, write_stack};
use tagged_model::{CONTEXT_WORDS, Named, known_helper, shape_of};
use words::{AccessSize, AluOp, BITS_32, BITS_64, Operator, UNSIGNED};

/// The size of the context in bytes: each of its words has four.
const CONTEXT_SIZE: i16 = 4 * CONTEXT_WORDS as i16;

/// The constant operand of an instruction, its immediate `imm`, as a machine word. An instruction of 64 bits (`wide`) sign-extends the
/// constant; one of 32 bits (not `wide`) takes it modulo 2^32, so that the upper half of the word is zero. In both cases the word is the
/// constant modulo 2^64 or 2^32, its width (`unsigned`).
fn immediate_word(wide: bool, imm: i32) -> u64
    ensures { result ≡ unsigned (width wide) imm }
{
    if wide {
        i64::from(imm).cast_unsigned()
    } else {
        u64::from(imm.cast_unsigned())
    }
}

/// The kind of the second operand `src` of an instruction: of a register its kind in `facts`, those before the instruction, of a constant
/// the range of one number. An instruction of 64 bits (`wide`) sign-extends a constant, one of 32 bits reads it modulo 2^32. The kind may
/// be `Unreadable`, for which callers test (`check_readable`).
#[inline(always)]
fn source(facts: &Facts, wide: bool, src: &Operand) -> Kind
    ensures { result ≡ source_kind facts.now wide src.now }
{
    match src {
        Operand::Reg(reg) => facts.kind(*reg),
        Operand::Imm(imm) => Kind::Scalar(Range::constant(immediate_word(wide, *imm))),
    }
}

/// The kind of the first operand of `op`; `kind` is that of its register. A move does not read the register, so the operand is taken as the
/// number 0, whether it is readable or not. `UnreadableRegister` if `op` is no move and the register is not readable.
#[inline(always)]
fn first_operand(op: AluOp, kind: Kind) -> Result<Kind, Reason>
    ensures { result ≡ first_operand_kind op kind }
{
    match op {
        AluOp::Mov => Ok(Kind::Scalar(Range::constant(0))),
        _ => check_readable(kind),
    }
}

/// The kind of a word that is loaded from byte `offset` of the context: any number of 32 bits. `ContextAccess` unless the load has four
/// bytes (`size`), all in the context, at a multiple of four, and is without sign extension (`signed`).
fn context_read(offset: i16, size: AccessSize, signed: bool) -> Result<Kind, Reason>
    ensures { result ≡ context_read offset size signed }
{
    if size == AccessSize::Word
        && !signed
        && offset >= 0
        && offset < CONTEXT_SIZE
        && offset % 4 == 0
    {
        Ok(Kind::Scalar(Range::full(BITS_32)))
    } else {
        Err(Reason::ContextAccess)
    }
}

/// The offset from the stack's upper end of an access, which is `offset` bytes from a pointer at offset `from`. `OutsideStack` if the sum
/// does not fit in 32 bits: then no bytes from there on lie in the stack, for any number `n` of them (`outside`). A sum that fits may also
/// be outside the stack: `read_stack`, `write_stack` and `change_stack` check that.
fn stack_offset(from: i32, offset: i16) -> Result<i32, Reason>
    ensures ok { IfOk result (λ at. at ≡ from +ℤ offset) }
    ensures outside { IfErr result (λ reason. (reason ≡ OutsideStack)
        × ((n : ℕ) → is_in_stack (from +ℤ offset) n ≡ false)) }
{
    from.checked_add(i32::from(offset))
        .ok_or(Reason::OutsideStack)
}

/// The kind of a value of `size` that is loaded `offset` bytes from an address of the kind `base`; a number is sign-extended (`signed`) or
/// zero-extended. `named` lists the objects of descriptors. The error is the first that applies. In the stack: bytes not in it
/// (`OutsideStack`), not aligned to the size (`UnalignedStack`), only some of a spill (`PartOfSpill`), or maybe unwritten
/// (`UnwrittenStack`). In the context: not one of its four-byte words, or `signed` (`ContextAccess`). In a map's value: bytes maybe outside
/// it (`OutsideValue`). For other kinds of `base`: `MaybeNull` for a look-up's result that may be null, `NotPointer` for a number and a
/// map. It is `NotPointer` for an unreadable `base` too, but `apply` has rejected that before (`UnreadableRegister`).
#[inline(always)]
fn load(
    facts: &Facts,
    named: &[Named],
    size: AccessSize,
    signed: bool,
    offset: i16,
    base: Kind,
) -> Result<Kind, Reason>
    ensures { result ≡ load_kind (shapes_named named.now) facts.now size signed offset
        base }
{
    match base {
        Kind::Stack(from) => {
            let at = stack_offset(from, offset)?;
            read_stack(facts, at, size, signed)
        }
        Kind::Ctx => context_read(offset, size, signed),
        Kind::Value(pointer) => {
            check_in_value(named, pointer, offset, u32::from(size.bytes()))?;
            Ok(loaded(size, signed))
        }
        Kind::MaybeValue { .. } => Err(Reason::MaybeNull),
        _ => Err(Reason::NotPointer),
    }
}

/// Checks that a value of this kind may be stored in the value of a map. `store` calls this for such a store. The error is `PointerStored`
/// for a pointer, also one that may be null, and for a map (`is_pointer`): only a stack slot keeps the kind of such a value, as a spill,
/// and a load from a map's value gives a number. A number passes. An unreadable value passes too, but none comes here: `apply`, the only
/// caller of `store`, has rejected it.
fn check_stored_in_map(value: Kind) -> Result<(), Reason>
    ensures { result ≡ (if is_pointer value then Err PointerStored else Ok tt) }
{
    if value.is_pointer() {
        Err(Reason::PointerStored)
    } else {
        Ok(())
    }
}

/// Updates the facts for a store that writes `size` bytes of a value of the kind `value`, `offset` bytes from an address of the kind
/// `base`. `store_facts` defines the facts afterwards (`ok`) and the error (`refused`). On the stack, a number makes the stored bytes
/// written, and a pointer or a map is spilled. Returns, for the flow that `apply` returns (`flow_after_write`), the index of the stack slot
/// of the store, 0 to 63 from the lowest, the only one that may change (`stack`); `None` for a store into the value of a map, which changes
/// no fact. `apply` has found both kinds readable, which the contract does not require: if the stored value is unreadable, a store to the
/// stack is the error `UnreadableRegister`, and one into a map is allowed. `named` lists what each open descriptor names. The error is the
/// first that applies, and then no fact has changed (`stays`). On the stack: the bytes are not in the stack (`OutsideStack`), they are not
/// aligned to the size (`UnalignedStack`), or a pointer or a map is not stored by eight bytes (`PartOfSpill`). In the value of a map: the
/// bytes may be outside (`OutsideValue`), or a pointer or a map is stored (`PointerStored`). For any other `base`: `ContextAccess` for the
/// context, `MaybeNull` for a look-up's result that may be null, else `NotPointer`.
#[inline(always)]
fn store(
    facts: &mut Facts,
    named: &[Named],
    size: AccessSize,
    offset: i16,
    base: Kind,
    value: Kind,
) -> Result<Option<usize>, Reason>
    ensures ok { OnOk result (store_facts (shapes_named named.now) facts.old size offset
        base value ≡ Ok facts.new) }
    ensures stack { IfOk result (λ slot. ChangesAtMost slot facts.old facts.new) }
    ensures refused { IfErr result (λ reason. store_facts (shapes_named named.now) facts.old
        size offset base value ≡ Err reason) }
    ensures stays { OnErr result (facts.new ≡ facts.old) }
{
    match base {
        Kind::Stack(from) => {
            // No caller passes an unreadable value, but the contract covers one: its store to the stack fails for this reason, even if the
            // offset does not fit.
            if let Kind::Unreadable = value {
                return Err(Reason::UnreadableRegister);
            }
            let at = stack_offset(from, offset)?;
            Ok(Some(write_stack(facts, at, size, value)?))
        }
        Kind::Ctx => Err(Reason::ContextAccess),
        Kind::Value(pointer) => {
            check_in_value(named, pointer, offset, u32::from(size.bytes()))?;
            check_stored_in_map(value)?;
            Ok(None)
        }
        Kind::MaybeValue { .. } => Err(Reason::MaybeNull),
        _ => Err(Reason::NotPointer),
    }
}

/// Checks that a value is a number. The error is `reason` if it is not.
fn number_or(reason: Reason, value: Kind) -> Result<(), Reason>
    ensures { result ≡ number_or reason value }
{
    match value {
        Kind::Scalar(_) => Ok(()),
        _ => Err(reason),
    }
}

/// Updates the facts for an atomic operation on `size` bytes of the stack, at `offset` from its upper end: it loads a number, and stores
/// one that may be any. `stack_changed` defines the facts afterwards (`ok`) and the error (`refused`). Returns the index of the stack slot
/// with these bytes, the only one that may change (`stack`), for the flow that `apply` returns (`WritesSlot`). After an error no fact has
/// changed (`stays`). The error is the first that applies: the bytes are not in the stack (`OutsideStack`), or not aligned to the size
/// (`UnalignedStack`); they are some or all bytes of a spill, which is a pointer or a map, and so no number (`PartOfSpill`); one of them
/// may be unwritten (`UnwrittenStack`).
fn change_stack(facts: &mut Facts, offset: i32, size: AccessSize) -> Result<usize, Reason>
    ensures ok { OnOk result (stack_changed facts.old offset size ≡ Ok facts.new) }
    ensures stack { IfOk result (λ slot. ChangesAtMost (Some slot) facts.old facts.new) }
    ensures refused { IfErr result (λ reason. stack_changed facts.old offset size ≡ Err reason) }
    ensures stays { OnErr result (facts.new ≡ facts.old) }
{
    let old = read_stack(facts, offset, size, UNSIGNED)?;
    number_or(Reason::PartOfSpill, old)?;
    write_stack(facts, offset, size, Kind::Scalar(Range::full(BITS_64)))
}

/// Whether an offset in bytes, which may be negative, is a multiple of the number of bytes of `size`: 1, 2, 4 or 8. The offset of an atomic
/// operation in the value of a map has to be such a multiple (`is_known_multiple`). The sign makes no difference, so the absolute value is
/// tested.
fn is_multiple(offset: i64, size: AccessSize) -> bool
    ensures { result ≡ (unsigned_abs offset % bytes_of size == 0) }
{
    offset.unsigned_abs() % u64::from(size.bytes()) == 0
}

/// Whether an access, `offset` bytes from a pointer into a map's value, is known to be aligned: the pointer has only one offset in the
/// value (`lo` is `hi`), and the access begins at an offset in the value that is a multiple of the number of bytes of `size`. If not,
/// `change` rejects an atomic operation in the value (`UnalignedAtomic`).
fn is_known_multiple(pointer: ValuePointer, offset: i16, size: AccessSize) -> bool
    ensures { result ≡ is_known_multiple pointer offset size }
{
    pointer.lo == pointer.hi && is_multiple(offset_of_access(pointer.lo, offset), size)
}

/// Updates the facts for an atomic operation with an operand of the kind `value`, `offset` bytes from an address of the kind `base`.
/// `atomic_facts` defines the facts afterwards (`ok`) and the error (`refused`). The caller has tested that both kinds may be read. The
/// contract does not require this: an unreadable address is no pointer, and an unreadable operand is no number. `named` lists the objects
/// of descriptors. Returns, for the flow that `apply` returns (`flow_after_write`), the index of the stack slot with the bytes, the only
/// one that may change (`stack`); `None` in the value of a map, since no fact changes. After an error no fact has changed (`stays`). The
/// error is the first that applies. In the stack: the operand is no number (`PointerArithmetic`); the bytes are not in the stack
/// (`OutsideStack`), or not aligned to the size (`UnalignedStack`); they are some or all bytes of a spill, which is a pointer or a map, and
/// so no number (`PartOfSpill`); one may be unwritten (`UnwrittenStack`). In a map's value: the operand is no number (`PointerArithmetic`);
/// the bytes may be outside (`OutsideValue`); the offset is not known, or no multiple of the size (`UnalignedAtomic`). For other kinds of
/// `base`: `ContextAccess` for the context, `MaybeNull` for a look-up's result that may be null, else `NotPointer`.
fn change(
    facts: &mut Facts,
    named: &[Named],
    size: AtomicSize,
    offset: i16,
    base: Kind,
    value: Kind,
) -> Result<Option<usize>, Reason>
    ensures ok { OnOk result (atomic_facts (shapes_named named.now) facts.old (access_size size)
        offset base value ≡ Ok facts.new) }
    ensures stack { IfOk result (λ slot. ChangesAtMost slot facts.old facts.new) }
    ensures refused { IfErr result (λ reason. atomic_facts (shapes_named named.now) facts.old
        (access_size size) offset base value ≡ Err reason) }
    ensures stays { OnErr result (facts.new ≡ facts.old) }
{
    let access = size.access();
    match base {
        Kind::Stack(from) => {
            number_or(Reason::PointerArithmetic, value)?;
            let at = stack_offset(from, offset)?;
            Ok(Some(change_stack(facts, at, access)?))
        }
        Kind::Ctx => Err(Reason::ContextAccess),
        Kind::Value(pointer) => {
            number_or(Reason::PointerArithmetic, value)?;
            check_in_value(named, pointer, offset, u32::from(access.bytes()))?;
            if is_known_multiple(pointer, offset, access) {
                Ok(None)
            } else {
                Err(Reason::UnalignedAtomic)
            }
        }
        Kind::MaybeValue { .. } => Err(Reason::MaybeNull),
        _ => Err(Reason::NotPointer),
    }
}

/// The `Kind` of the register into which an instruction loads the map of this descriptor: `MapRef` of the descriptor. `named` lists
/// descriptors and the objects that they name. `DescriptorNotMap` if `descriptor` is not in the list, or names a program: the check of a
/// program's shape has excluded this.
fn map_of(named: &[Named], descriptor: u32) -> Result<Kind, Reason>
    ensures { result ≡ map_of descriptor (shapes_named named.now descriptor) }
{
    match shape_of(named, descriptor) {
        Some(_) => Ok(Kind::MapRef(descriptor)),
        None => Err(Reason::DescriptorNotMap),
    }
}

/// The offset of a byte in a value as a signed number, which is equal to it (`pos` makes a natural number an integer). A pointer into a
/// value has a signed offset, since it may be moved to before the value. `offset` is below `longest_value`, the length in bytes of the
/// longest value (`LONGEST_VALUE`), so the cast does not change it.
fn signed_offset(offset: u32) -> i32
    requires { offset < longest_value }
    ensures { result ≡ pos offset }
{
    offset as i32
}

/// The kind of what `MapValue`, a wide load, puts into its register: a pointer to byte `offset` of the direct value of the map that
/// `descriptor` names in `named`. Only an array with one index has a direct value: that of this index, which a program reaches without a
/// call. The pointer's offset is known, so its bounds are equal (`at` twice). `DescriptorNotMap` if the descriptor names no map,
/// `NoDirectValue` if the map has no direct value, or `offset` lies outside it.
#[tactic(auto, unfolding(crate::specs::Effects::value_of))]
fn value_of(named: &[Named], descriptor: u32, offset: u32) -> Result<Kind, Reason>
    ensures { result ≡ value_of descriptor offset (shapes_named named.now descriptor) }
{
    let Some(shape) = shape_of(named, descriptor) else {
        return Err(Reason::DescriptorNotMap);
    };
    if !shape.has_direct_value(offset) {
        return Err(Reason::NoDirectValue);
    }
    let at = signed_offset(offset);
    Ok(Kind::Value(ValuePointer::new(descriptor, at, at)))
}

/// Updates the facts for a load, from memory or of a constant, a map or an address in one: sets the kind of its destination register,
/// `dst`, to `kind`, that of the loaded value. Returns `Falls`: the falling edge is the only one after a load, which changes no stack slot.
#[inline(always)]
fn assign(facts: &mut Facts, dst: Reg, kind: Kind) -> Flow
    ensures flow { result ≡ Falls }
    ensures facts { facts.new ≡ with_kind facts.old dst kind }
{
    facts.set_kind(dst, kind);
    Flow::Falls
}

/// The flow after a store or an atomic operation: which edges lead out of it, and which stack slots it may have changed. The verifier gives
/// the group of eight stack slots with such a slot a new number, so that it leaves out no join that would change facts. The flow is
/// `WritesSlot` of `slot` if the instruction may have changed this stack slot and no other. For `None` it is `Falls`: the instruction wrote
/// into a map's value, and changed no stack slot. `edges`: by either flow only the falling edge leads out, with the facts `f` after the
/// instruction. `stack`: if the stack slots in the facts `g` after an instruction are those in the facts `f` before it, but for `slot`
/// (`ChangesAtMost`; registers may differ), the flow allows that (`KeepsStack`).
#[inline(always)]
fn flow_after_write(slot: Option<usize>) -> Flow
    ensures edges { (f : AnyFacts) → edges_of result f ≡ edges_of Falls f }
    ensures stack { (f g : AnyFacts) → ChangesAtMost slot f g → KeepsStack result f g }
{
    match slot {
        Some(slot) => Flow::WritesSlot(slot),
        None => Flow::Falls,
    }
}

/// The ranges of both operands, first that of the destination `dst`, from which `operate` computes the range of the result; `None` unless
/// both are numbers. The contract promises nothing of `None`. A constant is sign-extended to 64 bits if `wide` (an operator of 64 bits),
/// else taken modulo 2^32. The range of a register is that of all its 64 bits, also if `wide` is false.
#[inline(always)]
fn operand_ranges(facts: &Facts, wide: bool, dst: Reg, src: &Operand) -> Option<(Range, Range)>
    ensures numbers { IfSome result (λ p. (kind_at facts.now dst ≡ Scalar p.0)
        × (source_kind facts.now wide src.now ≡ Scalar p.1)) }
{
    let Kind::Scalar(a) = facts.kind(dst) else {
        return None;
    };
    match src {
        Operand::Reg(reg) => match facts.kind(*reg) {
            Kind::Scalar(b) => Some((a, b)),
            _ => None,
        },
        Operand::Imm(imm) => Some((a, Range::constant(immediate_word(wide, *imm)))),
    }
}

/// Updates the facts for an operator on the operands `dst` and `src`, of 64 bits (`wide`) or 32: `dst` gets the kind of the result, and no
/// stack slot changes (`stack`). The facts on the operator's only edge, to the next instruction (`ok`), and the error (`refused`) are those
/// of the transfer function (`operator_edges`). After an error no fact has changed (`stays`). `UnreadableRegister`: the operator reads an
/// operand that may not be read (a move does not read `dst`). `MaybeNull`: an operand of a 64-bit sum or difference may be null.
/// `OffsetTooLarge`: such a sum or difference may move a pointer to an offset of more than `FARTHEST_OFFSET` bytes from 0.
/// `PointerArithmetic`: any other use of a pointer or a map that `arithmetic` does not allow. Out of line: `operate`, which is inlined,
/// calls it only for a move of 32 bits, and for another operator with an operand that is no number.
#[inline(never)]
fn operate_on_any(
    facts: &mut Facts,
    wide: bool,
    op: AluOp,
    dst: Reg,
    src: Operand,
) -> Result<(), Reason>
    ensures ok { OnOk result (operator_edges wide op dst src facts.old ≡ falls facts.new) }
    ensures stack { OnOk result (facts.new.slots ≡ facts.old.slots) }
    ensures refused { IfErr result (λ reason. operator_edges wide op dst src facts.old
        ≡ Err reason) }
    ensures stays { OnErr result (facts.new ≡ facts.old) }
{
    let a = first_operand(op, facts.kind(dst))?;
    let b = check_readable(source(facts, wide, &src))?;
    let kind = arithmetic(wide, op, a, b)?;
    facts.set_kind(dst, kind);
    Ok(())
}

/// Updates the facts for an operator of two operands, of 64 bits (`wide`) or 32: `dst` gets the kind of the result, and no stack slot
/// changes (`stack`). The new facts, on the falling edge (`ok`), or the error (`refused`) are those of `operator_edges`; after an error no
/// fact has changed (`stays`). The error is `UnreadableRegister` if the operator reads an operand that may not be read (a move does not
/// read `dst`), else that of `arithmetic`: `MaybeNull` if an operand of a 64-bit sum or difference may be null, `OffsetTooLarge` if a
/// pointer's offset may become more than `FARTHEST_OFFSET` bytes from 0, or `PointerArithmetic` if the operator does not take an operand
/// that is no number. A 64-bit move takes an operand of any kind. A 64-bit sum or difference also takes a pointer and a number, by which it
/// moves the pointer: one into a value by any number of a range, one into the stack only by a number that is known. Inlined are only a
/// 64-bit move and, if both operands are numbers, any operator but a move, so that these need no call; `operate_on_any`, not inlined, does
/// the rest.
#[inline(always)]
fn operate(facts: &mut Facts, wide: bool, op: AluOp, dst: Reg, src: Operand) -> Result<(), Reason>
    ensures ok { OnOk result (operator_edges wide op dst src facts.old ≡ falls facts.new) }
    ensures stack { OnOk result (facts.new.slots ≡ facts.old.slots) }
    ensures refused { IfErr result (λ reason. operator_edges wide op dst src facts.old
        ≡ Err reason) }
    ensures stays { OnErr result (facts.new ≡ facts.old) }
{
    if wide && op == AluOp::Mov {
        let kind = check_readable(source(facts, wide, &src))?;
        facts.set_kind(dst, kind);
        return Ok(());
    }
    match operand_ranges(facts, wide, dst, &src) {
        Some((a, b)) if op != AluOp::Mov => {
            let kind = Kind::Scalar(result_range(wide, Operator::Binary(op), a, b));
            facts.set_kind(dst, kind);
            Ok(())
        }
        _ => operate_on_any(facts, wide, op, dst, src),
    }
}

/// Updates the facts for an operator of one operand, `src`, of 64 bits (`wide`) or 32: a sign extension, a negation or a conversion of byte
/// order. `dst` gets the kind of the result, a number in the range that `op` has for the range of `src` (`of_scalar`). After `Ok` the facts
/// are those on the falling edge, the only one (`ok`), and no stack slot has changed (`stack`). The error is that of the transfer function,
/// `unary_edges` (`refused`): `UnreadableRegister` if `src` may not be read, else `PointerArithmetic` if it is no number. After an error no
/// fact has changed (`stays`).
#[inline(always)]
fn operate_on_one(
    facts: &mut Facts,
    wide: bool,
    op: Operator,
    dst: Reg,
    src: Reg,
) -> Result<(), Reason>
    ensures ok { OnOk result (unary_edges wide op dst src facts.old ≡ falls facts.new) }
    ensures stack { OnOk result (facts.new.slots ≡ facts.old.slots) }
    ensures refused { IfErr result (λ reason. unary_edges wide op dst src facts.old ≡ Err reason) }
    ensures stays { OnErr result (facts.new ≡ facts.old) }
{
    let from = check_readable(facts.kind(src))?;
    let kind = of_scalar(wide, op, from)?;
    facts.set_kind(dst, kind);
    Ok(())
}

/// Checks the result at the end of a run, which register 0 has. After `Ok` the exit may be run, and no edge leads out of it (`ok`). The
/// error is that of the definition (`refused`): `UnreadableRegister` if register 0 may not be read, `ResultNotScalar` if it is no number.
fn exit(facts: &Facts) -> Result<(), Reason>
    ensures ok { OnOk result (exit_edges facts.now ≡ ends) }
    ensures refused { IfErr result (λ reason. exit_edges facts.now ≡ Err reason) }
{
    match check_readable(facts.kind(Reg::new(0)))? {
        Kind::Scalar(_) => Ok(()),
        _ => Err(Reason::ResultNotScalar),
    }
}

/// Applies the transfer function of `insn`, the instruction at slot `slot` of the program: `facts`, those before the instruction, become
/// those that hold on each edge out of the instruction. Returns a `Flow`: which edges control may take, and what holds on only one of them,
/// for example the ranges after a comparison. By `ok` these edges with their facts (`edges_of`) are those of the definition (`effect`). Of
/// the stack slots in `facts`, a flow `WritesSlot` names the only one that may have changed; after `Writes` any may have, after other flows
/// none has (`stack`). By this `verifier` gives new numbers to the groups of eight stack slots that may have changed in `facts`; for
/// `Settles`, a null test, it gives them to all groups on each edge (`NumberedFacts`). `named` lists the open descriptors with their
/// objects.
///
/// # Errors
///
/// Why the instruction may not be run: the first of its conditions that fails, in the order of the definition of `effect` (`refused`). Then
/// `facts` are unchanged (`stays`).
#[inline(always)]
pub fn apply(facts: &mut Facts, named: &[Named], slot: usize, insn: &Insn) -> Result<Flow, Reason>
    ensures ok { IfOk result (λ flow. effect (shapes_named named.now) slot insn.now facts.old
        ≡ Ok (edges_of flow facts.new)) }
    ensures refused { IfErr result (λ reason. effect (shapes_named named.now) slot insn.now
        facts.old ≡ Err reason) }
    ensures stack { IfOk result (λ flow. KeepsStack flow facts.old facts.new) }
    ensures stays { OnErr result (facts.new ≡ facts.old) }
{
    match *insn {
        Insn::Alu { wide, op, dst, src } => {
            operate(facts, wide, op, dst, src)?;
            Ok(Flow::Falls)
        }
        Insn::Movsx(
            Movsx {
                wide,
                bits,
                dst,
                src,
            },
        ) => {
            operate_on_one(facts, wide, Operator::SignExtend { from: bits }, dst, src)?;
            Ok(Flow::Falls)
        }
        Insn::Neg { wide, dst } => {
            operate_on_one(facts, wide, Operator::Neg, dst, dst)?;
            Ok(Flow::Falls)
        }
        Insn::End { how, bits, dst } => {
            operate_on_one(facts, BITS_64, Operator::End { how, bits }, dst, dst)?;
            Ok(Flow::Falls)
        }
        Insn::Ja { .. } | Insn::Jal { .. } => Ok(Flow::Jumps),
        Insn::Jump {
            wide,
            cond,
            dst,
            src,
            ..
        } => {
            let a = check_readable(facts.kind(dst))?;
            let b = check_readable(source(facts, wide, &src))?;
            branch(wide, cond, dst, src, a, b)
        }
        Insn::Call { id } => {
            let helper = known_helper(id).ok_or(Reason::UnknownHelper)?;
            call(facts, named, slot, helper)?;
            Ok(Flow::Writes)
        }
        Insn::Exit => {
            exit(facts)?;
            Ok(Flow::Ends)
        }
        Insn::Load(
            Load {
                size,
                signed,
                dst,
                src,
                off,
            },
        ) => {
            let base = check_readable(facts.kind(src))?;
            let kind = load(facts, named, size, signed, off, base)?;
            Ok(assign(facts, dst, kind))
        }
        Insn::Store {
            size,
            dst,
            src,
            off,
        } => {
            let base = check_readable(facts.kind(dst))?;
            let value = check_readable(source(facts, BITS_64, &src))?;
            Ok(flow_after_write(store(facts, named, size, off, base, value)?))
        }
        Insn::Atomic {
            size,
            dst,
            src,
            off,
            ..
        } => {
            let base = check_readable(facts.kind(dst))?;
            let value = check_readable(facts.kind(src))?;
            Ok(flow_after_write(change(facts, named, size, off, base, value)?))
        }
        Insn::Const { dst, value } => Ok(assign(facts, dst, Kind::Scalar(Range::constant(value)))),
        Insn::MapFd { dst, fd } => {
            let map = map_of(named, fd.cast_unsigned())?;
            Ok(assign(facts, dst, map))
        }
        Insn::MapValue { dst, fd, off } => {
            let pointer = value_of(named, fd.cast_unsigned(), off)?;
            Ok(assign(facts, dst, pointer))
        }
    }
}
