//! The disassembler: programs to text. Its functions fail only if out of memory, and then the text may have only the start of what they
//! append.

ghost use Rattle.std.specs.Prelude.{◌≡◌, ◌++◌, [], true, false, Some, IfOk, OnOk};
ghost use Rattle.std.specs.Fmt.{decimal};
ghost use Rattle.std.specs.String.{string_bytes};
ghost use Rattle.text_line.specs.Names.{register_name, sign_name};
ghost use Rattle.text_line.specs.Token.{number};
ghost use Rattle.text_line.specs.Form.{operand_layout, constant as constant_layout};
ghost use Rattle.text_line.specs.Written.{number_of, source_of, piece, laid_out, printed_insn};
ghost use Rattle.bpf_text.specs.Assembly.{IsAssembled};
ghost use Rattle.bpf_text.specs.Printed.{printed};

use crate::laws;
use insn_codec::{
    AccessSize, AluOp, AtomicOp, AtomicSize, Condition, Insn, Load, Movsx, Operand, Program, Reg,
};
use insn_set::{alu_symbol, condition_symbol, extension_name, order_name, size_name};
use std::alloc::{AllocError, Global};
use std::fmt::Write;
use words::{BITS_64, UNSIGNED};

// ---- names

/// The name of a register's 64 bits, `r0` to `r10`: in the contract `true` selects the letter `r`, not the `w` of the low 32. The last arm
/// is 10, the highest register.
fn wide_name(reg: Reg) -> &'static str
    ensures { result.now ≡ register_name true reg }
{
    match reg.number() {
        0 => "r0",
        1 => "r1",
        2 => "r2",
        3 => "r3",
        4 => "r4",
        5 => "r5",
        6 => "r6",
        7 => "r7",
        8 => "r8",
        9 => "r9",
        _ => "r10",
    }
}

/// The name of a register's low 32 bits, as `w3`; the contract has `false` for the low bits. The last arm is 10, the highest register.
fn half_name(reg: Reg) -> &'static str
    ensures { result.now ≡ register_name false reg }
{
    match reg.number() {
        0 => "w0",
        1 => "w1",
        2 => "w2",
        3 => "w3",
        4 => "w4",
        5 => "w5",
        6 => "w6",
        7 => "w7",
        8 => "w8",
        9 => "w9",
        _ => "w10",
    }
}

/// The name of a register in a line of text: `r0` to `r10` for its 64 bits if `wide`, else `w0` to `w10` for its low 32.
fn register_name(wide: bool, reg: Reg) -> &'static str
    ensures { result.now ≡ register_name wide reg }
{
    if wide { wide_name(reg) } else { half_name(reg) }
}

// ---- numbers and operands

/// Appends a constant (an immediate, a descriptor, or the number of a helper) in decimal, with a minus before the digits if it is negative.
/// The contract: these are the bytes that the grammar of a line has for the number (`constant_layout`), with nothing after it (`[]`).
fn write_constant(text: &mut String, n: i32) -> Result<(), AllocError>
    ensures { OnOk result (string_bytes text.new ≡ string_bytes text.old
        ++ laid_out (constant_layout (number_of n) [])) }
{
    write!(text, "{n}")
}

/// The sign of a number as text, `-` if it is negative, else `+` (`sign`), and its magnitude, the number without its sign, up to 2^31. The
/// distance of a jump and the offset of an address are written with a sign always, as in `goto +2` and `(r10 - 8)`. In the contract
/// `number_of n` has both for `n`. `digits`: the second result in decimal digits is what a line has for the magnitude. A line is printed
/// from a list of tokens (`Some`) and single spaces (`None`); `piece` gives the bytes of one of these, here of the magnitude's token
/// (`number`).
fn signed_parts(n: i32) -> (&'static str, u32)
    ensures sign { result.0.now ≡ sign_name (number_of n).negative }
    ensures digits { decimal result.1 ≡ piece (Some (number (number_of n).magnitude)) }
{
    let sign = if n < 0 { "-" } else { "+" };
    (sign, n.unsigned_abs())
}

/// Appends `src`, the second operand of an instruction, as its line has it: a constant in decimal, or the name of a register. If `wide`,
/// that is the name of its 64 bits, as `r1`, else that of the low 32, as `w1`. By the contract the text gets the bytes (`laid_out`) of the
/// operand's tokens (`operand_layout`), and of no token after them (`[]`).
fn write_operand(text: &mut String, wide: bool, src: Operand) -> Result<(), AllocError>
    ensures { OnOk result (string_bytes text.new ≡ string_bytes text.old
        ++ laid_out (operand_layout wide (source_of src) [])) }
{
    match src {
        Operand::Imm(n) => write_constant(text, n),
        Operand::Reg(reg) => text.push_str(register_name(wide, reg)),
    }
}

// ---- lines of instructions

/// Appends the line of an operation with the operands `dst` and `src`, as `r1 += r2`, or of a move of `src` to `dst`, as `r1 = 5`, without
/// a line feed (`printed_insn`). `src` is a register or a constant. The operation is of 64 bits if `wide`; else of the low 32, and
/// registers have the names of their low halves, as `w1`.
#[tactic(auto, unfolding(text_line::specs::Written::printed_insn))]
fn write_alu(
    text: &mut String,
    wide: bool,
    op: AluOp,
    dst: Reg,
    src: Operand,
) -> Result<(), AllocError>
    ensures { OnOk result (string_bytes text.new ≡ string_bytes text.old
        ++ printed_insn (Insn.Alu wide op dst src)) }
{
    let (dst, op) = (register_name(wide, dst), alu_symbol(op));
    write!(text, "{dst} {op} ")?;
    write_operand(text, wide, src)
}

/// Appends the line of a move with sign extension, without a line feed, as `r1 = (s16)r2`. The name in parentheses has the number of low
/// bits whose sign is extended: `s8`, `s16` or `s32`. If the move has 32 bits (not `wide`), both registers have the names of their low
/// halves, as `w1`.
#[tactic(auto, unfolding(text_line::specs::Written::printed_insn))]
fn write_movsx(text: &mut String, movsx: &Movsx) -> Result<(), AllocError>
    ensures { OnOk result (string_bytes text.new ≡ string_bytes text.old
        ++ printed_insn (Insn.Movsx movsx.now)) }
{
    let Movsx {
        wide,
        bits,
        dst,
        src,
    } = *movsx;
    let (dst, bits, src) = (
        register_name(wide, dst),
        extension_name(bits),
        register_name(wide, src),
    );
    write!(text, "{dst} = ({bits}){src}")
}

/// Appends the line of a conditional jump, without a line feed, as `if r1 == 0 goto +2`. The jump compares register `dst` with `src`, a
/// register or a constant. It compares 64 bits if `wide`; else the low 32, and the registers have the names of their low halves, as `w1`.
/// `off` is the distance to the target in slots, from the next slot.
#[tactic(auto, unfolding(text_line::specs::Written::printed_insn))]
fn write_jump(
    text: &mut String,
    wide: bool,
    cond: Condition,
    dst: Reg,
    src: Operand,
    off: i16,
) -> Result<(), AllocError>
    ensures { OnOk result (string_bytes text.new ≡ string_bytes text.old
        ++ printed_insn (Insn.Jump wide cond dst src off)) }
{
    let (dst, cond) = (register_name(wide, dst), condition_symbol(cond));
    let (sign, slots) = signed_parts(i32::from(off));
    write!(text, "if {dst} {cond} ")?;
    write_operand(text, wide, src)?;
    write!(text, " goto {sign}{slots}")
}

/// Appends the line of a load, without a line feed: `DST = *(SIZE *)(BASE SIGN OFFSET)`, as `r1 = *(s16 *)(r2 - 4)`. SIZE is the type of
/// the number in memory, `u8` to `u64`, or `s8` to `s32` if its sign is extended (`signed`). DST and BASE are the registers `dst` and
/// `src`, and SIGN and OFFSET the sign and the magnitude of `off`. In the contract, `printed_insn` is this line.
#[tactic(auto, unfolding(text_line::specs::Written::printed_insn))]
fn write_load(text: &mut String, load: &Load) -> Result<(), AllocError>
    ensures { OnOk result (string_bytes text.new ≡ string_bytes text.old
        ++ printed_insn (Insn.Load load.now)) }
{
    let Load {
        size,
        signed,
        dst,
        src,
        off,
    } = *load;
    let (dst, size, base) = (wide_name(dst), size_name(signed, size), wide_name(src));
    let (sign, offset) = signed_parts(i32::from(off));
    write!(text, "{dst} = *({size} *)({base} {sign} {offset})")
}

/// Appends the line of a store, `*(SIZE *)(BASE SIGN OFFSET) = VALUE`, without a line feed. SIZE is the unsigned type of `size`, `u8` to
/// `u64`. BASE is the register `dst`, and SIGN and OFFSET are the sign and the magnitude of `off`. VALUE is `src`: a constant, or a
/// register by the name of its 64 bits, as `r1`, also if fewer bits are stored.
#[tactic(auto, unfolding(text_line::specs::Written::printed_insn))]
fn write_store(
    text: &mut String,
    size: AccessSize,
    dst: Reg,
    src: Operand,
    off: i16,
) -> Result<(), AllocError>
    ensures { OnOk result (string_bytes text.new ≡ string_bytes text.old
        ++ printed_insn (Insn.Store size dst src off)) }
{
    let (size, base) = (size_name(UNSIGNED, size), wide_name(dst));
    let (sign, offset) = signed_parts(i32::from(off));
    write!(text, "*({size} *)({base} {sign} {offset}) = ")?;
    write_operand(text, BITS_64, src)
}

/// Appends the line of the atomic operation `op` with register `src`, on `size` bytes at the address in register `dst` plus `off`, without
/// a line feed: `lock *(SIZE *)(BASE SIGN OFFSET) OP SRC`, as `lock *(u64 *)(r10 - 8) += r1`. SIZE is the unsigned type of `size`, `u32` or
/// `u64`. BASE is the register `dst`, and SIGN and OFFSET are the sign and the magnitude of `off`. OP is `+=`, `|=`, `&=` or `^=`. Both
/// registers have their names of 64 bits, also for an operation on four bytes. In the contract, `printed_insn` is this line.
#[tactic(auto, unfolding(text_line::specs::Written::printed_insn))]
fn write_atomic(
    text: &mut String,
    size: AtomicSize,
    op: AtomicOp,
    dst: Reg,
    src: Reg,
    off: i16,
) -> Result<(), AllocError>
    ensures { OnOk result (string_bytes text.new ≡ string_bytes text.old
        ++ printed_insn (Insn.Atomic size op dst src off)) }
{
    let (size, base) = (size_name(UNSIGNED, size.access()), wide_name(dst));
    let (sign, offset) = signed_parts(i32::from(off));
    let (op, src) = (op.symbol(), wide_name(src));
    write!(text, "lock *({size} *)({base} {sign} {offset}) {op} {src}")
}

/// Appends the line, without a line feed, of a wide load of the map with descriptor `fd` into register `dst`, as `r1 = map_fd 3 ll`. The
/// descriptor is the signed immediate of the first slot. Decoding does not check it, so `fd` may be negative, and then has a minus.
#[tactic(auto, using(crate::proofs::Printing::laid_out_constant), unfolding(text_line::specs::Written::printed_insn))]
fn write_map_fd(text: &mut String, dst: Reg, fd: i32) -> Result<(), AllocError>
    ensures { OnOk result (string_bytes text.new ≡ string_bytes text.old
        ++ printed_insn (Insn.MapFd dst fd)) }
{
    let dst = wide_name(dst);
    write!(text, "{dst} = map_fd ")?;
    write_constant(text, fd)?;
    text.push_str(" ll")
}

/// Appends the line, without a line feed, of a load into `dst` of an address: that of the first value of the map with descriptor `fd`, plus
/// `off` bytes. An example is `r1 = map_value 3 + 8 ll`. Decoding does not check the descriptor, so `fd` may be negative, and then has a
/// minus. `AllocError`: out of memory; the first bytes of the line may have been appended then.
fn write_map_value(text: &mut String, dst: Reg, fd: i32, off: u32) -> Result<(), AllocError>
    ensures { OnOk result (string_bytes text.new ≡ string_bytes text.old
        ++ printed_insn (Insn.MapValue dst fd off)) }
{
    let dst = wide_name(dst);
    write!(text, "{dst} = map_value ")?;
    write_constant(text, fd)?;
    write!(text, " + {off} ll")
}

/// Appends the line of an instruction to `text`, without a line feed.
///
/// # Errors
///
/// `AllocError`: out of memory. The first bytes of the line may have been appended then.
#[tactic(auto, unfolding(text_line::specs::Written::printed_insn))]
pub fn write_insn(text: &mut String, insn: &Insn) -> Result<(), AllocError>
    ensures { OnOk result (string_bytes text.new ≡ string_bytes text.old ++ printed_insn insn.now) }
{
    match *insn {
        Insn::Alu { wide, op, dst, src } => write_alu(text, wide, op, dst, src),
        Insn::Movsx(ref movsx) => write_movsx(text, movsx),
        Insn::Neg { wide, dst } => {
            let dst = register_name(wide, dst);
            write!(text, "{dst} = -{dst}")
        }
        Insn::End { how, bits, dst } => {
            let (dst, order) = (wide_name(dst), order_name(how, bits));
            write!(text, "{dst} = {order} {dst}")
        }
        Insn::Ja { off } => {
            let (sign, slots) = signed_parts(i32::from(off));
            write!(text, "goto {sign}{slots}")
        }
        Insn::Jal { off } => {
            let (sign, slots) = signed_parts(off);
            write!(text, "gotol {sign}{slots}")
        }
        Insn::Jump {
            wide,
            cond,
            dst,
            src,
            off,
        } => write_jump(text, wide, cond, dst, src, off),
        Insn::Call { id } => {
            text.push_str("call ")?;
            write_constant(text, id)
        }
        Insn::Exit => text.push_str("exit"),
        Insn::Load(ref load) => write_load(text, load),
        Insn::Store {
            size,
            dst,
            src,
            off,
        } => write_store(text, size, dst, src, off),
        Insn::Atomic {
            size,
            op,
            dst,
            src,
            off,
        } => write_atomic(text, size, op, dst, src, off),
        Insn::Const { dst, value } => {
            let dst = wide_name(dst);
            write!(text, "{dst} = {value} ll")
        }
        Insn::MapFd { dst, fd } => write_map_fd(text, dst, fd),
        Insn::MapValue { dst, fd, off } => write_map_value(text, dst, fd, off),
    }
}

/// The text of a program: an instruction on each line, numbers in decimal. A jump names its target by a signed number of slots, not by a
/// label. The second slot of a wide instruction has no line.
///
/// # Errors
///
/// `AllocError`: out of memory.
pub fn disassemble(alloc: Global, program: &Program) -> Result<String, AllocError>
    ensures text { IfOk result (λ text. string_bytes text ≡ printed program.now) }
    // The text assembles to the program.
    ensures program { IfOk result (λ text. IsAssembled (string_bytes text) program.now) }
{
    // Two laws, which do nothing when they run: the loop meets the program's instructions in order, and the printed text assembles
    // to the program.
    program.insns_in_order();
    laws::printed_text_is_assembled();
    let mut text = String::new(alloc);
    for slot in 0..program.code().len() {
        if let Some(insn) = program.get(slot) {
            write_insn(&mut text, insn)?;
            text.push_str("\n")?;
        }
    }
    Ok(text)
}
