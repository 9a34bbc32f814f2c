//! Known answers of the public calls, proved only from their contracts. Nothing outside of this file calls these functions.

ghost use Rattle.std.specs.Prelude.{◌≡◌, Some};
ghost use Rattle.insn_codec.specs.Fault.{HasFault};
ghost use Rattle.insn_codec.specs.declared.fault.FaultKind.{FaultKind as AnyKind};

use crate::{
    CodecFault, FaultKind, Insn, Program, Reg, decode, encode, read_program, write_program,
};
use std::alloc::Global;

/// A wide load of the number `value` into register 2, an example of an instruction with two slots.
fn wide(value: u64) -> Insn
    ensures { result ≡ Insn.Const 2 value }
{
    let dst = Reg::new(2);
    Insn::Const { dst, value }
}

/// A test of the contract of `FaultKind::number`, never called: each `prove!` has to follow from the contract. The first kind of fault,
/// `Opcode`, has number 1, and the last one, `Memory`, number 8. A refusal of slots for a fault gives 100 more than the number of its kind
/// as reason (`Cause::number` of `verifier`). For `Memory` there is no refusal: out of memory is an error of its own.
fn kinds_of_faults() {
    let (first, last) = (FaultKind::Opcode.number(), FaultKind::Memory.number());
    prove!(first == 1);
    prove!(last == 8);
}

/// A test of the contract of `encode`, never called: each `prove!` has to follow from the contract. `encode` spells the exit, opcode 0x95,
/// in 8 bytes, and leaves the byte after them unchanged. It spells a wide load of 0xffff_ffff_0000_0007 in 16 bytes: the low half of the
/// number begins at byte 4, and the high half ends at byte 15.
#[tactic(auto, unfolding(insn_set::specs::Spelling::spelling))]
fn written_instructions() {
    let mut out = [0x55; 16];
    let length = encode(&Insn::Exit, &mut out);
    prove!(length == 8);
    prove!(out[0] == 0x95);
    prove!(out[8] == 0x55);
    let length = encode(&wide(18446744069414584327), &mut out);
    prove!(length == 16);
    prove!(out[4] == 7);
    prove!(out[15] == 0xff);
}

/// A test of the contract of `decode`, never called: `decode` reads the eight bytes of an exit, opcode 0x95 and seven zeros, as the exit,
/// an instruction of 1 slot.
fn exit_is_decoded() {
    let found = decode(&[0x95, 0, 0, 0, 0, 0, 0, 0]);
    let is_exit = found == Ok((Insn::Exit, 1));
    prove!(is_exit);
}

/// The kind of the fault for which `decode` rejects the bytes; `None` if they begin with an instruction. By the contract, if the bytes have
/// a fault at the front (`HasFault`), the result is its kind: so `faults_at_front` can prove the kinds of three faults.
fn fault_kind_at_front(bytes: &[u8]) -> Option<FaultKind>
    ensures { (kind : AnyKind) → HasFault bytes.now kind → result ≡ Some kind }
{
    match decode(bytes) {
        Ok(_) => None,
        Err(fault) => Some(fault.kind),
    }
}

/// A test of the contract of `decode`, never called: each `prove!` has to follow from that of `fault_kind_at_front`, which returns the kind
/// of the fault for which `decode` rejects the bytes. The front is the first one or two slots, which should spell an instruction. The fault
/// of an exit with an immediate other than 0 is `Reserved`, that of a move to register 11 is `Register`, and that of the first slot of a
/// wide load with no slot after it is `SecondSlot`.
fn faults_at_front() {
    let number_in_exit = fault_kind_at_front(&[0x95, 0, 0, 0, 1, 0, 0, 0]);
    let is_reserved = number_in_exit == Some(FaultKind::Reserved);
    prove!(is_reserved);
    let register_eleven = fault_kind_at_front(&[0xb7, 0x0b, 0, 0, 0, 0, 0, 0]);
    let is_register = register_eleven == Some(FaultKind::Register);
    prove!(is_register);
    let half_a_load = fault_kind_at_front(&[0x18, 0, 0, 0, 0, 0, 0, 0]);
    let is_second_slot = half_a_load == Some(FaultKind::SecondSlot);
    prove!(is_second_slot);
}

/// A test of contracts of `Program`, never called: each `prove!` has to follow from them. In a program of a wide load, of the number 7, and
/// an exit, instructions begin at slots 0 and 2, and none at slot 1, the second of the load, or at 3, the end (`is_first`). So `get`
/// returns `None` for slot 1, and an instruction for slot 2. If the function ran, it would fail only if memory is refused.
#[tactic(auto, unfolding(insn_set::specs::Program::begins_at))]
fn first_slots_of_a_program(alloc: Global) -> Result<(), CodecFault> {
    let program = Program::new(alloc, &[wide(7), Insn::Exit])?;
    let slots = program.slots();
    prove!(slots == 3);
    let (first, second) = (program.is_first(0), program.is_first(1));
    prove!(first && !second);
    let (third, end) = (program.is_first(2), program.is_first(3));
    prove!(third && !end);
    let (nothing, something) = (program.get(1).is_none(), program.get(2).is_some());
    prove!(nothing && something);
    Ok(())
}

/// A known result, proved from the contracts of `Program::new` and `run_slots`: the slots for runs of a program of a wide load of
/// 0x7_0000_0009 into register 2 and the exit are three. In the first one the byte of registers has the destination, 2, and the immediate
/// the low half of the number, 9; the immediate of the second one is the high half, 7. Nothing calls this function; if it ran, it would
/// fail only if memory is refused.
fn spelled_program(alloc: Global) -> Result<(), CodecFault> {
    let program = Program::new(alloc, &[wide(0x7_0000_0009), Insn::Exit])?;
    let run_slots = program.run_slots();
    prove!(run_slots.len() == 3);
    prove!(run_slots[0].registers == 2);
    prove!(run_slots[0].imm == 9);
    prove!(run_slots[1].imm == 7);
    Ok(())
}

/// Proves from the contract of `read_program` that the eight bytes of an exit are read as a program of one slot, unless memory is refused.
/// Nothing calls this function.
fn read_program_of_an_exit(alloc: Global) -> Result<(), CodecFault> {
    let program = read_program(alloc, &[0x95, 0, 0, 0, 0, 0, 0, 0])?;
    let slots = program.slots();
    prove!(slots == 1);
    Ok(())
}

/// Proves from the contract of `write_program` that the spelling of a program of a wide load and an exit has 24 bytes, and that byte 16,
/// counted from 0, is the opcode of the exit, 0x95. Nothing calls this function; if it ran, it would fail only if memory is refused.
#[tactic(auto, unfolding(insn_set::specs::Spelling::spelling))]
fn written_program(alloc: Global) -> Result<(), CodecFault> {
    let program = Program::new(alloc, &[wide(7), Insn::Exit])?;
    let bytes = write_program(alloc, &program)?;
    let length = bytes.len();
    prove!(length == 24);
    prove!(bytes[16] == 0x95);
    Ok(())
}
