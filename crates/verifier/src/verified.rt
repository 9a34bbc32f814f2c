//! Accepted programs.

ghost use Rattle.std.specs.Prelude.{◌≡◌, ◌≢◌, ℕ, ◌*◌, ◌≤◌, List, length, None, Ok, Err, IfErr, IfOk, OnOk};
ghost use Rattle.insn_codec.specs.ProgramFault.{length_fault};
ghost use Rattle.tagged_model.specs.declared.value.Outcome.TheVariants.{Fault};
ghost use Rattle.tagged_model.specs.Step.{MapsByDescriptor, result_of};
ghost use Rattle.verifier.specs.Cost.{IsCostOf};
ghost use Rattle.verifier.specs.Judgement.{Judges};
ghost use Rattle.verifier.specs.Maps.{maps_of, objects_at};
ghost use Rattle.verifier.specs.Runs.{RunsArePaths, RunsCostAtMost};
ghost use Rattle.verifier.specs.Sound.{AreRunInputs};
ghost use Rattle.verifier.specs.Seen.{SeesRefused, SeesAll};
ghost use Rattle.verifier.specs.Verdict.{IsAccepted, IsFaultOf};
ghost use Rattle.verifier.specs.Verified.{IsAcceptedAs, IsVerified, GoesAhead, shapes_in};

use crate::cost::Cost;
use crate::fault::VerifyFault;
use crate::judging::{Findings, judge};
use crate::laws;
use crate::refusal::Refusal;
use crate::watcher::{Unwatched, Watcher};
use crate::working_memory::WorkingMemory;
use insn_codec::{FaultKind, Program, read_program};
use reg_kinds::Reason;
use std::alloc::{AllocError, Global};
use std::marker::Model;
use tagged_model::Named;

/// An accepted program: no run of it faults.
///
/// Contracts see the list of its instructions, and the objects that its descriptors named when it was accepted.
#[derive(Debug, Drop)]
pub struct Verified {
    pub(crate) program: Program,
    /// Its maps, and what it costs.
    pub(crate) found: Findings,
}

impl Model for Verified {
    ghost use Rattle.verifier.specs.Verified.{Accepted};
    ghost use Rattle.verifier.specs.inside.Kept.{IsWholeProgram, as_accepted};

    ghost Value = { Accepted };

    ghost view = { as_accepted };

    ghost invariant = { IsWholeProgram };
}

impl Verified {
    /// The program that was verified: its instructions (`value`), which a save writes, and its slots, which a run reads. By `verified` it
    /// was accepted with the objects that are kept with it (`objects`), whatever its descriptors name at present. This holds of each
    /// `Verified`.
    pub fn program(&self) -> &Program
        ensures value { result.now ≡ self.now.code }
        ensures verified { IsVerified self.now }
    {
        &self.program
    }

    /// The descriptors of the program's maps, each once, in the order of the first instructions that name them: the maps that the program
    /// loads, or of whose values it loads an address (`maps_of`). A run binds a map to each of them.
    pub fn maps(&self) -> &[u32]
        ensures { result.now ≡ maps_of self.now.code }
    {
        &self.found.maps
    }

    /// What the program costs (`most`): the most instructions on a path from slot 0 to an exit, and the most calls of helpers on such a
    /// path, perhaps another one. By `runs` no run on maps of the shapes with which the program was accepted executes more instructions or
    /// calls.
    pub fn cost(&self) -> Cost
        ensures most { IsCostOf result self.now.code }
        ensures runs { RunsCostAtMost result (shapes_in self.now) self.now.code }
    {
        self.runs_are_paths();
        self.found.cost
    }

    /// A law: on maps of the shapes with which the program was accepted, a context and a packet (`AreRunInputs`), each run executes the
    /// instructions of a path from slot 0 to an exit, one in each step. So no run executes more instructions or calls than `cost`, the most
    /// on such a path. The function does nothing when it is called.
    pub fn runs_are_paths(&self)
        ensures { RunsArePaths (shapes_in self.now) self.now.code }
    {
        // By the contract of `code` the instructions are a program (`IsProgram`).
        self.program.code();
        laws::accepted_runs_are_paths();
    }

    /// A law: no run of the program faults, that is, its outcome on tagged values (`result_of`) is never `Fault`. The run is given, for
    /// each descriptor of its maps, a map of the shape with which the program was accepted, the eleven words of a context, and a packet
    /// (`AreRunInputs`). `flat_machine` needs the law, as it runs the program without bounds checks. The function does nothing when it is
    /// called.
    pub fn never_faults(&self)
        ensures { (maps : MapsByDescriptor) (words packet : List ℕ)
            → AreRunInputs (shapes_in self.now) maps words packet
            → result_of self.now.code maps words packet ≢ Fault }
    {
        // By the contract of `code` the instructions are a program (`IsProgram`).
        self.program.code();
        laws::accepted_programs_never_fault();
    }

    /// A law: each edge out of an instruction of the program leads to another instruction of the program, at a later slot (`GoesAhead`).
    /// The edges are that to the next instruction, unless the instruction is an exit or always jumps, and that to the target of a jump. By
    /// this law the loop of a run (`flat_machine`) needs no counter and no bounds check of slots, and terminates because fewer slots are
    /// left. The function does nothing when it is called.
    pub fn goes_ahead(&self)
        ensures { GoesAhead self.now.code }
    {
        // By the contract of `code` the instructions are a program (`IsProgram`).
        self.program.code();
    }
}

/// Verifies a program that the caller keeps, as worked cases do. If it is accepted, the result has a copy of the program, and of `named`
/// the objects of its maps (`accepted`). `named` lists the open descriptors and the objects that they name; if it has a descriptor twice,
/// the first object counts. A load calls `verify_slots`, which reads the program from slots and does not copy it. The log calls
/// `verify_watched`, which returns no `Verified`.
///
/// # Errors
///
/// `refused`: the slot and the reason of the first fault of the program's shape, in the order of slots; if there is none, of the first
/// instruction that may not be run with the facts before it. If the instruction at that slot breaks several rules, the reason is that of
/// the first of them, in the order of the definitions (`shape_reason` for the shape, else `effect`). `Memory` at slot 0 if out of memory
/// for the verdict, for the lists of the program's maps or for the copy.
pub fn verify(alloc: Global, program: &Program, named: &[Named]) -> Result<Verified, VerifyFault>
    ensures accepted { IfOk result (IsAcceptedAs program.now named.now) }
    ensures refused { IfErr result (IsFaultOf program.now named.now) }
{
    let mut working = WorkingMemory::new(alloc);
    let found = judge(alloc, program, named, &mut Unwatched, &mut working)?;
    let program = program.clone()?;
    Ok(Verified { program, found })
}

/// Verifies the program that the bytes `slots`, eight for each slot, spell. `named` lists the open descriptors and the objects that they
/// name. The result is the accepted program (`accepted`), or else a `Refusal`: why, and because of which slot, the slots are rejected
/// (`refused`). Either they are no program, or it breaks a rule. The program that is read from the slots is moved into the result and not
/// copied. With it the result has those items of `named` that are for the descriptors of the program's maps (`objects`). `working` is
/// memory to work in, which the next call can use again; its contents mean nothing. Not inlined: the library calls it from two functions.
///
/// # Errors
///
/// `AllocError`: out of memory for the program or for the verdict.
#[inline(never)]
pub fn verify_slots(
    alloc: Global,
    slots: &[u8],
    named: &[Named],
    working: &mut WorkingMemory,
) -> Result<Result<Verified, Refusal>, AllocError>
    ensures accepted { IfOk result (λ verdict. IfOk verdict (λ program.
        Judges named.now slots.now (Ok program.code))) }
    ensures refused { IfOk result (λ verdict. IfErr verdict (λ refusal.
        Judges named.now slots.now (Err refusal))) }
    ensures objects { IfOk result (λ verdict. IfOk verdict (λ program.
        program.objects ≡ objects_at (maps_of program.code) named.now)) }
    // Memory is refused only if a program may have this number of bytes (`length_fault`).
    ensures memory { IfErr result (λ _. length_fault (length slots.now) ≡ None) }
    // The slot that a refusal names is one of `slots`, or the number after the last one.
    ensures slot { IfOk result (λ verdict. IfErr verdict (λ refusal.
        8 * refusal.slot ≤ length slots.now)) }
{
    insn_codec::laws::at_most_one_fault();
    let program = match read_program(alloc, slots) {
        Ok(program) => program,
        Err(fault) if fault.kind == FaultKind::Memory => return Err(AllocError),
        Err(fault) => return Ok(Err(Refusal::from(fault))),
    };
    match judge(alloc, &program, named, &mut Unwatched, working) {
        Ok(found) => Ok(Ok(Verified { program, found })),
        Err(fault) if fault.reason == Reason::Memory => Err(AllocError),
        Err(fault) => Ok(Err(Refusal::from(fault))),
    }
}

/// Verifies a program for the log. `named` lists the open descriptors and the objects that they name. For each instruction that a run may
/// reach, `watcher` receives the slot and the facts before the instruction, once and in the order of the slots (`seen`). `W.seen` is the
/// list of the slots and facts that a watcher has received, or `None` if it does not say which. The result is only the program's cost
/// (`cost`); unlike `verify`, the function copies nothing of the program. If the program is rejected for its safety, the last slot that is
/// passed to `watcher` is that of the fault; if for its shape, none is passed (`seen_refused`).
///
/// # Errors
///
/// `refused`: the slot and the reason of the first fault of the program's shape; if there is none, of its safety: of the first instruction
/// that may not be run with the facts before it. If several reasons apply at that slot, it is the first. `Memory` at slot 0 if out of
/// memory, also if the watcher is. Then the watcher has received the facts before the instructions below some slot, and no others.
pub fn verify_watched<W: Watcher>(
    alloc: Global,
    program: &Program,
    named: &[Named],
    watcher: &mut W,
) -> Result<Cost, VerifyFault>
    ensures accepted { OnOk result (IsAccepted program.now named.now) }
    ensures cost { IfOk result (λ cost. IsCostOf cost program.now) }
    ensures refused { IfErr result (IsFaultOf program.now named.now) }
    ensures seen { OnOk result
        (SeesAll program.now named.now (W.seen watcher.old) (W.seen watcher.new)) }
    ensures seen_refused { IfErr result
        (SeesRefused program.now named.now (W.seen watcher.old) (W.seen watcher.new)) }
{
    let mut working = WorkingMemory::new(alloc);
    let found = judge(alloc, program, named, watcher, &mut working)?;
    Ok(found.cost)
}
