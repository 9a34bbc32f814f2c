//! The verdict, and the maps that a program loads.

ghost use Rattle.std.specs.Prelude.{◌≡◌, IfErr, IfOk, OnOk};
ghost use Rattle.verifier.specs.Cost.{IsCostOf};
ghost use Rattle.verifier.specs.Maps.{maps_of, objects_at};
ghost use Rattle.verifier.specs.Seen.{SeesRefused, SeesAll};
ghost use Rattle.verifier.specs.Verdict.{IsAccepted, IsFaultOf};

use crate::cost::Cost;
use crate::fault::VerifyFault;
use crate::maps::{loaded_maps, objects_at};
use crate::pass::check_safety;
use crate::shape::check_shape;
use crate::watcher::Watcher;
use crate::working_memory::WorkingMemory;
use insn_codec::Program;
use std::alloc::Global;
use tagged_model::Named;

/// What the verification of an accepted program has found.
#[derive(Debug, Drop)]
pub(crate) struct Findings {
    /// The descriptors of the maps that it loads, each once, in the order of their first loads.
    pub(crate) maps: Vec<u32>,
    /// Those of the open descriptors that are in `maps`, each with the object that it names.
    pub(crate) objects: Vec<Named>,
    pub(crate) cost: Cost,
}

/// Verifies a program: first its shape, then in one pass its safety. `named` lists the open descriptors and their objects; `check_safety`
/// receives only those of the program's maps. `working` is memory that verifications can reuse. Returns the descriptors of the maps that an
/// accepted program loads (`maps`), their objects (`objects`) and the program's cost. The error is the first fault, or out of memory
/// (`refused`). In the pass `watcher` receives, by slot, the facts before each instruction that a run may reach; `W.seen` is the list of
/// the slots and facts that a watcher has received, or `None` if it does not say which. If the program is accepted, `watcher` receives all
/// such facts (`seen`). Otherwise (`seen_refused`) it receives none if the shape has a fault; those up to and with the first instruction
/// that has a fault in the pass; or those below some slot if out of memory. The facts that a rejected program leaves in `working` are
/// removed, so that the verification of the next program, which may be of another tenant, does not take longer.
pub(crate) fn judge<W: Watcher>(
    alloc: Global,
    program: &Program,
    named: &[Named],
    watcher: &mut W,
    working: &mut WorkingMemory,
) -> Result<Findings, VerifyFault>
    ensures accepted { OnOk result (IsAccepted program.now named.now) }
    ensures maps { IfOk result (λ found. found.maps.items ≡ maps_of program.now) }
    ensures objects { IfOk result (λ found. found.objects.items
        ≡ objects_at (maps_of program.now) named.now) }
    ensures cost { IfOk result (λ found. IsCostOf found.cost program.now) }
    ensures refused { IfErr result (IsFaultOf program.now named.now) }
    ensures seen { OnOk result
        (SeesAll program.now named.now (W.seen watcher.old) (W.seen watcher.new)) }
    ensures seen_refused { IfErr result
        (SeesRefused program.now named.now (W.seen watcher.old) (W.seen watcher.new)) }
{
    let cost = check_shape(program, named, &mut working.jumping)?;
    let maps = loaded_maps(alloc, program, named)?;
    let objects = objects_at(alloc, named, &maps)?;
    let pass = working.pass()?;
    let verdict = check_safety(program, &objects, watcher, pass);
    pass.end();
    verdict?;
    Ok(Findings {
        maps,
        objects,
        cost,
    })
}
