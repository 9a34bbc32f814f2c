//! The objects that descriptors name.

ghost use Rattle.std.specs.Prelude.{◌≡◌, ◌≢◌, length, Some, IfOk, IfErr};
ghost use Rattle.std.specs.List.{zip};
ghost use Rattle.std.specs.Result.{result_err};
ghost use Rattle.fd_table.specs.Table.{named};
ghost use Rattle.verifier.specs.Maps.{maps_of};
ghost use Rattle.tenant.specs.Batch.{object_refusal};
ghost use Rattle.tenant.specs.Loaded.{map_handles};
ghost use Rattle.tenant.specs.declared.errno.Errno.TheVariants.{BadAddress};
ghost use Rattle.tenant.specs.declared.object.OpenObject.TheVariants as object;

use crate::errno::Errno;
use bpf_maps::MapKey;
use fd_table::FdTable;
use std::marker::Model;
use verifier::Verified;

/// A program that was loaded, and the handles of its maps. Contracts see each handle with its descriptor.
#[derive(Drop)]
pub struct LoadedProgram {
    program: Verified,
    /// The handle of the map for each descriptor of a map in the program's text, in the order of first use.
    maps: Vec<MapKey>,
}

impl Model for LoadedProgram {
    ghost use Rattle.std.specs.Prelude.{◌≡◌, length};
    ghost use Rattle.std.specs.List.{zip};
    ghost use Rattle.verifier.specs.Maps.{maps_of};
    ghost use Rattle.tenant.specs.Loaded.{LoadedProgram as AnyLoaded};

    ghost Value = { AnyLoaded };

    ghost view = { λ l. record {
      insns = l.program.code;
      named = l.program.objects;
      maps = zip (maps_of l.program.code) l.maps.items;
    } };

    ghost invariant = { λ l. length l.maps.items ≡ length (maps_of l.program.code) };
}

impl LoadedProgram {
    /// Combines an accepted program with the handles of its maps: `maps` has one for each descriptor of a map that its instructions name,
    /// in the order in which they first name these descriptors (`maps_of`). Only the number of handles is required; `loaded`, the caller,
    /// finds them in this order. The contract says what is stored: the instructions (`insns`), the descriptors with the objects with which
    /// the program was accepted (`named`), and each descriptor of a map with its handle (`maps`).
    pub(crate) fn new(program: Verified, maps: Vec<MapKey>) -> LoadedProgram
        requires { length maps.items ≡ length (maps_of program.code) }
        ensures insns { result.insns ≡ program.code }
        ensures named { result.named ≡ program.objects }
        ensures maps { result.maps ≡ zip (maps_of program.code) maps.items }
    {
        LoadedProgram { program, maps }
    }

    /// The handles of the program's maps: one for each descriptor of a map that its instructions name, in the order in which they first
    /// name these descriptors. Contracts see each handle with its descriptor; `map_handles` is only the handles. A run finds its maps by
    /// these handles, and the open program has a reference to the map of each.
    pub(crate) fn maps(&self) -> &[MapKey]
        ensures { result.now ≡ map_handles self.now }
    {
        &self.maps
    }

    /// The accepted program, which runs execute, and of which the cost and the slots are read; the handles of its maps are not in it. By
    /// `code` its instructions are those of the loaded program (`insns`). By `objects` the list `objects` of the accepted program is the
    /// list `named` of the loaded one: the descriptors of maps in its instructions that were open when it was loaded or installed, each
    /// with the object that it named then.
    pub fn program(&self) -> &Verified
        ensures code { result.now.code ≡ self.now.insns }
        ensures objects { result.now.objects ≡ self.now.named }
    {
        &self.program
    }
}

/// What an open descriptor names: a map, by its handle, or a loaded program.
#[derive(Drop)]
pub enum OpenObject {
    Map(MapKey),
    Program(LoadedProgram),
}

/// The program that a descriptor names (`found`). Otherwise the error is `BadDescriptor` for a descriptor that is not open, and `Invalid`
/// for one that names a map (`refusal`; for a program `object_refusal` is `None`). So the error is never `BadAddress`, that of a run that
/// faults (`no_fault`), which no command may return (`IsWritable`).
pub(crate) fn program_at(objects: &FdTable<OpenObject>, fd: u32) -> Result<&LoadedProgram, Errno>
    ensures found { IfOk result (λ program.
        named objects.now fd ≡ Some (object.Program program.now)) }
    ensures refusal { result_err result ≡ object_refusal (named objects.now fd) }
    ensures no_fault { IfErr result (λ errno. errno ≢ BadAddress) }
{
    match objects.get(fd) {
        None => Err(Errno::BadDescriptor),
        Some(OpenObject::Map(_)) => Err(Errno::Invalid),
        Some(OpenObject::Program(program)) => Ok(program),
    }
}
