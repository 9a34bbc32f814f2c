//! The program's arguments, and the subcommands that they run.

ghost use Rattle.std.specs.Prelude.{◌≡◌, ◌≢◌, ◌≤◌, ◌⊎◌, Some, Err, IfErr, IfOk, IfSome, option_and_then, option_map};
ghost use Rattle.std.specs.declared.io.ErrorKind.TheVariants.{OutOfMemory};
ghost use Rattle.std.specs.IoError.{error_kind};
ghost use Rattle.clap.specs.Words.{FailsBy, app_of, found_of, rows_of, subcommand_rows_of};
ghost use Rattle.clap.specs.Walk.{texts};
ghost use Rattle.host.specs.program.Statuses.{exit_status};
ghost use Rattle.host.specs.program.Shapes.{AreMapArguments};
ghost use Rattle.host.specs.inside.program.MapFields.{IsWrongMapArgument};
ghost use Rattle.host.specs.program.Judging.{AcceptsIfKnown};
ghost use Rattle.host_core.specs.Limits.{most_tenants};
ghost use Rattle.host.specs.inside.program.Outcomes.{Fails, FailsOnly};
ghost use Rattle.host.specs.program.Arguments.{asked_of, asked_with, chosen_subcommand, refusal_kinds, serve_command, tenant_number};
ghost use Rattle.host.specs.program.Arguments.{tenants_value, verify_command, AcceptsAsked, AreWrongArguments, HasWrongMapArgument};
ghost use Rattle.host.specs.inside.program.Asked.{asked_by, texts_given, HasTenants};

use crate::program::decimal::decimal;
use crate::program::failure::Failure;
use crate::program::frames::serve_frames;
use crate::program::judging::{judge, verdict_status};
use crate::program::shapes::named_maps;
use crate::program::texts::{TextTask, rewrite};
use clap::{Arg, ArgAction, ArgMatches, Command};
use host_core::{Counted, HashSeed, MOST_TENANTS};
use std::alloc::{AllocError, Global};
use std::io::{self, BufReader, Read, Write};
use tagged_model::Named;

/// The task that the arguments name.
#[derive(Clone, Copy, Debug)]
enum Task<'m, 'a> {
    /// Serve frames to this number of tenants.
    Serve { tenants: usize },
    /// Assemble or disassemble the input.
    Rewrite(TextTask),
    /// Verify a program with the maps that these arguments name; `None` if no argument is given for a map.
    Verify { maps: Option<&'m [&'a str]> },
}

/// The number of tenants that `digits` gives in decimal. `None` if `digits` is no decimal number, or the number is not from 1 to
/// `MOST_TENANTS`.
fn tenant_count(digits: &str) -> Option<usize>
    ensures { result ≡ tenant_number digits.now }
{
    let count = decimal(digits)? as usize;
    if count >= 1 && count <= MOST_TENANTS {
        Some(count)
    } else {
        None
    }
}

/// The subcommand `serve`, as `parse_arguments` gives it to clap, with the required option `--tenants`. The option has a value, the number
/// of tenants, but clap takes any text: `tenants_given` reads the number. By the clause the subcommand's settings and options, which
/// `app_of` of clap's definitions gives, are those of `serve_command`. `AllocError`: out of memory.
fn serve_subcommand<'a>(alloc: Global) -> Result<Command<'a>, AllocError>
    ensures { IfOk result (λ command. app_of command ≡ serve_command) }
{
    let tenants = Arg::new(alloc, "tenants")
        .long("tenants")
        .required(true)
        .action(ArgAction::Set);
    Command::new(alloc, "serve").arg(tenants)
}

/// The subcommand `verify`, as `parse_arguments` gives it to clap: any number of positional arguments, one for each map, which clap
/// collects under the name `map`. By the clause its settings and arguments, which `app_of` of clap's definitions gives, are those of
/// `verify_command`. `AllocError`: out of memory.
fn verify_subcommand<'a>(alloc: Global) -> Result<Command<'a>, AllocError>
    ensures { IfOk result (λ command. app_of command ≡ verify_command) }
{
    let maps = Arg::new(alloc, "map").action(ArgAction::Append);
    Command::new(alloc, "verify").arg(maps)
}

/// Parses the arguments, those after the program's name, with clap: a subcommand, `serve`, `asm`, `dis` or `verify`, is required. `given`:
/// the result has the subcommand's name, and what is given to its options and arguments (`subcommand_rows_of`), as the definition
/// `chosen_subcommand` has them. A row is the name of one option or argument with its values. `kinds`: `Err` has a kind of error that
/// clap's definition gives for these arguments (`refusal_kinds`), or that of out of memory; the result is `Ok` only if the definition gives
/// none.
fn parse_arguments<'a>(
    alloc: Global,
    arguments: &'a [&'a str],
) -> Result<ArgMatches<'a>, clap::Error>
    ensures given { IfOk result (λ matches. subcommand_rows_of matches
        ≡ chosen_subcommand (texts arguments.now)) }
    ensures kinds { FailsBy (refusal_kinds (texts arguments.now)) result }
{
    let program = Command::new(alloc, "bpfhost")
        .no_binary_name(true)
        .subcommand_required(true)
        .subcommand(serve_subcommand(alloc)?)?
        .subcommand(Command::new(alloc, "asm"))?
        .subcommand(Command::new(alloc, "dis"))?
        .subcommand(verify_subcommand(alloc)?)?;
    program.try_get_matches_from(arguments)
}

/// The number of tenants that the option `--tenants` gives. `serve` is clap's result for the subcommand `serve`. It has an entry for each
/// option that clap has found (`found_of`); clap's definitions have an entry as a row (`rows_of`), the option's name with its values.
/// `None` if the text of the option (`tenants_value`) is no decimal number from 1 to `MOST_TENANTS` (`tenant_number`): then the program
/// ends with `WrongArguments`. Also `None` without the option, but clap rejects such arguments before.
fn tenants_given(serve: &ArgMatches<'_>) -> Option<usize>
    ensures { result
        ≡ option_and_then tenant_number (tenants_value (rows_of (found_of serve.now))) }
{
    tenant_count(serve.get_str("tenants")?)
}

/// The task of the subcommand `name`; `options` is clap's result for this subcommand. It has an entry for each option or argument that clap
/// has found (`found_of`); clap's definitions have an entry as a row (`rows_of`), a name with its values. `asked`: the result, with the
/// task as the definitions have it (`asked_by`), is what they give for this name and these rows (`asked_with`). `None` if the `--tenants`
/// of `serve` is no decimal number from 1 to `MOST_TENANTS`, so a task to serve has such a number (`tenants`). `None` too if `--tenants` is
/// missing or `name` is no subcommand: clap rejects both before. The map arguments of `verify` are not parsed here.
fn task_named<'m, 'a>(name: &str, options: &'m ArgMatches<'a>) -> Option<Task<'m, 'a>>
    ensures tenants { IfSome result HasTenants }
    ensures asked { option_map asked_by result
        ≡ asked_with name.now (rows_of (found_of options.now)) }
{
    match name {
        "serve" => {
            let tenants = tenants_given(options)?;
            Some(Task::Serve { tenants })
        }
        "asm" => Some(Task::Rewrite(TextTask::Assemble)),
        "dis" => Some(Task::Rewrite(TextTask::Disassemble)),
        "verify" => {
            let maps = options.get_strs("map");
            Some(Task::Verify { maps })
        }
        // Never of clap's matches, which have one of the four names.
        _ => None,
    }
}

/// The task of the subcommand in `matches`, clap's result for the arguments. `None` if the number of tenants for `serve` is no decimal
/// number from 1 to `MOST_TENANTS`, so a task to serve has such a number (`tenants`). Also `None` if `matches` has no subcommand, or
/// `--tenants` is missing, but clap has rejected that before. `asked`: for the subcommand's name and what clap has found for its options
/// (`subcommand_rows_of`), the definition `asked_of` gives the same task, or none if the result is `None`. `asked_by` is the code's task in
/// the type of that definition.
fn chosen_task<'m, 'a>(matches: &'m ArgMatches<'a>) -> Option<Task<'m, 'a>>
    ensures tenants { IfSome result HasTenants }
    ensures asked { option_map asked_by result ≡ asked_of (subcommand_rows_of matches.now) }
{
    let (name, options) = matches.subcommand()?;
    task_named(name, options)
}

/// Serves the frames of `input` on a new host of `tenants` tenants, from 1 (`some`) to `MOST_TENANTS` (`few`), and writes the replies to
/// `output`. The host hashes the keys of hash maps with `seed`. The failure is `Seed` if `seed` is `None`, before anything is read;
/// `Memory` if out of memory; `Read` or `Write` if a call of that stream failed; `Truncated` if the input ends inside a frame;
/// `TooManyFrames` if another byte follows `MOST_FRAMES` frames. None has exit status 2, that of wrong arguments. The function consumes
/// both streams, so its contract can't describe them afterwards: only that of `serve_frames` states what is read and written, and which
/// failure is returned.
fn serve_streams<I: Read + Drop, O: Write + Drop>(
    alloc: Global,
    seed: Option<HashSeed>,
    tenants: usize,
    input: I,
    output: O,
) -> Result<(), Failure>
    requires some { 1 ≤ tenants }
    requires few { tenants ≤ most_tenants }
    ensures { IfErr result (λ failure. exit_status failure ≢ 2) }
{
    let Some(seed) = seed else {
        return Err(Failure::Seed);
    };
    let Ok(buffered) = BufReader::new(alloc, input) else {
        return Err(Failure::Memory);
    };
    let mut reader = Counted::new(buffered);
    let mut writer = Counted::new(output);
    serve_frames(alloc, tenants, seed, &mut reader, &mut writer)
}

/// Runs `asm` or `dis`, as `task` selects: reads the whole input, and writes the program's hex lines or its text. The failures are those of
/// `rewrite`. `TooLong`: the input has more than `LONGEST_INPUT` bytes. `Line`: it is not UTF-8, a line of it has a fault, or it has no
/// instruction (`asm`) or no slot (`dis`). `Slot`: the slots that `dis` reads are no program. `Read` or `Write`: a call of a stream failed.
/// `Memory`: out of memory. None has exit status 2, that of wrong arguments. The function consumes the streams, so its contract can't
/// describe them afterwards: only that of `rewrite` states what is read and written, and which failure is returned.
fn rewrite_streams<I: Read + Drop, O: Write + Drop>(
    alloc: Global,
    task: TextTask,
    input: I,
    output: O,
) -> Result<(), Failure>
    ensures { IfErr result (λ failure. exit_status failure ≢ 2) }
{
    let mut reader = Counted::new(input);
    let mut writer = Counted::new(output);
    rewrite(alloc, task, &mut reader, &mut writer)
}

/// The maps that the map arguments of `verify` name, in their order (`named`); an empty list if `arguments` is `None`, as without map
/// arguments. `MapArgument` with the number, from 1, of the first argument that names no map, or a map at the descriptor of an earlier map
/// (`wrong`); `Memory` if out of memory.
fn maps_given(alloc: Global, arguments: Option<&[&str]>) -> Result<Vec<Named>, Failure>
    ensures named { IfOk result (λ maps. AreMapArguments (texts_given arguments.entry) maps.items) }
    ensures wrong { FailsOnly result (IsWrongMapArgument (texts_given arguments.entry)) }
{
    match arguments {
        Some(arguments) => named_maps(alloc, arguments),
        None => Ok(Vec::new(alloc)),
    }
}

/// Reads the map arguments (`None`: no argument) and the input, and writes the verdict on the input's program. Returns the exit status: 0
/// if the program is accepted with these maps, else 1 (`status`). `accepted`: after status 0 the input has a program that is accepted with
/// the maps of the arguments; nothing is claimed of an input whose bytes contracts do not know (`AcceptsIfKnown`). If a map argument names
/// no map, or the descriptor of an earlier one, the failure is `MapArgument`, of exit status 2, or `Memory` (`refused`); no other failure
/// has status 2 (`wrong`). Those that `judge` adds: `TooLong` if the input has more than `LONGEST_INPUT` bytes, `Read` or `Write` if a call
/// of a stream failed, `Line` if the input is not UTF-8, a line has a fault or no line has a slot. `Memory` if out of memory at any step.
/// The function consumes both streams, so its contract can't express their states after the call: only that of `judge` states what is read
/// and written.
fn judge_streams<I: Read + Drop, O: Write + Drop>(
    alloc: Global,
    arguments: Option<&[&str]>,
    input: I,
    output: O,
) -> Result<u8, Failure>
    ensures status { IfOk result (λ status. status ≤ 1) }
    ensures wrong { IfErr result (λ failure. exit_status failure ≡ 2
        → HasWrongMapArgument (texts_given arguments.entry)) }
    ensures refused { HasWrongMapArgument (texts_given arguments.entry)
        → Fails result (λ failure. exit_status failure ≡ 2) }
    ensures accepted { IfOk result (λ status. status ≡ 0
        → AcceptsIfKnown (texts_given arguments.entry) (I.Read.remaining input)) }
{
    let maps = maps_given(alloc, arguments)?;
    let mut reader = Counted::new(input);
    let mut writer = Counted::new(output);
    let refusal = judge(alloc, &maps, &mut reader, &mut writer)?;
    Ok(verdict_status(refusal))
}

/// Runs the subcommand that the arguments name, those after the program's name `bpfhost`, and returns the exit status (`status`): 1 if
/// `verify` rejects a program, 0 if it accepts one or another subcommand did its task. Every other end is a `Failure`. Only `serve` needs a
/// seed: it fails with `Seed` if `seed` is `None`. Arguments are wrong (`AreWrongArguments`) if clap rejects them, if `serve` has no number
/// of tenants from 1 to `MOST_TENANTS`, or if an argument of `verify` names no map, or the descriptor of an earlier one. Then the function
/// fails, with a failure of exit status 2 or with `Memory` (`refused`); no other failure has status 2 (`wrong`). `accepted`: after status 0
/// for `verify`, the input has a program that is accepted with the maps of the arguments. Nothing is promised of a reader whose bytes are
/// not known to contracts (`remaining` is `None`).
fn run<I: Read + Drop, O: Write + Drop>(
    alloc: Global,
    seed: Option<HashSeed>,
    arguments: &[&str],
    input: I,
    output: O,
) -> Result<u8, Failure>
    ensures status { IfOk result (λ status. status ≤ 1) }
    ensures wrong { IfErr result (λ failure. exit_status failure ≡ 2
        → AreWrongArguments (texts arguments.now)) }
    ensures refused { AreWrongArguments (texts arguments.now)
        → Fails result (λ failure. exit_status failure ≡ 2) }
    ensures accepted { IfOk result (λ status. status ≡ 0
        → AcceptsAsked (texts arguments.now) (I.Read.remaining input)) }
{
    let matches = parse_arguments(alloc, arguments)?;
    match chosen_task(&matches).ok_or(Failure::WrongArguments)? {
        Task::Serve { tenants } => {
            serve_streams(alloc, seed, tenants, input, output)?;
            Ok(0)
        }
        Task::Rewrite(task) => {
            rewrite_streams(alloc, task, input, output)?;
            Ok(0)
        }
        Task::Verify { maps } => judge_streams(alloc, maps, input, output),
    }
}

/// Runs bpfhost on its arguments, those after its name, and returns its exit status: 1 if the input or the program in it is rejected, 2 if
/// arguments are wrong, 3 if a call of the input or the output failed, or if there is no seed for the maps of `serve`, 4 if out of memory,
/// else 0. Arguments are wrong (`AreWrongArguments`) if clap rejects them, `serve` has no number of tenants from 1 to `MOST_TENANTS`, or an
/// argument of `verify` names no map, or the descriptor of an earlier one. Status 2 is only for these (`wrong`), and they end with 2, or
/// with 4 if out of memory (`refused`). A failure is one line on `faults`, and a rejection by `verify` a line of the output; if the line on
/// `faults` can't be written, the status is still the failure's. `seed` is `None` if none could be drawn; only `serve` needs it. `accepted`
/// (`AcceptsAsked`): after status 0 for `verify`, the input has a program that is accepted with the maps of the arguments. Nothing is
/// promised of a reader whose bytes are unknown in contracts (`remaining` is `None`).
pub fn run_words<I: Read + Drop, O: Write + Drop, F: Write + Drop>(
    alloc: Global,
    seed: Option<HashSeed>,
    arguments: &[&str],
    input: I,
    output: O,
    mut faults: F,
) -> u8
    ensures range { result ≤ 4 }
    ensures wrong { result ≡ 2 → AreWrongArguments (texts arguments.now) }
    ensures refused { AreWrongArguments (texts arguments.now) → (result ≡ 2) ⊎ (result ≡ 4) }
    ensures accepted { result ≡ 0 → AcceptsAsked (texts arguments.now) (I.Read.remaining input) }
{
    match run(alloc, seed, arguments, input, output) {
        Ok(status) => status,
        Err(failure) => {
            let _ = writeln!(faults, "{failure}");
            failure.status()
        }
    }
}

/// Reports that the arguments of the program could not be read; `error` is the reason. Writes a line to `faults`, the standard error, and
/// returns the exit status. If out of memory, the line is `out of memory` and the status 4 (`memory`). For any other error, as for an
/// argument that is not UTF-8, the line is `wrong words` and the status 2 (`wrong`). If the line can't be written, the status is the same.
/// The `main` of `bpfhost` and that of `verifier_log` call this function.
pub fn refuse_unread_words<F: Write + Drop>(error: &io::Error, mut faults: F) -> u8
    ensures memory { error_kind error.now ≡ OutOfMemory → result ≡ 4 }
    ensures wrong { error_kind error.now ≢ OutOfMemory → result ≡ 2 }
{
    let failure = Failure::of_unread_arguments(error);
    let _ = writeln!(faults, "{failure}");
    failure.status()
}
