//! The program's arguments.

use clap::{Arg, ArgAction, ArgMatches, Command};
use log_core::LogStyle;
use std::alloc::{AllocError, Global};

/// How the program of the input is written.
#[derive(Clone, Copy)]
pub(crate) enum ProgramForm {
    /// A slot on each line, as hex digits.
    Hex,
    /// The text of its instructions.
    Text,
}

/// The option that is written as `--` and then `name`, without a value; `get_flag` with this name returns whether it is given. `help` is
/// the line that the text of the help has for it.
fn flag<'a>(alloc: Global, name: &'a str, help: &'a str) -> Arg<'a> {
    Arg::new(alloc, name)
        .long(name)
        .help(help)
        .action(ArgAction::SetTrue)
}

/// The command line of `verifier_log` for clap: its name, its line of help and its version, without its options and its arguments, which
/// `parse_arguments` adds. The words that are parsed do not begin with the name of the command (`no_binary_name`).
fn program<'a>(alloc: Global) -> Command<'a> {
    Command::new(alloc, "verifier_log")
        .about(
            "Reads a program, hex lines or text, and writes what the verifier knows before each instruction, and the verdict",
        )
        .version("0.3.0")
        .no_binary_name(true)
}

/// Adds to `program` the options for what is written, of which at most one may be given: `--all` for all that is known before each
/// instruction, instead of only what is new, and `--dot` for the control flow as a graph. `AllocError`: out of memory.
fn with_styles<'a>(alloc: Global, program: Command<'a>) -> Result<Command<'a>, AllocError> {
    let all = flag(
        alloc,
        "all",
        "Write all that is known, and not what is new alone",
    );
    let program = program.arg(all)?;
    let dot = flag(
        alloc,
        "dot",
        "Write the control flow as a graph, for Graphviz",
    );
    program.arg(dot.conflicts_with("all")?)
}

/// Adds to `program`, the command line, the options `--hex` and `--text`, which say whether the input is hex lines or the text of a
/// program. At most one of them may be given; without them the first line that is not blank decides (`begins_with_hex`). `AllocError`: out
/// of memory.
fn with_forms<'a>(alloc: Global, program: Command<'a>) -> Result<Command<'a>, AllocError> {
    let hex = flag(alloc, "hex", "Read hex lines, whatever the first line is");
    let program = program.arg(hex.conflicts_with("text")?)?;
    program.arg(flag(
        alloc,
        "text",
        "Read the text of a program, whatever the first line is",
    ))
}

/// Adds the map arguments to `program`, which describes the command line to clap: any number of positional arguments. Each names a map and
/// its descriptor, as `4:hash:4:16:64`: the fields are descriptor, kind, the sizes of a key and of a value in bytes, and `max_entries`.
/// Clap does not read the fields, `maps_of_arguments` of `host` does. `AllocError`: out of memory.
fn with_maps<'a>(alloc: Global, program: Command<'a>) -> Result<Command<'a>, AllocError> {
    let maps = Arg::new(alloc, "map")
        .value_name("MAP")
        .help("What a descriptor names, as FD:KIND:KEY:VALUE:MAX: 3:array:4:8:1, or 4:hash:4:16:64")
        .action(ArgAction::Append);
    program.arg(maps)
}

/// Parses the arguments, those after the program's name, with clap: of the options `--all` and `--dot` at most one, of `--hex` and `--text`
/// at most one, and any number of map arguments, whose fields clap does not read. `clap::Error`: clap rejects them, they ask for help or
/// the version, or out of memory.
pub(crate) fn parse_arguments<'a>(
    alloc: Global,
    arguments: &'a [&'a str],
) -> Result<ArgMatches<'a>, clap::Error> {
    let program = with_styles(alloc, program(alloc))?;
    let program = with_forms(alloc, program)?;
    with_maps(alloc, program)?.try_get_matches_from(arguments)
}

/// The style of the log: with `--dot` the graph, with `--all` all that is known, without these options what is new before each instruction.
/// Clap has rejected arguments with both options (`with_styles`).
pub(crate) fn style_of(matches: &ArgMatches<'_>) -> LogStyle {
    if matches.get_flag("dot") {
        LogStyle::Graph
    } else if matches.get_flag("all") {
        LogStyle::Whole
    } else {
        LogStyle::New
    }
}

/// Whether a line consists of hex digits only, at least one. If no option says how the input is written, `begins_with_hex` asks this of its
/// first line that is not blank: if true, the input is read as hex lines.
fn is_hex(line: &str) -> bool {
    !line.is_empty() && line.bytes().all(|byte| byte.is_ascii_hexdigit())
}

/// Whether an input is read as hex lines, not as the text of a program, if no option says how to read it (`form_of`): its first line that
/// is not blank has only hex digits. Also true if all lines are blank or the input is not UTF-8: then it is read as hex lines, and rejected
/// as such.
fn begins_with_hex(input: &[u8]) -> bool {
    let Ok(text) = str::from_utf8(input) else {
        return true;
    };
    for line in text.lines() {
        let line = line.trim();
        if !line.is_empty() {
            return is_hex(line);
        }
    }
    true
}

/// How the program of the input is written: as the option `--hex` or `--text` says, of which clap accepts at most one. Without an option,
/// hex lines if the first line that is not blank consists of hex digits, if there is no such line, or if the input is not UTF-8
/// (`begins_with_hex`); else the text of a program.
pub(crate) fn form_of(matches: &ArgMatches<'_>, input: &[u8]) -> ProgramForm {
    if matches.get_flag("hex") {
        ProgramForm::Hex
    } else if matches.get_flag("text") {
        ProgramForm::Text
    } else if begins_with_hex(input) {
        ProgramForm::Hex
    } else {
        ProgramForm::Text
    }
}
