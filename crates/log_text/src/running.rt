//! The command-line program: it reads a program and writes its log.

use crate::arguments::{ProgramForm, form_of, parse_arguments, style_of};
use clap::ArgMatches;
use host::{Failure, hex_slots, maps_of_arguments, text_program, whole_input};
use log_core::{Log, SlotsLog, log_of, log_of_slots};
use std::alloc::{AllocError, Global};
use std::io::{Read, Write};
use tagged_model::Named;

/// The program's output and its exit status.
#[derive(Drop)]
struct Output {
    text: String,
    status: u8,
}

/// The maps that the map arguments of the command line describe, each with its descriptor, in order; the program is verified as if they
/// were open. The list is empty without map arguments. The failure is `MapArgument`, with the number of the first wrong argument from 1, if
/// an argument describes no map, or has the descriptor of an earlier one. It is `Memory` if out of memory.
fn maps_given(alloc: Global, matches: &ArgMatches<'_>) -> Result<Vec<Named>, Failure> {
    match matches.get_strs("map") {
        Some(arguments) => maps_of_arguments(alloc, arguments),
        None => Ok(Vec::new(alloc)),
    }
}

impl Output {
    /// The output for a log: its text, and the status of its verdict, 0 if the program is accepted, else 1.
    fn of_log(text: String, is_accepted: bool) -> Output {
        let status = if is_accepted { 0 } else { 1 };
        Output { text, status }
    }
}

/// The output for an input, by the parsed arguments `matches`: the log of its program, and the exit status, 0 if the program is accepted,
/// else 1. By the options the log has lines with what is new before each instruction, lines with all that is known, or a graph
/// (`style_of`). The program is hex lines or text, as an option says. Without this option it is hex lines if the first line that is not
/// blank has only hex digits, if all lines are blank, or if the input is not UTF-8, else text (`form_of`). If the slots on hex lines are no
/// program, the log says why. The failures: `MapArgument` for a wrong map argument; then `TooLong` if the input has more than
/// `LONGEST_INPUT` bytes, or `Read` if a call that reads it failed; then `Line` if the input is not UTF-8, a line has a fault, or no line
/// has a slot or an instruction. `Memory` at any of these steps if out of memory.
fn log_output<I: Read + Drop>(
    alloc: Global,
    matches: &ArgMatches<'_>,
    input: I,
) -> Result<Output, Failure> {
    let maps = maps_given(alloc, matches)?;
    let input = whole_input(alloc, input)?;
    let style = style_of(matches);
    match form_of(matches, &input) {
        ProgramForm::Hex => {
            let slots = hex_slots(alloc, &input)?;
            let SlotsLog { text, is_accepted } = log_of_slots(alloc, &slots, &maps, style)?;
            Ok(Output::of_log(text, is_accepted))
        }
        ProgramForm::Text => {
            let program = text_program(alloc, &input)?;
            let Log {
                text,
                is_accepted,
                // The text is written from these.
                facts: _,
            } = log_of(alloc, &program, &maps, style)?;
            Ok(Output::of_log(text, is_accepted))
        }
    }
}

/// The output for `arguments`, those after the program's name: the log of the eBPF program in `input`, with the exit status 0 if it is
/// accepted, else 1 (`log_output`), or, if the arguments ask for it, the text of the help or of the version, with the exit status 0. Clap
/// returns such a text as an error, but one that is not for the error stream (`use_stderr`). `Failure` if clap rejects the arguments, if
/// `log_output` fails, or if memory is refused.
fn output_of<I: Read + Drop>(
    alloc: Global,
    arguments: &[&str],
    input: I,
) -> Result<Output, Failure> {
    match parse_arguments(alloc, arguments) {
        Ok(matches) => log_output(alloc, &matches, input),
        // An error proper, and not help or the version.
        Err(error) if error.use_stderr() => Err(Failure::from(error)),
        Err(error) => Ok(Output {
            text: error.to_string(alloc)?,
            status: 0,
        }),
    }
}

/// Writes a text and flushes it. `Failure::Write` if one of these fails.
fn write_out<O: Write>(output: &mut O, text: &str) -> Result<(), Failure> {
    if output.write_all(text.as_bytes()).is_err() || output.flush().is_err() {
        return Err(Failure::Write);
    }
    Ok(())
}

/// Runs the command-line program on `arguments`, those after its name: writes its output to `output`, and returns its exit status. The
/// output is the log of the eBPF program in `input`, or, if the arguments ask for it, the help or the version. The status is 1 if the eBPF
/// program is rejected, or if the slots on hex lines are no program, else 0. Fails before anything is written if arguments are wrong, if
/// the input can't be read, is too long, or has a fault as hex lines or as text, or if out of memory. Fails with `Write` if the output
/// can't be written or flushed.
fn run<I: Read + Drop, O: Write + Drop>(
    alloc: Global,
    arguments: &[&str],
    input: I,
    mut output: O,
) -> Result<u8, Failure> {
    let Output { text, status } = output_of(alloc, arguments, input)?;
    write_out(&mut output, text.as_str())?;
    Ok(status)
}

/// Runs the command `verifier_log` on its arguments, those after its name, and returns its exit status: 0 if the eBPF program in the input
/// is accepted, or help or the version is asked for, 1 if the input or its program is rejected, 2 if arguments are wrong, 3 if input or
/// output failed, 4 if out of memory. `output` gets the log of the program, accepted or rejected, or the text of the help or of the
/// version. If the slots on hex lines are no program, the log says why. `output` is written only once the text is complete. `run` returns a
/// `Failure` if arguments are wrong, if the input can't be read, is too long, or has a fault as hex lines or as text, if the output can't
/// be written or flushed, or if out of memory. Its fault line goes to `faults`, as `bpfhost verify` writes such a line; if that line can't
/// be written, the status is still that of the failure.
pub fn run_log_words<I: Read + Drop, O: Write + Drop, F: Write + Drop>(
    alloc: Global,
    arguments: &[&str],
    input: I,
    output: O,
    mut faults: F,
) -> u8 {
    match run(alloc, arguments, input, output) {
        Ok(status) => status,
        Err(failure) => {
            let _ = writeln!(faults, "{failure}");
            failure.status()
        }
    }
}
