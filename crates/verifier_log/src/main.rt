//! verifier_log: the facts of the verifier before each instruction of a program, and why a program is rejected. See the README.
#![tactic(auto)]

use host::refuse_unread_words;
use log_text::run_log_words;
use std::process::ExitCode;
use std::{env, io};

/// Runs the program on its arguments, those after its name, and returns its exit status (`run_log_words`): 0 if the eBPF program in the
/// input is accepted, or if help or the version is asked for; 1 if the input or its program is rejected, 2 if arguments are wrong, 3 if
/// input or output failed, 4 if out of memory. An error means that the arguments could not be read, for instance since one is not UTF-8 or
/// memory ran out.
fn run(rt: &HostRuntime) -> io::Result<u8> {
    let alloc = rt.alloc();
    let given: Vec<String> = env::args(rt)?.skip(1).collect(alloc)?;
    let arguments: Vec<&str> = given
        .iter()
        .map(|argument| argument.as_str())
        .collect(alloc)?;
    Ok(run_log_words(alloc, &arguments, rt.stdin(), rt.stdout(), rt.stderr()))
}

/// Ends the program with the exit status of `run`. If the arguments could not be read (`Err`), the program writes a line about that to
/// standard error, and the exit status is 4 if out of memory, else 2.
fn main(rt: HostRuntime) -> ExitCode {
    let status = match run(&rt) {
        Ok(status) => status,
        Err(error) => refuse_unread_words(&error, rt.stderr()),
    };
    ExitCode::from(status)
}
