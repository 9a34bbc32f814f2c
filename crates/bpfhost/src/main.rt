//! bpfhost: an eBPF host in user space. See the README.
#![tactic(auto)]

use host::{HashSeed, refuse_unread_words, run_words};
use std::process::ExitCode;
use std::{env, io};

/// Runs bpfhost on the arguments of its command line, those after its name, and returns the exit status. An error means that they could not
/// be read, for instance since one is not UTF-8 or memory ran out.
fn run(rt: &HostRuntime) -> io::Result<u8> {
    let alloc = rt.alloc();
    let given: Vec<String> = env::args(rt)?.skip(1).collect(alloc)?;
    let arguments: Vec<&str> = given
        .iter()
        .map(|argument| argument.as_str())
        .collect(alloc)?;
    // Without a seed only `serve` fails.
    let seed = HashSeed::random(rt).ok();
    Ok(run_words(
        alloc,
        seed,
        &arguments,
        rt.stdin(),
        rt.stdout(),
        rt.stderr(),
    ))
}

/// Runs bpfhost, and ends it with the exit status that `run` returns. If `run` could not read the arguments, `refuse_unread_words` writes a
/// line about it to standard error, and returns the status: 4 if out of memory, else 2.
fn main(rt: HostRuntime) -> ExitCode {
    let status = match run(&rt) {
        Ok(status) => status,
        Err(error) => refuse_unread_words(&error, rt.stderr()),
    };
    ExitCode::from(status)
}
