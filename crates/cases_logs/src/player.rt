//! Plays lines with the descriptors that are open.

use bpf_text::assemble;
use cases::{CaseError, Descriptors, Player, first_word, input_of, outcome, text_of, written};
use log_text::{Log, LogStyle, log_of, run_log_words};
use std::alloc::Global;

/// The descriptors that programs are verified with.
#[derive(Drop)]
pub struct LogPlayer {
    alloc: Global,
    descriptors: Descriptors,
}

impl LogPlayer {
    /// A player for a file of cases, before the first line: no descriptor is open. The lines `map` and `program` open descriptors, with
    /// which the programs of later lines are verified (`Descriptors`).
    pub fn new(alloc: Global) -> LogPlayer {
        LogPlayer {
            alloc,
            descriptors: Descriptors::new(alloc),
        }
    }

    /// The log of a program, verified with the descriptors that are open: those that lines `map` and `program` have opened since the last
    /// line `new`. `style` says whether the log is lines with what is new before each instruction, lines with all facts before it, or a
    /// graph. A rejected program has a log too. `text` is the program's text in the notation of cases. The errors are `Notation` or
    /// `Digits` if `text` breaks this notation, `NoText` if the bytes that it gives are not UTF-8, `Text` if these do not assemble or the
    /// assembler is out of memory, and `Memory` if out of memory elsewhere.
    fn log(&self, text: &str, style: LogStyle) -> Result<String, CaseError> {
        let source = written(self.alloc, text)?;
        let program = assemble(self.alloc, text_of(&source)?)?;
        let Log {
            text,
            is_accepted: _,
            facts: _,
        } = log_of(self.alloc, &program, self.descriptors.named(), style)?;
        Ok(text)
    }

    /// Plays a line `run`: runs the program `verifier_log` on the arguments of `case`, the rest of the line, and on its input, which
    /// follows `<` in the notation of cases. Returns how the program ends, as a text: its exit status, its output, and its fault
    /// (`outcome`). `Notation` if `<` is missing; `Notation` or `Digits` if the input is not in the notation (`written`); `NoText` if the
    /// output or the fault is not UTF-8; `Memory` if out of memory.
    fn run(&self, case: &str) -> Result<String, CaseError> {
        let (arguments, text) = input_of(case)?;
        let arguments: Vec<&str> = arguments.split_whitespace().collect(self.alloc)?;
        let input = written(self.alloc, text)?;
        let mut output = Vec::new(self.alloc);
        let mut faults = Vec::new(self.alloc);
        let status = run_log_words(
            self.alloc,
            &arguments,
            input.as_slice(),
            &mut output,
            &mut faults,
        );
        outcome(self.alloc, status, text_of(&output)?, &faults)
    }
}

impl Player for LogPlayer {
    /// Plays a line, and returns its outcome, the text below it. `log`, `all` and `dot`, with the text of a program after them, return its
    /// log: in lines with what is new before each instruction (`log`), in lines with all facts before it (`all`), or as a graph (`dot`).
    /// `run`, with arguments, `<` and an input, returns how `verifier_log` ends on them: its exit status, output and fault. `map` and
    /// `program` open a descriptor for the programs of later lines, and return `open`; `new` closes all, and returns `none open`.
    /// `UnknownWord` if the line has another first word; other errors are those of `log`, `run`, and `play` of `Descriptors`.
    fn play(&mut self, line: &str) -> Result<String, CaseError> {
        let (word, rest) = first_word(line);
        match word {
            "log" => self.log(rest, LogStyle::New),
            "all" => self.log(rest, LogStyle::Whole),
            "dot" => self.log(rest, LogStyle::Graph),
            "run" => self.run(rest),
            _ => self.descriptors.play(line),
        }
    }
}
