//! The open descriptors of the programs that follow.

use crate::case_error::CaseError;
use crate::lines::first_word;
use host::read_shape;
use std::alloc::{AllocError, Global};
use tagged_model::{MapShape, Named, Target};

/// The open descriptors. Of two with the same number the first counts.
///
/// - `map FD:KIND:KEY:VALUE:MAX`: this descriptor names a map.
/// - `program FD`: this descriptor names a program.
/// - `new`: no descriptor is open.
#[derive(Drop)]
pub struct Descriptors {
    alloc: Global,
    named: Vec<Named>,
}

/// The shape that a text `KIND:KEY:VALUE:MAX` means: `array` or `hash`, the sizes of a key and of a value in bytes, and `max_entries`. The
/// error is `Map` if the text is anything else, or if no map may have this shape; `Memory` if out of memory. `read_shape` of `host` reads a
/// whole map argument, which begins with a descriptor: so `3:` is written before the text, and the descriptor 3 is not returned.
pub fn shape_of(alloc: Global, text: &str) -> Result<MapShape, CaseError> {
    let argument = format!(in alloc; "3:{text}")?;
    match read_shape(argument.as_str())?.target {
        Target::Map(shape) => Ok(shape),
        // `read_shape` never returns a program.
        Target::Program => Err(CaseError::Notation),
    }
}

/// The map of the line `map FD:KIND:KEY:VALUE:MAX`: the descriptor FD, and the shape of the map that it names (`array` or `hash`, the sizes
/// of a key and of a value in bytes, and `max_entries`). Unlike in a map argument of the host, where FD is from 3 to 66, FD may be any
/// number of 32 bits, since the verifier takes any such descriptor, and cases test this. The error is the first that applies: `Notation` if
/// `text`, what follows `map`, has no colon; `Map` if what follows its first colon is no shape of a map, or `Memory` if out of memory;
/// `Number` if FD is no number of 32 bits.
fn named_map(alloc: Global, text: &str) -> Result<Named, CaseError> {
    let (fd, shape) = text.split_once(':').ok_or(CaseError::Notation)?;
    let shape = shape_of(alloc, shape)?;
    Ok(Named {
        fd: fd.parse()?,
        target: Target::Map(shape),
    })
}

/// An open descriptor that names a program. The text, which follows `program` in a line, is the descriptor, any number of 32 bits in
/// decimal; `Number` if the text is no such number.
fn named_program(text: &str) -> Result<Named, CaseError> {
    Ok(Named {
        fd: text.parse()?,
        target: Target::Program,
    })
}

impl Descriptors {
    /// Descriptors of which none is open, as before the first line of a file of cases. The list of the open ones, and the texts that `play`
    /// returns, take memory from `alloc`.
    pub fn new(alloc: Global) -> Descriptors {
        Descriptors {
            alloc,
            named: Vec::new(alloc),
        }
    }

    /// The open descriptors with what each names, a map of some shape or a program, in the order in which the lines opened them. One that
    /// two lines opened is listed twice, and the verifier takes its first object. With this list the types that play the lines verify the
    /// programs of later lines (`VerdictPlayer` of `cases_verdicts`), or make their logs (`LogPlayer` of `cases_logs`).
    pub fn named(&self) -> &[Named] {
        &self.named
    }

    /// Appends an open descriptor with the object that it names (`new`). If its number is open already, the first one with this number
    /// counts. Returns the text `open`, which is written below the line that opens the descriptor. The error is out of memory.
    fn open(&mut self, new: Named) -> Result<String, CaseError> {
        self.named.push(new)?;
        Ok("open".to_string(self.alloc)?)
    }

    /// Plays a line `map FD:KIND:KEY:VALUE:MAX` or `program FD`, which opens the descriptor FD, or a line `new`, which closes all. KIND is
    /// `array` or `hash`, KEY and VALUE are the sizes of a key and of a value in bytes, and MAX is `max_entries`. Returns the text that is
    /// written below the line: `open`, or for `new` the text `none open`. The error is `UnknownWord` for another first word, `Notation` if
    /// the text after `map` has no colon, `Map` if the text after FD is no shape that a map may have, `Number` if FD is no number of 32
    /// bits, `Memory` if out of memory.
    pub fn play(&mut self, line: &str) -> Result<String, CaseError> {
        let (word, rest) = first_word(line);
        match word {
            "map" => self.open(named_map(self.alloc, rest)?),
            "program" => self.open(named_program(rest)?),
            "new" => {
                self.named.clear();
                Ok("none open".to_string(self.alloc)?)
            }
            _ => Err(CaseError::UnknownWord),
        }
    }
}
