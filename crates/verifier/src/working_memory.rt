//! The memory that a verification works in.

use crate::cost::Counts;
use crate::pass::Pass;
use std::alloc::{AllocError, Global};

/// The memory that verifications work in, one after another: by slot, the most instructions and calls on the paths that end with a jump
/// there, and the facts on these jumps.
///
/// It has no contents between two verifications: the judgement on a program is the same with a new one. It is reused since fresh
/// memory is slow: a program whose jumps wait at 1,900 targets needs 4.7 MB. It keeps what the largest verification so far has
/// requested, which is at most 5.1 MB, and frees it when it is dropped.
#[derive(Drop)]
pub struct WorkingMemory {
    /// In the pass over a program's shape: by slot, the most instructions and calls on the paths that end with a jump there.
    pub(crate) jumping: Vec<Counts>,
    /// The facts, in the pass over a program's instructions. The first such pass allocates them.
    pass: Option<Box<Pass>>,
    alloc: Global,
}

impl WorkingMemory {
    /// Memory for verifications, of which nothing is allocated yet: `jumping`, for the most instructions and calls, by slot, on the paths
    /// that end with a jump there, is empty, and `pass`, for the facts of a pass over a program, is `None`. Each verification requests from
    /// `alloc` what is missing.
    pub fn new(alloc: Global) -> WorkingMemory {
        WorkingMemory {
            jumping: Vec::new(alloc),
            pass: None,
            alloc,
        }
    }

    /// The allocator that was given to `new`. A load also allocates with it what is not in this memory: the list of the tenant's open
    /// descriptors, and the loaded program.
    pub fn alloc(&self) -> Global {
        self.alloc
    }

    /// The memory for the facts of a pass. The first call allocates it, and later calls return the same memory. Facts in it mean nothing
    /// until the pass begins. `AllocError`: out of memory for it.
    pub(crate) fn pass(&mut self) -> Result<&mut Pass, AllocError> {
        if self.pass.is_none() {
            self.pass = Some(Box::new(self.alloc, Pass::new(self.alloc))?);
        }
        match &mut self.pass {
            Some(pass) => Ok(pass),
            // It has been allocated above, if it was missing.
            None => unreachable!(),
        }
    }
}
