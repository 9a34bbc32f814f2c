//! What calls return, as text.

use bpf_maps::MapFault;
use cases::{CaseError, GROUP, hex_groups};
use std::alloc::{AllocError, Global};

/// The empty text, for a call that returns nothing.
pub fn nothing(alloc: Global) -> String {
    String::new(alloc)
}

/// The result of a call on a map as the text that a case expects: `what`, a word like `removed`, if the call succeeded, else the name of
/// its fault. The value that the call returned is dropped. `AllocError`: out of memory for the text.
pub fn done<T: Drop>(
    alloc: Global,
    outcome: Result<T, MapFault>,
    what: &str,
) -> Result<String, AllocError> {
    match outcome {
        Ok(_) => what.to_string(alloc),
        Err(fault) => fault_text(alloc, fault),
    }
}

/// The outcome of a store or a copy of `Arena`, as the text that a case expects: `what`, which is `stored` or `copied`, if it succeeded;
/// else (`None`) `outside`, since bytes that it stores or copies are not in the arena. `AllocError`: out of memory for the text.
pub fn done_inside(alloc: Global, outcome: Option<()>, what: &str) -> Result<String, AllocError> {
    match outcome {
        Some(()) => what.to_string(alloc),
        None => "outside".to_string(alloc),
    }
}

/// The name of a fault, as `NoEntry`: the result of a failed call of a map in a line of a worked case. `AllocError`: out of memory.
pub fn fault_text(alloc: Global, fault: MapFault) -> Result<String, AllocError> {
    format!(in alloc; "{fault:?}")
}

/// The text of what a request for the next key returned. If `outcome` is `Ok`, these are the hex digits, in groups of `GROUP` bytes, of the
/// key of `size` bytes that the request wrote to the front of `buffer`; if it is `Err`, the name of the fault. The error `Memory` is out of
/// memory; `Size`, for a `buffer` that is too short, can't occur.
pub fn key_text(
    alloc: Global,
    outcome: Result<(), MapFault>,
    buffer: &[u8],
    size: u32,
) -> Result<String, CaseError> {
    match outcome {
        Ok(()) => {
            // The callers' buffers have room for the longest key, so this is never `Size`.
            let key = buffer.get(..size as usize).ok_or(CaseError::Size)?;
            Ok(hex_groups(alloc, key, GROUP)?)
        }
        Err(fault) => Ok(fault_text(alloc, fault)?),
    }
}
