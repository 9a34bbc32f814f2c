//! The longest programs.

use std::alloc::{AllocError, Global};

/// The number of jumps of a program of 4,096 slots, one in every second slot between the first and the last one: 1 + 2 * 2,047 + 1 = 4,096.
const JUMPS: usize = 2047;

/// The text of a program of `MAX_SLOTS` (of `insn_set`) slots, the most that a program may have: a load of a number of 32 bits from the
/// context into `r0`, then `JUMPS` conditional jumps, each with a move after it, and in the last slot the instruction `end`, as text. Jump
/// number `jump`, from 0, tests whether `r0` is `jump`. It skips `ahead` slots, or all slots before the last one (`left`) if these are
/// fewer. The move sets `r2` to `jump`, so the edges that meet at a slot may differ in the kind of `r2`, and the verifier has to join
/// these. `verdict_of_longest` verifies the program. `AllocError`: out of memory.
pub fn jumping(alloc: Global, ahead: usize, end: &str) -> Result<String, AllocError> {
    let mut lines = String::new(alloc);
    lines.push_str("r0 = *(u32 *)(r1 + 0)")?;
    for jump in 0..JUMPS {
        let left = 2 * (JUMPS - jump) - 1;
        write!(
            lines,
            "; if r0 == {jump} goto +{}; r2 = {jump}",
            ahead.min(left)
        )?;
    }
    lines.push_str("; ")?;
    lines.push_str(end)?;
    Ok(lines)
}
