//! Known answers of the public calls, proved only from their contracts. Nothing calls these functions.

use crate::TextFaultKind;

/// A known result: of the kinds of faults of a program's text or of hex lines, the first, `Syntax`, has the number 1, and the last,
/// `Memory`, the number 7. This tests the contract of `number`, and both numbers are proved only from this; nothing calls this function.
/// `host` prints the number of each kind in a fault line, as `line 3: fault 1`, except that for `Memory` the line is `out of memory`.
fn kinds_of_faults() {
    let (first, last) = (
        TextFaultKind::Syntax.number(),
        TextFaultKind::Memory.number(),
    );
    prove!(first == 1);
    prove!(last == 7);
}
