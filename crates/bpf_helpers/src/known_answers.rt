//! Known answers, worked out by hand and proved only from the contracts.

use crate::output::OUTSIDE;
use crate::update::fault_word;
use tagged_model::MapFault;

/// A known result, which no code calls: the prover shows that what a helper returns for an error is the error's number in errno(3),
/// negated, modulo 2^64. `fault_word` gives it for each fault of a map: ENOENT (2), E2BIG (7), ENOMEM (12), EEXIST (17), EINVAL (22) and
/// ENOSPC (28), in this order. `OUTSIDE`, which a load of bytes outside the packet returns, is that of EFAULT (14).
fn faults_as_words() {
    let no_entry = fault_word(MapFault::NoEntry);
    prove!(no_entry == 0xffff_ffff_ffff_fffe);
    let too_big = fault_word(MapFault::TooBig);
    prove!(too_big == 0xffff_ffff_ffff_fff9);
    let memory = fault_word(MapFault::Memory);
    prove!(memory == 0xffff_ffff_ffff_fff4);
    let exists = fault_word(MapFault::Exists);
    prove!(exists == 0xffff_ffff_ffff_ffef);
    let invalid = fault_word(MapFault::Invalid);
    prove!(invalid == 0xffff_ffff_ffff_ffea);
    let no_space = fault_word(MapFault::NoSpace);
    prove!(no_space == 0xffff_ffff_ffff_ffe4);
    prove!(OUTSIDE == 0xffff_ffff_ffff_fff2);
}
