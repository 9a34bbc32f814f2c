//! A known seed, proved only from the contracts.

use crate::HashSeed;

/// A test of the contract of `from_bytes`, proved and never run: in the seed of these sixteen bytes the first eight are the word `state`
/// and the last eight the word `factor`, both little-endian.
fn words_of_a_seed() {
    let seed = HashSeed::from_bytes([1, 2, 3, 4, 5, 6, 7, 8, 9, 10, 11, 12, 13, 14, 15, 16]);
    let state = seed.state;
    prove!(state == 0x0807_0605_0403_0201);
    let factor = seed.factor;
    prove!(factor == 0x100F_0E0D_0C0B_0A09);
}
