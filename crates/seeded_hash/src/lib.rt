//! A hash function with a seed, so that nobody who does not know the seed can choose keys that collide.
//!
//! # What is proved
//!
//! - The hash of bytes by a seed is that of the definition (`started`, `written` and `finished` in `specs/Hashing.antt`):
//!   `build_hasher` of `HashSeed`; `write` and `finish` of `SeededHasher`.
//! - The words of a seed are the two halves of its sixteen bytes as numbers, little-endian: `from_bytes` of `HashSeed`.
//! - The two halves of a product are combined, and four, eight or at most eight bytes are read as a number, by their equations:
//!   the private `folded_product`, `half_word_at`, `word_at`, `short_word`.
//!
//! That `HashSeed::random` makes a seed of sixteen bytes of its source is read in the code, since std promises nothing of these
//! bytes, and tested: each of their 128 bits changes what the built program does (tests/seed_bits.py). That the source is random,
//! and that this function distributes keys chosen without knowledge of the seed, is an assumption (docs/TRUST.md).
//!
//! # Decisions
//!
//! - The seed is two words for all maps of a host. The earlier function had none: with 4,096 keys of 16 bytes that all collide,
//!   a new key took 65,594 machine instructions and a look-up 31,258; now they take 1,417 and 560, as with random keys. A seed
//!   for each map would not help more against the keys of one tenant, and costs a draw for each.
//! - The function is a folded product of 128 bits with the seed in both factors, as in wyhash and foldhash. It is not
//!   cryptographic: the README of foldhash (https://github.com/orlp/foldhash) says that such a function resists an attacker who
//!   sees no hash values, but not one who does. Here nobody sees one. SipHash (Aumasson and Bernstein, "SipHash: a fast
//!   short-input PRF", 2012) resists both, and would take some 75 machine instructions more for a key of four bytes; a
//!   whole look-up by the helper takes 103. `OrderedMap` of `ordered_keys` accepts any hash function, so only this crate
//!   would change.
//! - A short key is in both factors, and a longer one has a second product, since one product is linear in the key and so has
//!   weak seeds: keys that differ by equal steps are a line modulo 2^64, which some factors map into few groups of the table.
//!   Depending on the family of keys, 0.1 to 3.5% of 2,000 seeds put more than 30 keys into one of 512 groups, the worst 300 to
//!   420, while random keys put at most 26; this happened with plain counters too. Now one of 110,000 tries did (eleven
//!   families, five sizes, 2,000 seeds), and the mean number of entries before an entry is that of random keys within 0.3%.
//!   Machine instructions of a helper's look-up (builds without proofs), without a seed, with one product, and as it is: 100,
//!   101, 103 for a key of 4 bytes; 98, 98, 101 for 8; 190, 190, 194 for 16; 213, 213, 214 for 64.
#![tactic(auto)]

ghost use Rattle.std.specs.Prelude.{◌≡◌, ◌+◌, ◌≤◌, length};
ghost use Rattle.seeded_hash.specs.Hashing as hashing;

mod known_answers;

use std::hash::{BuildHasher, Hasher};
use std::io;
use std::random::RandomSource;

/// The seed of the hash function, from which the hashers begin. No contract of a map mentions it: what a map returns does not depend on its
/// seed, only the time that it takes does. A hasher begins with `state`, and `factor` is in each of its products. The seed has no `Debug`,
/// so that it is not printed.
#[derive(Clone, Copy, Drop)]
pub struct HashSeed {
    state: u64,
    factor: u64,
}

impl HashSeed {
    /// The seed of these two words, for a caller that has drawn them, or fixes them as tests do. A hasher of this seed begins with the hash
    /// `state`, and mixes bytes into it by multiplications: the second operand of each is `factor`, or an exclusive or with `factor`. For
    /// an attacker not to know the seed, both words have to be random.
    pub fn new(state: u64, factor: u64) -> HashSeed {
        HashSeed { state, factor }
    }

    /// The seed of sixteen bytes: its `state` is the number of the first eight of them, its `factor` that of the last eight, both
    /// little-endian. For an attacker not to know the seed, all sixteen have to be random.
    pub fn from_bytes(bytes: [u8; 16]) -> HashSeed
        ensures { result ≡ hashing.seed_of bytes }
    {
        let number = u128::from_le_bytes(bytes);
        HashSeed {
            state: (number & 0xFFFF_FFFF_FFFF_FFFF) as u64,
            factor: (number >> 64) as u64,
        }
    }

    /// A seed of sixteen bytes that `source` gives, a source of random bytes such as the system's.
    ///
    /// # Errors
    ///
    /// The error of the source if it fails to give the bytes.
    pub fn random(source: &impl RandomSource) -> io::Result<HashSeed> {
        let mut bytes = [0; 16];
        source.fill_bytes(&mut bytes)?;
        Ok(HashSeed::from_bytes(bytes))
    }
}

impl BuildHasher for HashSeed {
    type Hasher = SeededHasher;

    ghost build_hasher = { hashing.started };

    // Makes the hasher with which a hash by this seed begins: nothing is written to it, and it has the two words of the seed. By the
    // trait's contract the result is that of the definition `started`.
    #[inline(always)]
    fn build_hasher(&self) -> SeededHasher {
        SeededHasher {
            state: self.state,
            factor: self.factor,
        }
    }
}

/// A hasher: `state`, at first that of the seed, is the hash of what was written, and `factor` is that of the seed. Of sixteen bytes at a
/// time, it multiplies the first eight xor `state` by the last eight xor `factor`, and joins the halves of the 128-bit product by exclusive
/// or. A key of at most eight bytes is in both factors, and a longer one has one product more: one product that is linear in the key may
/// leave keys that differ by equal steps in few groups of a table.
#[derive(Clone, Copy, Drop)]
pub struct SeededHasher {
    state: u64,
    factor: u64,
}

impl Hasher for SeededHasher {
    ghost write = { hashing.written };

    ghost finish = { hashing.finished };

    // The hash of the bytes that were written is the state: `write` has mixed all of them into it, so no bytes are left to mix.
    #[inline(always)]
    fn finish(&self) -> u64 {
        self.state
    }

    // Mixes the bytes into the state by folded products, with `factor`, the second word of the seed. By the trait's contract the hasher
    // afterwards is that of the definition `written`. The number of bytes is added to the state first, since the reads below overlap: bytes
    // of two lengths may be read as the same words, and without their number they would have the same hash. At most eight bytes are read as
    // one word, which is in both operands of one product, in the second with its halves exchanged. More bytes take a product for each block
    // of sixteen that does not reach the last byte, one for the last sixteen bytes, and one more, of the result so far and `factor`. Both
    // ways avoid a hash that is a single product linear in the key: with some seeds, keys that differ by equal steps would fall into few
    // groups of a hash table.
    #[inline(always)]
    fn write(&mut self, bytes: &[u8]) {
        let len = bytes.len();
        let mut state = self.state.wrapping_add(len as u64);
        if len <= 8 {
            let word = short_word(bytes);
            self.state = folded_product(word ^ state, word.rotate_left(32) ^ self.factor);
            return;
        }
        let mut at = 0;
        while len - at > 16 {
            state = folded_product(
                word_at(bytes, at) ^ state,
                word_at(bytes, at + 8) ^ self.factor,
            );
            at += 16;
        }
        // The last sixteen bytes, or of fewer the first eight and the last eight: they may overlap what was read before.
        // `len` is at least nine here.
        let last = folded_product(
            word_at(bytes, len.saturating_sub(16)) ^ state,
            word_at(bytes, len - 8) ^ self.factor,
        );
        self.state = folded_product(last, self.factor);
    }
}

/// The two halves of the 128-bit product of `a` and `b`, joined by exclusive or. By this step the hasher mixes bytes, and its factor, into
/// its state.
#[inline(always)]
fn folded_product(a: u64, b: u64) -> u64
    ensures { result ≡ hashing.folded_product a b }
{
    let product = a as u128 * b as u128;
    (product & 0xFFFF_FFFF_FFFF_FFFF) as u64 ^ (product >> 64) as u64
}

/// The four bytes from offset `at` on, half of a word of eight bytes, as a little-endian number. Callers make sure that there are four.
#[inline(always)]
fn half_word_at(bytes: &[u8], at: usize) -> u64
    requires { at + 4 ≤ length bytes.now }
    ensures { result ≡ hashing.half_word_at bytes.now at }
{
    u32::from_le_bytes([bytes[at], bytes[at + 1], bytes[at + 2], bytes[at + 3]]) as u64
}

/// The eight bytes from offset `at` on, as a little-endian number. Callers make sure that there are eight.
#[inline(always)]
fn word_at(bytes: &[u8], at: usize) -> u64
    requires { at + 8 ≤ length bytes.now }
    ensures { result ≡ hashing.word_at bytes.now at }
{
    half_word_at(bytes, at) | half_word_at(bytes, at + 4) << 32
}

/// The word that a write of at most eight bytes mixes into the hash. From four bytes on, its halves are little-endian numbers: the low half
/// has the first four bytes and the high half the last four, which may overlap. Of one to three bytes, the lowest bytes of the word are the
/// first, the middle and the last one. The word of no bytes is 0. `write` never passes more than eight bytes; of more, only the first and
/// the last four would be read.
#[inline(always)]
fn short_word(bytes: &[u8]) -> u64
    ensures { result ≡ hashing.short_word bytes.now }
{
    let len = bytes.len();
    if len >= 4 {
        half_word_at(bytes, 0) | half_word_at(bytes, len - 4) << 32
    } else if len > 0 {
        bytes[0] as u64 | (bytes[len / 2] as u64) << 8 | (bytes[len - 1] as u64) << 16
    } else {
        0
    }
}
