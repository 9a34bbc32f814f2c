//! Keys of more than eight bytes, as an index keeps them and as they are looked up.

ghost use Rattle.std.specs.Prelude.{◌≡◌, ◌+◌, ◌≤◌, nat_eq, [], ◌∷◌, length};
ghost use Rattle.std.specs.Cmp.{on_equiv, on_per, partial_equiv_from_equiv};
ghost use Rattle.std.specs.Cmp.Lexicographic.{pointwise, nat_list_eq_equiv, bytes_decides};
ghost use Rattle.std.proofs.Common.{ap};

use ordered_keys::Equivalent;
use std::hash::{Hash, Hasher};
use std::marker::Model;

/// A key of at most `N` bytes, kept in an array of `N` bytes. Contracts see the bytes of the key.
#[derive(Clone, Copy)]
pub struct InlineKey<const N: usize> {
    // The first `size` are those of the key, and the others are 0.
    bytes: [u8; N],
    size: usize,
}

impl<const N: usize> Model for InlineKey<N> {
    ghost use Rattle.std.specs.Prelude.{◌≡◌, ◌-◌, ◌≤◌, ◌++◌, ℕ, List, length, take, drop, replicate};
    ghost use Rattle.bpf_maps.specs.InlineKeys.{padded, given_back};

    ghost Value = { List ℕ };

    ghost view = { λ k. take k.size k.bytes };

    ghost invariant = { λ k. (k.size ≤ N) × (length k.bytes ≡ N) × (drop k.size k.bytes ≡ replicate (N - k.size) 0) };

    ghost inverse = { λ bytes. record { bytes = padded N bytes; size = length bytes } };

    ghost inverse_ok = { λ k h i. let same = given_back N k.size k.bytes h.0 h.1 h.2 in record { bytes = same.0 i; size = same.1 i } };
}

impl<const N: usize> InlineKey<N> {
    /// Makes a key for an index to store: a copy of these bytes, at most `N`, and zeros after them, so that the bytes, which contracts see,
    /// determine the fields.
    #[inline(always)]
    pub(crate) fn copy_of(bytes: &[u8]) -> InlineKey<N>
        requires short { length bytes.now ≤ N }
        ensures { result ≡ bytes.now }
    {
        let mut own = [0; N];
        own[..bytes.len()].copy_from_slice(bytes);
        InlineKey {
            bytes: own,
            size: bytes.len(),
        }
    }

    /// The bytes of the key: the first `size` of the field `bytes`, without the zeros after them.
    #[inline(always)]
    pub(crate) fn bytes(&self) -> &[u8]
        ensures { result.now ≡ self.now }
    {
        &self.bytes[..self.size]
    }
}

impl<const N: usize> PartialEq for InlineKey<N> {
    ghost eq = { pointwise nat_eq };

    ghost laws = { partial_equiv_from_equiv nat_list_eq_equiv };

    /// Whether both keys have the same bytes. The zeros after the bytes of a key, which fill its array, are not compared.
    fn eq(&self, other: &InlineKey<N>) -> bool {
        self.bytes() == other.bytes()
    }
}

impl<const N: usize> Eq for InlineKey<N> {
    ghost laws = { nat_list_eq_equiv };
}

// Writes all bytes to the hasher by one call, since `SeededHasher` mixes sixteen bytes of a call at a time.
impl<const N: usize> Hash for InlineKey<N> {
    ghost hash_input = { λ k. k ∷ [] };

    ghost respects_eq = { λ x y h. ap (λ k. k ∷ []) ((bytes_decides x y).0 h) };

    /// Hashes the bytes of the key, without the zeros after them, which fill its array. A key that is looked up, a `KeyBytes`, has no such
    /// zeros, and needs the hash of the equal stored key.
    fn hash<H: Hasher>(&self, state: &mut H) {
        state.write(self.bytes());
    }
}

/// The bytes of a key that is looked up, borrowed. They equal an `InlineKey` that has the same bytes, and are hashed like it.
#[derive(Clone, Copy)]
pub(crate) struct KeyBytes<'a> {
    pub(crate) bytes: &'a [u8],
}

impl PartialEq for KeyBytes<'_> {
    ghost eq = { λ x y. pointwise nat_eq x.bytes.now y.bytes.now };

    ghost laws = { on_per (λ k. k.bytes.now) (partial_equiv_from_equiv nat_list_eq_equiv) };

    /// Whether two looked-up keys have the same bytes. `Hash` requires it; an index compares such a key with stored ones by `equivalent`.
    fn eq(&self, other: &KeyBytes<'_>) -> bool {
        self.bytes == other.bytes
    }
}

impl Eq for KeyBytes<'_> {
    ghost laws = { on_equiv (λ k. k.bytes.now) nat_list_eq_equiv };
}

// Contracts see what is hashed as `hash_input`, a list with an entry for each call of the hasher. Equal keys have one list (`respects_eq`).
impl Hash for KeyBytes<'_> {
    ghost hash_input = { λ k. k.bytes.now ∷ [] };

    ghost respects_eq = { λ x y h. ap (λ k. k ∷ []) ((bytes_decides x.bytes.now y.bytes.now).0 h) };

    /// Writes all bytes to the hasher by one call, as the `Hash` of `InlineKey` does: a key that is looked up has to get the hash of the
    /// equal key that is stored, and the hash depends on how bytes are divided into calls.
    fn hash<H: Hasher>(&self, state: &mut H) {
        state.write(self.bytes);
    }
}

impl<const N: usize> Equivalent<InlineKey<N>> for KeyBytes<'_> {
    ghost equivalent = { λ q k. pointwise nat_eq q.bytes.now k };

    ghost respects_hash = { λ q k h. ap (λ k. k ∷ []) ((bytes_decides q.bytes.now k).0 h) };

    ghost respects_eq = { λ q x y. nat_list_eq_equiv.congr q.bytes.now x y };

    // By this function the index map compares a key that is looked up, given as borrowed bytes, with a stored `key`: whether both have the
    // same bytes. So a look-up does not copy its bytes into an `InlineKey`.
    fn equivalent(&self, key: &InlineKey<N>) -> bool {
        self.bytes == key.bytes()
    }
}
