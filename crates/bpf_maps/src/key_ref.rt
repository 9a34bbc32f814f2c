//! The next key, as a map returns it.

ghost use Rattle.std.specs.Prelude.{◌≡◌, ◌≤◌};
ghost use Rattle.words.specs.Bytes.{low_bytes};
ghost use Rattle.bpf_maps.specs.KeyRef.{key_bytes};

use std::marker::Model;

/// A key of at most eight bytes. Contracts see its bytes.
#[derive(Drop)]
pub struct ShortKey {
    // The first `length` are those of the key.
    bytes: [u8; 8],
    length: usize,
}

impl Model for ShortKey {
    ghost use Rattle.std.specs.Prelude.{ℕ, ◌≤◌, List, take};

    ghost Value = { List ℕ };

    ghost view = { λ k. take k.length k.bytes };

    ghost invariant = { λ k. k.length ≤ 8 };
}

impl ShortKey {
    /// Makes a key of the lowest `length` bytes of `word`, the lowest byte first. Callers pass an index into an array, or the number as
    /// which `WordIndex` keeps a key of a hash map. `length`, the size of the map's keys, is at most eight, the number of bytes of a word.
    pub(crate) fn of_word(word: u64, length: usize) -> ShortKey
        requires { length ≤ 8 }
        ensures { result ≡ low_bytes length word }
    {
        ShortKey {
            bytes: word.to_le_bytes(),
            length,
        }
    }

    /// The bytes of the key: the first `length` of the eight bytes in the field `bytes`.
    fn bytes(&self) -> &[u8]
        ensures { result.now ≡ self.now }
    {
        &self.bytes[..self.length]
    }
}

/// A key that a map returns: a short one by value, a longer one borrowed from the map.
#[derive(Drop)]
pub enum KeyRef<'a> {
    Short(ShortKey),
    Lent(&'a [u8]),
}

impl<'a> KeyRef<'a> {
    /// The bytes of the key: of a short one (`Short`) those that this value has, of a longer one (`Lent`) those in the map.
    pub fn bytes(&self) -> &[u8]
        ensures { result.now ≡ key_bytes self.now }
    {
        match self {
            KeyRef::Short(key) => key.bytes(),
            KeyRef::Lent(bytes) => bytes,
        }
    }
}
