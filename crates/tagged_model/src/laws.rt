//! Laws of maps. Each law is the contract of a function that does nothing.

ghost use Rattle.std.specs.Prelude.{ℕ, List};
ghost use Rattle.tagged_model.specs.MapLaws.{CallsRefineValues, MapVerdictsMatchLookUps};

/// A law, the refinement of maps. Take a map from keys to numbers, and a function of these numbers. A second map has the same keys, each
/// with the function's value for its number. Each operation gives the same result on both maps, with the function's value for a number, and
/// changes both alike: the creation of a map, a look-up, the next key, a new key, a delete, the end of a run, and what a map decides on an
/// update or a delete. That is an error, or the number of the present key; for an update also that the key is new. `numbers` is for
/// functions to numbers: the proofs of `call` and `call_in_run` of `bpf_helpers` need it for the function from the number that a map's
/// value has in the tagged machine to its element. `bytes` is for functions to bytes: the proofs of `look_up`, `update`, `delete` and
/// `next_key` of `Tenant` need it for the function from an element to the bytes of its value. So a map from keys to elements can be used
/// instead of a map from keys to bytes.
pub fn calls_refine_values()
    ensures numbers { CallsRefineValues ℕ ℕ }
    ensures bytes { CallsRefineValues ℕ (List ℕ) }
{}

/// A law: what a map decides on an update, its verdict, agrees with the look-up of the key. An object is what a map has for a key: a
/// number, as that of an element (`numbers`), or the bytes of a value (`bytes`). If the verdict is that the key is present with an object,
/// the look-up finds this object; if it is that the key is new, the look-up finds none. The third verdict, a refusal with an error, never
/// has the error `Memory`. The proof that an update changes a map of elements and its map of values alike needs this
/// (`live_maps_refine_values` of `bpf_maps`).
pub fn map_verdicts_match_look_ups()
    ensures numbers { MapVerdictsMatchLookUps ℕ }
    ensures bytes { MapVerdictsMatchLookUps (List ℕ) }
{}
