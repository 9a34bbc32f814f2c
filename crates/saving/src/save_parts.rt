//! The parts of a save: what each one does, and which part has an index.

ghost use Rattle.std.specs.Prelude.{◌≡◌, ◌<◌, ◌^◌, ℕ, List, length, option_map, slice_get};
ghost use Rattle.tenant.specs.Kept.{state_in};
ghost use Rattle.saving.specs.SaveParts.{birth_parts, key_commands};
ghost use Rattle.saving.specs.inside.PartCommands.{ordered_parts, part_commands};

use crate::birth::Birth;
use bpf_maps::MapKey;
use tenant::Tenant;

/// The most keys that one part of a save puts into a map, so that a part takes less time than the slowest frame: with 4,096 keys of 512
/// bytes it took more than a millisecond.
pub(crate) const KEYS_PER_SAVE_PART: usize = 1_024;

/// What the frames of a part of a save do.
#[derive(Clone, Copy)]
pub(crate) enum SavePart {
    /// Opens a program at each descriptor of a new tenant.
    Filling,
    /// Closes the descriptor of a birth and creates its object there: a program, or a map without keys, which other parts put.
    Creation(Birth),
    /// Puts keys of this map of the saved tenant into the map at this descriptor of the new one: at most `KEYS_PER_SAVE_PART`, from the key
    /// with this index on.
    Keys(MapKey, u32, usize),
    /// Closes the descriptors that are not open in the saved tenant.
    Closing,
}

/// The number of keys that the map of a birth has; 0 for the birth of a program. `count_of_parts` and `part_of_birth` divide these keys
/// among parts of a save. The map of a recorded birth is live; for a map that is not live the result is 0. A save puts each key by one
/// command (`key_commands`): `count` says that the result is the number of these commands, for any bytes in `part`, the tenant's part of
/// the arena. `small`: the result fits in 32 bits, so that in `part_of_birth` a saturated product is past the last key.
fn key_count(tenant: &Tenant, birth: Birth) -> usize
    ensures count { (part : List ℕ)
        → result ≡ length (key_commands (state_in part tenant.now) birth) }
    ensures small { result < 2 ^ 32 }
{
    let Birth::OfMap(map, _) = birth else {
        return 0;
    };
    match tenant.map_shape(map) {
        Some(_) => tenant.key_count(map) as usize,
        None => 0,
    }
}

/// The number of parts of a save for one birth: one creates its object, each other one puts at most `KEYS_PER_SAVE_PART` of the object's
/// keys. So it is 1 for a program, and for a map without keys. By it `part_at` passes over the parts of a birth. In the contract, `part` is
/// no part of a save, but the tenant's part of the arena, with any bytes: the number does not depend on values.
fn count_of_parts(tenant: &Tenant, birth: Birth) -> usize
    ensures { (part : List ℕ) → result ≡ length (birth_parts (state_in part tenant.now) birth) }
{
    1 + key_count(tenant, birth).div_ceil(KEYS_PER_SAVE_PART)
}

/// The part with this index, from 0, among the parts of a save for one birth, a map's creation or a program's load. Part 0 creates the
/// object, and each later one stores the map's next keys with their values, at most `KEYS_PER_SAVE_PART`. `None` after the last; for a
/// program, and for a map without keys, there is only part 0. By the contract the commands of the result (`part_commands`) are those that
/// the definition `birth_parts` lists at this index, for the tenant's state (`state_in`). There `part` is no part of a save but the
/// tenant's bytes of the arena, which may be any.
fn part_of_birth(tenant: &Tenant, birth: Birth, index: usize) -> Option<SavePart>
    ensures { (part : List ℕ) → option_map (part_commands (state_in part tenant.now)) result
        ≡ slice_get (birth_parts (state_in part tenant.now) birth) index }
{
    let Some(piece) = index.checked_sub(1) else {
        return Some(SavePart::Creation(birth));
    };
    let Birth::OfMap(map, fd) = birth else {
        return None;
    };
    // If this saturates, no map has so many keys, and there is no such part.
    let first = piece.saturating_mul(KEYS_PER_SAVE_PART);
    if first < key_count(tenant, birth) {
        Some(SavePart::Keys(map, fd, first))
    } else {
        None
    }
}

/// What part `index`, from 0, of a save does, if the saved tenant has these births, the oldest first; `None` after the last part. The
/// frames of the parts restore the tenant in a new one. Part 0 opens a program at each descriptor there, so that none is free. Then come
/// the parts of each birth. The first closes the birth's descriptor and creates its object, which gets this descriptor, as no other is
/// free. If the object is a map, each other part puts at most `KEYS_PER_SAVE_PART` of its keys. The last part of the save closes the
/// descriptors that are not open in the saved tenant. In the contract, `ordered_parts` lists the commands of all parts, and `part_commands`
/// has those of the result; `part` is no part of a save but the saved tenant's bytes of the arena, which may be any.
pub(crate) fn part_at(tenant: &Tenant, births: &[Birth], index: usize) -> Option<SavePart>
    ensures { (part : List ℕ) → option_map (part_commands (state_in part tenant.now)) result
        ≡ slice_get (ordered_parts (state_in part tenant.now) births.now) index }
{
    let Some(mut left) = index.checked_sub(1) else {
        return Some(SavePart::Filling);
    };
    for birth in births {
        match part_of_birth(tenant, *birth, left) {
            Some(part) => return Some(part),
            // This birth has at most `left` parts, and the part comes after them.
            None => left -= count_of_parts(tenant, *birth),
        }
    }
    if left == 0 {
        Some(SavePart::Closing)
    } else {
        None
    }
}
