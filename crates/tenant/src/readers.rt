//! What a tenant has: its open objects, its live maps, and their keys and values.

ghost use Rattle.std.specs.Prelude.{◌≡◌, ◌≤◌, ℕ, List, IsSome, IfSome, is_some, length, option_map};
ghost use Rattle.std.specs.Map.{values_of};
ghost use Rattle.std.specs.Option.{option_copied};
ghost use Rattle.bpf_maps.specs.declared.part.TheConstants.{PART};
ghost use Rattle.bpf_maps.specs.Live.{live_at, keys_at, shape_at, map_in};
ghost use Rattle.bpf_maps.specs.KeyTable.{occurrences};
ghost use Rattle.fd_table.specs.Table.{named};
ghost use Rattle.ordered_keys.specs.Orders.{next_entry};
ghost use Rattle.tenant.specs.Costs.{HasCost};
ghost use Rattle.tenant.specs.Entry.{numbered_entries, lent_entry};
ghost use Rattle.tenant.specs.Kept.{state_in};
ghost use Rattle.tenant.specs.State.{live};

use crate::object::{OpenObject, program_at};
use crate::tenant::Tenant;
use bpf_maps::{KeyRef, MapKey, PART};
use tagged_model::MapShape;
use verifier::Cost;

/// An entry of a live map: a key, the bytes of its value, and the number of the value's element.
#[derive(Drop)]
pub struct MapEntry<'a> {
    pub key: KeyRef<'a>,
    pub value: &'a [u8],
    pub element: u32,
}

impl Tenant {
    /// The object that the descriptor `fd` names, a map by its handle or a loaded program; `None` if `fd` is not open. The crate `saving`
    /// gets objects by this function. The result is a reference, and `option_copied` is the object to which it refers.
    pub fn object(&self, fd: u32) -> Option<&OpenObject>
        ensures { option_copied result ≡ named self.now.objects fd }
    {
        self.objects.get(fd)
    }

    /// The cost of the program that the descriptor `fd` names: the most instructions, and the most calls of helpers, on a path from slot 0
    /// to an exit, so no run executes more. `None` exactly if `fd` names a map or is not open. `HasCost` is this relation between what `fd`
    /// names (`named`) and the result. No command asks for the cost, only callers of the library do (`Host::program_cost`).
    #[tactic(auto, using(crate::proofs::Bounds::cost_of_program, crate::proofs::Bounds::cost_otherwise))]
    pub fn program_cost(&self, fd: u32) -> Option<Cost>
        ensures { HasCost (named self.now.objects fd) result }
    {
        match program_at(&self.objects, fd) {
            Ok(program) => Some(program.program().cost()),
            Err(_) => None,
        }
    }

    /// Whether the map of this handle is live. If it is, and only then, the state that the tenant and its part represent (`state_in`) has a
    /// map of this handle. The part may have any bytes (`part`), since the state has from them only the values of maps. `lives` of `saving`
    /// asks this of a map that was created earlier.
    pub fn is_live(&self, map: MapKey) -> bool
        ensures { (part : List ℕ) → result ≡ is_some (live (state_in part self.now) map) }
    {
        // For the proof: a law of the live maps, which does nothing.
        self.maps.maps_are_laid();
        self.maps.is_live(map)
    }

    /// The shape of the map of handle `map`; `None` if no live map has this handle. A save needs the shape for the frame that creates the
    /// map. A shape that is returned is that of the live map (`shape`). By `state`, the state that the tenant and any bytes of its part
    /// represent has a map of this handle exactly if the result is a shape. This map has the keys of the live map, each with the bytes of
    /// its value in the part.
    pub fn map_shape(&self, map: MapKey) -> Option<MapShape>
        ensures shape { IfSome result (λ shape. IsSome (live_at self.now.live map)
            × (shape ≡ shape_at self.now.live map)) }
        ensures state { (part : List ℕ) → live (state_in part self.now) map
            ≡ option_map (λ shape. map_in part self.now.live map) result }
    {
        // For the proof: a law of the live maps, which does nothing.
        self.maps.maps_are_laid();
        if self.maps.is_live(map) {
            Some(self.maps.shape(map))
        } else {
            None
        }
    }

    /// How many keys the map of handle `map` has: the entries of its table of keys (`keys_at`); 0 if the map is not live. A save is made in
    /// parts, and a part puts at most `KEYS_PER_SAVE_PART` keys (`saving`) into a map. So a save computes from this number how many parts
    /// the map's keys take.
    pub fn key_count(&self, map: MapKey) -> u32
        ensures { result ≡ length (keys_at self.now.live map).entries }
    {
        self.maps.key_count(map)
    }

    /// The entry of a map after the key whose element is `after`, or the first entry if `after` is `None`. The order is that of the indices
    /// in an array, and that of insertion in a hash map; a save gets all entries by passing the element of each result to the next call.
    /// The value is borrowed from `part`, the tenant's part of `PART` bytes. `None` if no entry follows, if no key has this element, if the
    /// map is not live, and for a part of another size. `entry`: the result, with lists for its borrowed bytes (`lent_entry`), is the one
    /// after `after` among all entries of the map (`numbered_entries`: each has a key, its value and its element). `once`: no element `p`
    /// occurs twice in the list of their elements (`values_of`), so `after` means one key.
    pub fn map_entry<'a>(
        &'a self,
        map: MapKey,
        after: Option<u32>,
        part: &'a [u8],
    ) -> Option<MapEntry<'a>>
        ensures entry { length part.now ≡ PART → option_map lent_entry result
            ≡ next_entry after (numbered_entries part.now self.now.live map) }
        ensures once { (p : ℕ) →
            occurrences p (values_of (numbered_entries part.now self.now.live map)) ≤ 1 }
    {
        // For the proof: a law of the live maps, which does nothing.
        self.maps.maps_are_laid();
        if part.len() != PART {
            return None;
        }
        if !self.maps.is_live(map) {
            return None;
        }
        let Some(entry) = self.maps.entry_after(map, after) else {
            return None;
        };
        let (key, element) = entry;
        let size = self.maps.shape(map).value_size as usize;
        let start = self.maps.value_at(map, element);
        Some(MapEntry {
            key,
            value: &part[start..start + size],
            element,
        })
    }
}
