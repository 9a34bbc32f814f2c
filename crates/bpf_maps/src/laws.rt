//! Laws of tables of keys and of live maps. Each law is the contract of a function that does nothing.

ghost use Rattle.std.specs.Prelude.{ℕ, List};
ghost use Rattle.bpf_maps.specs.Laws.{SizesFitInParts, CallsAreThoseOfAMap, WritesRefineValues};
ghost use Rattle.bpf_maps.specs.Laws.{ValuesAgree, ElementsAreWithin, AreasKeepElements, DeletesKeepElements};
ghost use Rattle.bpf_maps.specs.InPart.{ValuesAreWritten, LiveMapsRefineValues};

/// A law: a table of keys, as stored, changes as `Table` of `tagged_model` defines it for a map. There a map has a shape, a list of keys,
/// each with an object, anything that represents the key's value, and the number of objects deleted in this run. `table_of` is the map that
/// a table of keys represents: it has the same keys, the object of a key is the key's element, and each element that is kept apart counts
/// as a deleted object. The record `CallsAreThoseOfAMap` has four statements. A new table of keys represents a new map (`new`). If a table
/// of keys gets a new key (`update`), loses a key, whose element is then kept apart (`delete`), or ends a run (`end`), the map that it
/// represents changes as the definition says. So a contract that states how a table of keys changes, as that of `Maps::end_run`, also
/// states it of a map.
pub fn calls_are_those_of_a_map()
    ensures { CallsAreThoseOfAMap }
{}

/// A law: if bytes are written as the value of a key's element, then in the map from keys to values this key has these bytes as its value,
/// and nothing else changes. The table of keys has to be sound (`IsSound`), so that no two of its keys have the same element. The argument
/// of `WritesRefineValues` is the type of a value: here a list of bytes. The law is a part of the refinement of maps: the table of
/// elements, as stored, and the map of values, as meant, change alike.
pub fn writes_refine_values()
    ensures { WritesRefineValues (List ℕ) }
{}

/// Laws: if two functions give the same value to each element that a key of a table has, the maps from keys to values that they make of the
/// table are equal. `numbers` states this for values that are numbers, `bytes` for values that are lists of bytes. In a sound table
/// (`IsSound`), an element that a key has, or that is kept apart, is less than `max_entries` (`within`). So two contents of a tenant's part
/// give the same map if the values of all elements below `max_entries` have the same bytes in both.
pub fn values_agree()
    ensures numbers { ValuesAgree ℕ }
    ensures bytes { ValuesAgree (List ℕ) }
    ensures within { ElementsAreWithin }
{}

/// A law, for a change of a tenant's live maps. If each map that is live after the change was live before, with an equal shape, an equal
/// start of its area and an equal distance from value to value (`SameAreas`), the value of each of its elements keeps its offset in the
/// tenant's part (`offset_at`). Proofs use the law for an update and for the end of a run, which change no area.
pub fn areas_keep_elements()
    ensures { AreasKeepElements }
{}

/// A law: a deletion frees no element. The element of the deleted key is kept apart, and only `end_run` frees it, after the run, or at once
/// after a delete command. So for each element the number of keys that have it, plus how often it is kept apart, is not changed by the
/// removal of a key. Proofs about runs need this: an element to which a run has a pointer is still in use after the deletion of its key, so
/// no other key gets it before the end of the run.
pub fn deletes_keep_elements()
    ensures { DeletesKeepElements }
{}

/// A law, for each shape that a map may have (`MapShape`): the size of a key and the size of a value are each at most `PART`, the size of a
/// tenant's part. Helpers call it before they test whether the bytes of a key or a value lie in the part: the test compares their offset
/// with `PART` less their size, a difference that can't be negative.
pub fn sizes_fit_in_parts()
    ensures { SizesFitInParts }
{}

/// A law, which `Tenant::update` of `tenant` needs: once bytes are written as the value of an element of a live map, they are the value of
/// this element, and of its key if it has one. No other value of a live map changes, nor do the stack and the context. The premises
/// (`IsValueAt`): the bytes are as many as a value of the map has, the element is less than `max_entries`, the part has `PART` bytes,
/// values of live maps do not overlap, and no two keys of a map have the same element.
pub fn values_are_written()
    ensures { ValuesAreWritten }
{}

/// A law, the refinement of maps, for a change after which each live map has the shape and the area that it had before. A live map has a
/// table of keys, each with its element, and a map of values: the same keys, each with the bytes of its element in the tenant's part. If
/// the table is unchanged, the map of values is, too. If the table loses a key, whose element is then kept apart, the map of values loses
/// it, and has one more deleted value, which counts as an entry until the run ends. If the table ends a run, no element is kept apart, and
/// no deleted value counts any more. If the table claims an element for a key, and the element's value is then written, the map of values
/// gets this value for the key. The proofs of `Tenant::update` and `Tenant::delete` use the law. The proof of the law needs two laws of
/// `tagged_model`. A call of bpf(2) changes a map of elements and its map of values alike (`calls_refine_values`). If a map decides on an
/// update that the key is present with some element, the look-up of the key finds this element (`map_verdicts_match_look_ups`), so a value
/// written there is the value of the key.
pub fn live_maps_refine_values()
    ensures { LiveMapsRefineValues }
{
    tagged_model::laws::calls_refine_values();
    tagged_model::laws::map_verdicts_match_look_ups();
}
