//! The helpers, functions that a program may call (the kernel's bpf_func_id).

ghost use Rattle.std.specs.Prelude.{◌≡◌, pos};
ghost use Rattle.tagged_model.specs.Helpers.{helper_of};

/// A helper.
#[derive(Clone, Copy, Debug, PartialEq, Eq)]
pub enum Helper {
    /// 1, bpf_map_lookup_elem: returns a pointer to the value of a key, or null.
    LookUp,
    /// 2, bpf_map_update_elem: stores a value under a key, and returns 0 or a negated error.
    Update,
    /// 3, bpf_map_delete_elem: deletes a key, and returns 0 or a negated error.
    Delete,
    /// 26, bpf_skb_load_bytes: copies bytes of the packet to the stack or a value, and returns 0 or a negated error.
    LoadBytes,
}

impl Helper {
    ghost use Rattle.tagged_model.specs.Helpers.{id_of};

    /// The helper's number in bpf_func_id, by which a call names the helper. `pos` makes the natural number `id_of` an integer.
    pub fn id(self) -> i32
        ensures { result ≡ pos (id_of self) }
    {
        match self {
            Helper::LookUp => 1,
            Helper::Update => 2,
            Helper::Delete => 3,
            Helper::LoadBytes => 26,
        }
    }
}

/// The helper with the number `id` in bpf_func_id; `None` for a number that no `Helper` has: the verifier rejects a program that calls such
/// a number.
#[tactic(auto, unfolding(crate::specs::Helpers::known_helpers))]
#[inline(always)]
pub fn known_helper(id: i32) -> Option<Helper>
    ensures { result ≡ helper_of id }
{
    match id {
        1 => Some(Helper::LookUp),
        2 => Some(Helper::Update),
        3 => Some(Helper::Delete),
        26 => Some(Helper::LoadBytes),
        _ => None,
    }
}
