//! Laws of the parts. Each is the contract of a function that does nothing.

ghost use Rattle.arena.specs.Apart.{WritesStayInside, PartsAreApart, WritesAreInParts, AccessesAreInParts};

/// A law, for isolation: bytes written into the memory within one part leave every other part unchanged.
pub fn writes_stay_inside()
    ensures { WritesStayInside }
{}

/// A law: if all bytes of a part are replaced by as many others, as by a caller that writes to the slice of `part_mut`, the part has the
/// new bytes, and every other part and the size of the arena are unchanged. So a command that gets its tenant's part for writing changes no
/// part of another tenant (`reply_to_command` of `saving`).
pub fn parts_are_apart()
    ensures { PartsAreApart }
{}

/// A law about a write of bytes that all lie in one part. If they are written into the memory, the part's bytes change only at the offset
/// of the write in the part, to the new bytes (field `bytes` of `WritesAreInParts`), and the size of the memory is unchanged (`size`). If
/// they are written at this offset of the slice that `part_mut` lends, the memory is afterwards the same as after the write into the memory
/// (`memory`). So a function that writes to this slice, as `write_zeros` of `bpf_helpers`, is proved to write into the memory.
pub fn writes_are_in_parts()
    ensures { WritesAreInParts }
{}

/// A law: if all bytes that an access names by its addresses lie in one part, the access is never `None`, and reads or changes only bytes
/// of this part. A load returns the number that the loaded bytes make, little-endian. A store of n bytes writes the low n bytes of its
/// number, and a copy writes the bytes of its source range, which lies in the same part. Nothing else in the part changes, and no other
/// part. With this law, a caller can prove from public contracts what an access does to a tenant's part. The proofs of `store_within` and
/// `copy_within` in `contract_clients.rt` show that it can; no code calls these two functions.
pub fn accesses_are_in_parts()
    ensures { AccessesAreInParts }
{}
