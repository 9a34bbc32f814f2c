//! The helpers that a program may call, on words and bytes.
//!
//! One relation (`Simulates`) says which words and bytes of the machine (`FlatState`: slot, registers, memory and live maps)
//! simulate a state of the tagged machine, for the inputs of a run (`Environment`) and a layout that gives each object its
//! address. A number is its word, a pointer an address, a map its position among the program's maps, from 1 on; a spilled
//! pointer is its word; bytes of the stack, of values and of the context that are present are equal. The relation is for
//! proofs: no reply depends on it.
//!
//! # What is proved
//!
//! - A call simulates the call on tagged values, if its words simulate values for which that is defined. Then all maps keep their
//!   areas and reference counts, those that the run does not name their keys and values, and the other parts all bytes; the flag
//!   of refused memory stays: `follows` of `call`.
//! - If a word names no map of the run, or bytes that are not in the tenant's part, a look-up returns null, an update and a
//!   delete EINVAL, a load of bytes EFAULT, and nothing changes: `unnamed` of `call`.
//! - A run that knows which of its maps are arrays, and the addresses of their elements, looks keys up like `call`: `follows`,
//!   `unnamed`, `kept` of `call_in_run`. If the machine's call has a result, its words name all that the helper needs:
//!   `calls_name_all`. So a run updates and loads bytes of the packet without a test of a word: `follows`, `maps`, `apart`.
//! - Each range that a call requests is in the tenant's part: `asks` of `call`.
//! - When the machine loads or stores a value, the address of the access is in the part; the bytes there are a word that
//!   simulates the loaded value, and with the word of the stored value they simulate the next state: `loads_give_words`,
//!   `stores_keep_simulation`.
//! - Objects begin at addresses from 2^32 on, and within 2^28 of it: `object_addresses_are_bounded`.
//! - When a run begins, on live maps with the bytes of their values, words and bytes simulate the machine's first state. When
//!   it ends, its maps have the pairs that the machine leaves, and the values of all other maps their bytes: `runs_begin`,
//!   `runs_end`, `others_stay`.
//!
//! That a call records each range that it borrows is read in the code, not proved.
//!
//! # Decisions
//!
//! - A word represents a pointer only within 2^29 bytes of its object (`IsWord`), as every pointer of a run is: the tagged
//!   machine moves none farther (`moved`). So the word of a pointer is the sum of the address and the offset, is never 0, and
//!   never wraps.
//! - `call` returns a word whatever its arguments name: null, EINVAL or EFAULT if they name no map or bytes outside the part,
//!   which does not happen in an accepted program (`NamesNothing`, `unnamed_result`); then nothing changes. No `Option` or `Result`
//!   is built and taken apart for the result, and a run has no arm for a call that faults. A look-up returns its address at once
//!   (`address_of`). bench/FIGURES.md has the cost of calls.
//! - An update and a load of bytes by a run test no word, since the verifier has: that the words name a map, and bytes of the part for
//!   the key, the value or what is loaded, is the condition of `call_in_run` (`IsInRun`), as that of a load or a store of a program is
//!   that its bytes lie in the part. A look-up has no such condition, and returns 0 whatever its words name (`unnamed`).
//! - The other calls test a word and an address once: the number of the map and the offset in the tenant's part are each one wrapping
//!   difference and one comparison, since a key and a value of a map are never longer than a part (`sizes_fit_in_parts`).
//!   What `put` copies is known to be in the part (`copy_inside` of `arena`), and eight bytes are one number.
#![tactic(auto)]

mod arrays;
mod caller;
mod calls;
mod delete;
mod known_answers;
pub mod laws;
mod look_up;
mod output;
mod update;

pub use arrays::Arrays;
pub use caller::RunCaller;
pub use calls::{call, call_in_run};
