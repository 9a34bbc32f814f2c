//! Which states of the machine of tagged values facts admit. In terms of abstract interpretation, facts (`reg_kinds`, `interval`) are the
//! abstract domain, the states of `tagged_model` the concrete one, and `Admits` is the relation between them.
//!
//! `AdmitsBy` says which states facts admit: each register and each cell is what its kind says, and the result of a look-up is
//! one value in all its copies.
//!
//! # What is proved
//!
//! - The join of the facts on two edges admits what the facts on either admit: `join_admits`.
//! - A load from the stack that the facts allow gives a value of the kind that they say; a store that they allow leaves a state
//!   that the facts after it admit: `stack_read_admits`, `stack_write_admits`.
//! - Bytes that a helper may read are present. Bytes that it writes, a load and a store within a value, a change of a map and
//!   the result of a call leave what the facts after them admit: `stack_input_admits`, `stack_output_admits`,
//!   `value_read_is_no_fault`, `object_write_admits`, `value_load_admits`, `value_store_admits`, `map_calls_keep`,
//!   `map_change_admits`, `call_admits`, `site_admits`.
//! - After a null test of a look-up's result, the settled facts admit the state: `null_test_admits`.
//!
//! # Decisions
//!
//! - These laws are a crate of their own, so that the meaning of a program does not depend on what a verifier knows of it.
#![tactic(auto)]

pub mod laws;
