//! The transfer function of each instruction: from the facts before it to those on the edges out of it, or the reason why it is
//! rejected.
//!
//! # What is proved
//!
//! - The facts on the edges out of an instruction at a slot, or the first of its conditions that fails, are those of the
//!   definition; a rejection leaves the facts unchanged: `ok`, `refused`, `stays` of `apply`. No stack slot changes but those
//!   that the flow names: `stack`.
//! - The transfer function is sound. Take facts that are well formed (ranges of words, look-ups at slots below) and allow an
//!   instruction that does not jump below slot 0, and a state that they admit and that has a map of each shape. Then the step
//!   on tagged values is no fault, the next state is at the end of the edge that the step takes, and the facts on that edge
//!   admit it: `transfer_is_sound`. The same holds for a call of each helper: `calls_are_sound`.
//! - Well-formed facts stay well formed on both edges: `transfer_keeps_well_formed`.
//! - Only a call is rejected for an unknown helper, only a load of a map or of a value of one for a descriptor that is no map,
//!   only a direct load of a value for a value that the map does not have, and no instruction for any other reason of shape or
//!   for memory: `transfer_reasons`, `effects_need_no_memory`.
#![tactic(auto)]

mod arithmetic;
mod branches;
mod calls;
mod effects;
pub mod laws;

pub use branches::{Flow, set_ranges};
pub use calls::LENGTHS_END;
pub use effects::apply;
