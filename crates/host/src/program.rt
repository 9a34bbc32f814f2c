//! The program: its arguments, its texts, its verdicts, its failures.

pub(crate) mod arguments;
mod decimal;
pub(crate) mod failure;
mod frames;
pub(crate) mod inputs;
mod judging;
pub(crate) mod shapes;
mod texts;
