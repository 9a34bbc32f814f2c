//! Tests that no program of cases can make: readers and writers that fail.
#![tactic(auto)]

#[cfg(test)]
mod streams;
