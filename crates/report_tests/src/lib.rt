// Reports on a sample file, byte for byte, and what is printed of refusals, as tests.
// Tests stand in a crate of their own, since a crate with tests is proved twice.
#![tactic(auto)]

#[cfg(test)]
mod reports;
