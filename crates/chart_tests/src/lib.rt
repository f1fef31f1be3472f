// Charts and chart files: every refusal that an edit or a file can give, and where a file's fault is, as tests.
// Tests stand in a crate of their own, since a crate with tests is proved twice.
#![tactic(auto)]

#[cfg(test)]
mod edits;
#[cfg(test)]
mod files;
