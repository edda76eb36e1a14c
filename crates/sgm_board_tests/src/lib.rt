//! The tests of `sgm_strip`, `sgm_trace`, `sgm_board` and `sgm_work`, which call them from outside.
//! They stand apart from these, since a crate that has tests is proved a second time with them.
#![tactic(auto)]

#[cfg(test)]
mod tests;
#[cfg(test)]
mod trace;
