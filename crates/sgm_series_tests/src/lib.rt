//! The tests of `sgm_draws`, `sgm_queue`, `sgm_batch` and `sgm_series`, which call them from
//! outside. They stand apart from them, since a crate that has tests is proved a second time with
//! them.
#![tactic(auto)]

#[cfg(test)]
mod batch;
#[cfg(test)]
mod draws;
#[cfg(test)]
mod queue;
#[cfg(test)]
mod tests;
