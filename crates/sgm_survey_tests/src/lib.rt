//! The tests of the crates that a survey is made of, from `sgm_base` to `sgm_job`, and of
//! `sgm_merge`, which call them from outside; those of strips and workers are in
//! `sgm_board_tests`. They stand apart from them, since a crate that has tests is proved a second
//! time with them, and in one crate, since each check reads the libraries anew.
#![tactic(auto)]

#[cfg(test)]
mod asc;
#[cfg(test)]
mod base;
#[cfg(test)]
mod calib;
#[cfg(test)]
mod census;
#[cfg(test)]
mod check;
#[cfg(test)]
mod energy;
#[cfg(test)]
mod filling;
#[cfg(test)]
mod fixtures;
#[cfg(test)]
mod grid;
#[cfg(test)]
mod height;
#[cfg(test)]
mod io;
#[cfg(test)]
mod job;
#[cfg(test)]
mod lanes;
#[cfg(test)]
mod merge;
#[cfg(test)]
mod path;
#[cfg(test)]
mod pgm;
#[cfg(test)]
mod rectify;
#[cfg(test)]
mod refine;
#[cfg(test)]
mod report;
#[cfg(test)]
mod select;
