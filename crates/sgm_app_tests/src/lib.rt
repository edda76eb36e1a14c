//! The tests of `sgm_words`, `sgm_outcome`, `sgm_list` and `sgm_app`, which call them from outside.
//! They stand apart from them, since a crate that has tests is proved a second time with them.
#![tactic(auto)]

#[cfg(test)]
mod list;
#[cfg(test)]
mod outcome;
#[cfg(test)]
mod pair;
#[cfg(test)]
mod tests;
#[cfg(test)]
mod words;
