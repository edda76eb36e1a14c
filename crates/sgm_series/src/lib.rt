//! A series of pairs: from the words and the list to the files, the summaries and the lines of all
//! entries.
#![tactic(auto)]

mod answered;
mod entries;
pub mod laws;
mod limits;
mod lines;
mod listed;
mod making;
mod outcome;
mod series;
mod turns;
mod words;
mod workshop;

pub use lines::write_series_outcome;
pub use outcome::SeriesOutcome;
pub use series::run_series;
pub use sgm_batch::{Inputs, Piece, work_batch};
pub use sgm_draws::{Draws, Ticket};
pub use sgm_list::{Entry, ListError, ListFault, read_list};
pub use words::{SeriesUsage, SeriesWords, read_series_words};
