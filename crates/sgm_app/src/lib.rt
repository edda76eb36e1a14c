//! The tool: from the words to the files, the summary and the line of the outcome.
#![tactic(auto)]

mod certificate;
mod crew;
mod demo;
pub mod laws;
mod pipeline;
mod refused;
mod top;
mod trace;

pub use pipeline::texts;
pub use sgm_base::Refine;
pub use sgm_outcome::{Outcome, Refusal, write_fault};
pub use sgm_stages::{
    Delivery, FetchStop, Inputs, MadeTexts, OutputText, TextsError, WriteStop, deliver, gather,
    name_texts, pair,
};
pub use sgm_words::{Input, Options, Output, UsageFault, read_words};
pub use top::run;
