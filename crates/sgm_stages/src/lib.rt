//! The stages of a run: the inputs are gathered and judged, texts made and named, files and summary
//! delivered; and the commands that go through them without a survey, `change` and `merge`.
#![tactic(auto)]

mod change;
mod change_pipeline;
mod delivery;
mod entries;
mod files;
mod gathering;
mod generated;
mod judge;
mod made;
mod merge;
mod merge_plan;
mod stops;

pub use change::run_change;
pub use delivery::{deliver, deliver_summary};
pub use files::{Delivery, OutputText, name_texts};
pub use gathering::{Inputs, gather};
pub use generated::pair;
pub use judge::{Judged, judge_pair};
pub use made::{MadeTexts, demo_text};
pub use merge::run_merge;
pub use sgm_outcome::{Outcome, Refusal};
pub use sgm_words::{Input, Output};
pub use stops::{FetchStop, TextsError, WriteStop};
