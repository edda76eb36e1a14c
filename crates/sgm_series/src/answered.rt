ghost use Rattle.std.specs.Prelude.{◌≡◌, length};

use crate::making::Answer;
use sgm_list::Entry;

/// Entries before their turns, with what was made for each.
#[derive(Drop)]
pub struct Answered<'a> {
    pub(crate) entries: &'a [Entry],
    pub(crate) answers: Vec<Answer>,
    ghost count: { length answers.items ≡ length entries.now },
}

/// An entry at its turn, with what was made for it.
#[derive(Drop)]
pub struct Turn<'a> {
    pub(crate) entry: &'a Entry,
    pub(crate) answer: Answer,
}
