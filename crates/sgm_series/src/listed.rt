ghost use Rattle.std.specs.Prelude.{◌≤◌, length};
ghost use Rattle.sgm_list.specs.declared.limits.TheConstants.{MAX_ENTRIES};

use sgm_list::Entry;

/// What a list and the words ask for: the entries, and how many workers make their texts.
#[derive(Clone, Copy)]
pub struct Listed<'a> {
    pub(crate) entries: &'a [Entry],
    pub(crate) workers: u32,
    ghost few: { length entries.now ≤ MAX_ENTRIES },
    ghost one_or_two: { (1 ≤ workers) × (workers ≤ 2) },
}
