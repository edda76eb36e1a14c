ghost use Rattle.std.specs.Prelude.{◌≤◌};
ghost use Rattle.sgm_base.specs.declared.limits.TheConstants.{MAX_STRIPS, MAX_WORKERS};

use sgm_base::Refine;

/// What is asked of a map beside its scene: into how many strips the image is cut, how many workers
/// share the work, and how the map is refined.
#[derive(Clone, Copy)]
pub struct Asked {
    pub strips: u32,
    pub workers: u32,
    pub refine: Refine,
    ghost some_strips: { 1 ≤ strips },
    ghost few_strips: { strips ≤ MAX_STRIPS },
    ghost some_workers: { 1 ≤ workers },
    ghost few_workers: { workers ≤ MAX_WORKERS },
}
