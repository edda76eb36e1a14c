//! What follows from the definitions alone. Each function is a theorem: its clauses speak of every
//! grid and every list of entries, and its body is empty.

ghost use Rattle.std.specs.Prelude.{◌≡◌, ◌<◌, ◌∷◌, [], ℕ, List, fold};
ghost use Rattle.std.specs.List.Sorted.{IsPermutation};
ghost use Rattle.sgm_grid.specs.declared.grid_spec.GridSpec.{GridSpec};
ghost use Rattle.sgm_grid.specs.declared.keep.Keep.{Keep};
ghost use Rattle.sgm_grid.specs.Cells.{Cells, IsCells, IsGridSpec, height_at};
ghost use Rattle.sgm_merge.specs.Merged.{corner, cut_to, height_over, merged};
ghost use Rattle.sgm_merge.specs.Merging.{grid_in, no_entries, with_entry};

/// After the entries of a list were added one by one, each cell holds what it keeps of the heights
/// that the entries have there, or is empty where none has one.
pub fn entries_are_merged()
    ensures { (keep : Keep) (spec : GridSpec) (entries : List Cells) → IsGridSpec spec
        → grid_in (fold with_entry (no_entries keep spec) entries) ≡ merged keep spec entries }
{}

/// The order of the entries doesn't matter.
pub fn order_is_free()
    ensures { (keep : Keep) (spec : GridSpec) (entries others : List Cells)
        → IsPermutation entries others → merged keep spec others ≡ merged keep spec entries }
{}

/// One entry alone stays what it is over the cells of the merged grid, whatever cells keep.
pub fn one_entry_stays()
    ensures { (keep : Keep) (spec : GridSpec) (entry : Cells)
        → merged keep spec (entry ∷ []) ≡ cut_to spec entry }
{}

/// Over its own cells a grid stays what it is.
pub fn own_cells_stay()
    ensures { (entry : Cells) → IsCells entry → cut_to entry.spec entry ≡ entry }
{}

/// Where a cell of an entry and a cell of the merged grid have the same corner, the entry's height
/// at the one is its height at the other.
pub fn cells_meet()
    ensures { (spec : GridSpec) (entry : Cells) (col row entry_col entry_row : ℕ)
        → IsGridSpec entry.spec → entry_col < entry.spec.cols → entry_row < entry.spec.rows
        → corner spec col row ≡ corner entry.spec entry_col entry_row
        → height_over spec entry col row ≡ height_at entry entry_col entry_row }
{}
