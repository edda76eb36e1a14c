ghost use Rattle.std.specs.Prelude.{◌≡◌, ◌↔◌, ◌+◌, ◌<◌, ◌≤◌, IfOk, IsTrue, length};
ghost use Rattle.std.specs.List.{list_all};
ghost use Rattle.sgm_energy.specs.Dirs.{number_of};
ghost use Rattle.sgm_energy.specs.Energies.{sum_done};
ghost use Rattle.sgm_energy.specs.Pens.{penalties_of};
ghost use Rattle.sgm_energy.specs.Rows.{HoldsRow};
ghost use Rattle.sgm_strip.specs.Cuts.{first_row, rows_of};
ghost use Rattle.sgm_strip.specs.Scenes.{problem_of, row_length};
ghost use Rattle.sgm_strip.specs.Parcels.{ParcelParts, IsParcel, IsComplete, RunsOn, is_done};
ghost use Rattle.sgm_strip.specs.Parcels.{level_done, parcel_of};

use crate::making::strip_rows;
use crate::{Cut, Guide, Scene};
use sgm_base::{Size, Span};
use sgm_energy::{Dir, Pen};
use std::alloc::{AllocError, Global};
use std::marker::Model;
use std::snapshot::Snapshot;

/// The costs and the sums of one strip: for each of its pixels, row by row, one of each index. The
/// sums are those of the path values over the directions that are done.
#[derive(Drop)]
pub struct Parcel {
    pub(crate) scene: Snapshot<Scene>,
    // What the scene has of these.
    pub(crate) size: Size,
    pub(crate) span: Span,
    pub(crate) pen: Pen,
    pub(crate) guide: Guide,
    pub(crate) cut: Cut,
    pub(crate) strip: u32,
    // By the direction's number.
    pub(crate) done: [bool; 8],
    pub(crate) costs: Vec<u8>,
    pub(crate) sums: Vec<u16>,
}

impl Model for Parcel {
    ghost Value = { ParcelParts };

    ghost view = { λ p. parcel_of p.scene.value p.cut p.strip p.done p.costs.items p.sums.items };

    ghost invariant = { λ p.
        IsParcel (parcel_of p.scene.value p.cut p.strip p.done p.costs.items p.sums.items)
        × RunsOn p.scene.value p.size p.span (penalties_of p.pen) p.guide };
}

/// The place of a direction in a set.
pub(crate) fn place(dir: Dir) -> usize
    ensures value { result ≡ number_of dir }
    ensures inside { result < 8 }
{
    dir as usize
}

/// Whether each truth value is true.
fn are_all(values: &[bool]) -> bool
    ensures { result ≡ list_all (λ value. value) values.now }
{
    values.iter().all(|value| *value)
}

impl Parcel {
    /// The parcel of a strip, in which the two level directions are done.
    pub fn make(alloc: Global, scene: &Scene, cut: Cut, strip: u32) -> Result<Parcel, AllocError>
        requires cut { cut.height ≡ scene.now.left.height }
        requires strip { strip < cut.strips }
        ensures made { IfOk result (λ parcel. parcel
            ≡ parcel_of scene.now cut strip level_done parcel.costs parcel.sums) }
        ensures kept { IfOk result IsParcel }
    {
        let guide = scene.guide.share()?;
        let (costs, sums) = strip_rows(alloc, scene, cut.first(strip), cut.rows(strip))?;
        Ok(Parcel {
            scene: Snapshot::of(scene),
            size: scene.size(),
            span: scene.span(),
            pen: scene.pen(),
            guide,
            cut,
            strip,
            done: [true, true, false, false, false, false, false, false],
            costs,
            sums,
        })
    }

    pub fn strip(&self) -> u32
        ensures value { result ≡ self.now.strip }
        ensures inside { result < self.now.cut.strips }
        ensures kept { IsParcel self.now }
    {
        self.strip
    }

    pub fn cut(&self) -> Cut
        ensures { result ≡ self.now.cut }
    {
        self.cut
    }

    /// The size of the whole image.
    pub fn size(&self) -> Size
        ensures width { result.width ≡ self.now.scene.left.width }
        ensures height { result.height ≡ self.now.scene.left.height }
    {
        self.size
    }

    pub fn span(&self) -> Span
        ensures { result ≡ self.now.scene.span }
    {
        self.span
    }

    /// The number of entries of a row of sums.
    fn row_length(&self) -> usize
        ensures { result ≡ row_length self.now.scene }
    {
        let (size, span) = (self.size, self.span);
        size.width as usize * span.count as usize
    }

    /// Whether the sums have the path values of this direction.
    pub fn is_done(&self, dir: Dir) -> bool
        ensures { result ≡ is_done self.now.done dir }
    {
        self.done[place(dir)]
    }

    /// Whether they have those of all eight.
    pub fn is_complete(&self) -> bool
        ensures { IsTrue result ↔ IsComplete self.now.done }
    {
        are_all(&self.done)
    }

    /// The sums of the row `y`, counted from the image's top: that of the column x and the index d
    /// at `x * count + d`.
    pub fn sums_row(&self, y: u32) -> &[u16]
        requires after_top { first_row self.now.cut self.now.strip ≤ y }
        requires before_end { y
            < first_row self.now.cut self.now.strip + rows_of self.now.cut self.now.strip }
        ensures { let g = problem_of self.now.scene in
            HoldsRow g y (sum_done (is_done self.now.done) g) result.now }
    {
        let row = self.row_length();
        let cut = self.cut;
        let at = (y - cut.first(self.strip)) as usize * row;
        &self.sums[at..at + row]
    }
}
