ghost use Rattle.std.specs.Prelude.{◌≡◌, ◌*◌, ◌≤◌, ◌<◌};
ghost use Rattle.sgm_base.specs.declared.limits.TheConstants.{MAX_COUNT, MAX_SIDE};
ghost use Rattle.sgm_energy.specs.Pens.{penalties_of};
ghost use Rattle.sgm_energy.specs.Rays.{pixel_at};
ghost use Rattle.sgm_strip.specs.Scenes.{SceneParts, IsScene, problem_of, row_length, scene_of};

use crate::Guide;
use sgm_base::{Size, Span};
use sgm_census::{CodePlane, cost_at};
use sgm_energy::Pen;
use std::marker::Model;

/// What is matched: the codes of the left and of the right image, of one size, one window and one
/// rule of cost, the disparities that are tried, the penalties, and the guide that they follow
/// where the pen is adaptive.
#[derive(Drop)]
pub struct Scene {
    pub(crate) left: CodePlane,
    pub(crate) right: CodePlane,
    pub(crate) span: Span,
    pub(crate) pen: Pen,
    pub(crate) guide: Guide,
}

impl Model for Scene {
    ghost Value = { SceneParts };

    ghost view = { λ s. scene_of s.left s.right s.span (penalties_of s.pen) s.guide };

    ghost invariant = { λ s.
        IsScene (scene_of s.left s.right s.span (penalties_of s.pen) s.guide) };
}

impl Scene {
    /// The scene of these. Takes no memory.
    pub fn make(left: CodePlane, right: CodePlane, span: Span, pen: Pen, guide: Guide) -> Scene
        requires same_width { left.width ≡ right.width }
        requires same_height { left.height ≡ right.height }
        requires same_window { left.window ≡ right.window }
        requires same_rule { left.rule ≡ right.rule }
        requires guide_width { guide.width ≡ left.width }
        requires guide_height { guide.height ≡ left.height }
        ensures { result ≡ scene_of left right span (penalties_of pen) guide }
    {
        // Known from here on: what the planes, the span and the guide keep.
        let _left = left.size();
        let _right = right.size();
        let _ = &span.count;
        let _guide = guide.size();
        Scene {
            left,
            right,
            span,
            pen,
            guide,
        }
    }

    /// The size of both planes.
    pub fn size(&self) -> Size
        ensures width { result.width ≡ self.now.left.width }
        ensures height { result.height ≡ self.now.left.height }
        ensures kept { IsScene self.now }
    {
        self.left.size()
    }

    pub fn span(&self) -> Span
        ensures { result ≡ self.now.span }
    {
        self.span
    }

    /// The number of disparities.
    pub(crate) fn count(&self) -> usize
        ensures value { result ≡ self.now.span.count }
        ensures range { (1 ≤ result) × (result ≤ MAX_COUNT) }
    {
        let span = self.span;
        span.count as usize
    }

    /// The number of entries of a row of the volume.
    pub(crate) fn row_length(&self) -> usize
        ensures value { result ≡ row_length self.now }
        ensures range { (1 ≤ result) × (result ≤ MAX_SIDE * MAX_COUNT) }
        ensures kept { IsScene self.now }
    {
        let size = self.left.size();
        size.width as usize * self.count()
    }

    pub fn pen(&self) -> Pen
        ensures { penalties_of result ≡ self.now.penalties }
    {
        self.pen
    }

    /// The cost of the index `d` at the pixel (x, y). Takes no memory.
    pub fn cost(&self, x: u32, y: u32, d: u32) -> u8
        requires column { x < self.now.left.width }
        requires row { y < self.now.left.height }
        requires index { d < self.now.span.count }
        ensures { result ≡ (problem_of self.now).cost (pixel_at x y) d }
    {
        cost_at(&self.left, &self.right, self.span, x, y, d)
    }

    /// The penalty of a change of the index by more than one, from the pixel (before_x, before_y)
    /// to (x, y). Takes no memory.
    pub fn far(&self, x: u32, y: u32, before_x: u32, before_y: u32) -> u16
        requires column { x < self.now.left.width }
        requires row { y < self.now.left.height }
        requires before_column { before_x < self.now.left.width }
        requires before_row { before_y < self.now.left.height }
        ensures { result ≡ (problem_of self.now).far (pixel_at before_x before_y) (pixel_at x y) }
    {
        let here = self.guide.at(x, y);
        self.pen.far(here, self.guide.at(before_x, before_y))
    }
}
