ghost use Rattle.std.specs.Prelude.{◌≡◌, IfSome, option_map};
ghost use Rattle.sgm_rectify.specs.Warps.{IsWarp};
ghost use Rattle.sgm_height.specs.Station.{IsStation};
ghost use Rattle.sgm_energy.specs.Pens.{penalties_of};
ghost use Rattle.sgm_grid.specs.Keeping.{IsGridding};
ghost use Rattle.sgm_calib.specs.Calibration.{plain, station_of, IsCalibration};

use sgm_base::Span;
use sgm_census::{CostRule, Window};
use sgm_energy::Pen;
use sgm_grid::{GridSpec, Gridding, Keep};
use sgm_height::{Camera, Pose, Station};
use sgm_rectify::Warp;
use sgm_report::{Columns, Region};
use std::marker::Model;

/// The settings of a survey. Warps, camera, pose and grid keep their ranges. There is a camera
/// where there is a grid, and a grid where there are regions, each of which lies in it.
#[derive(Drop)]
pub struct Calib {
    pub(crate) span: Span,
    pub(crate) fine: bool,
    pub(crate) window: Window,
    pub(crate) rule: CostRule,
    pub(crate) pen: Pen,
    pub(crate) left: Warp,
    pub(crate) right: Warp,
    pub(crate) camera: Option<Camera>,
    pub(crate) pose: Option<Pose>,
    pub(crate) grid: Option<GridSpec>,
    pub(crate) gridding: Gridding,
    pub(crate) columns: Columns,
    pub(crate) regions: Option<Vec<Region>>,
}

impl Model for Calib {
    ghost use Rattle.std.specs.Prelude.{option_map};
    ghost use Rattle.sgm_calib.specs.Calibration.{Calibration, IsCalibration};
    ghost use Rattle.sgm_energy.specs.Pens.{penalties_of};

    ghost Value = { Calibration };

    ghost view = { λ c. record {
      span = c.span;
      fine = c.fine;
      window = c.window;
      rule = c.rule;
      penalties = penalties_of c.pen;
      left = c.left;
      right = c.right;
      camera = c.camera;
      pose = c.pose;
      grid = c.grid;
      gridding = c.gridding;
      columns = c.columns;
      regions = option_map (λ v. v.items) c.regions;
    } };

    ghost invariant = { λ c. IsCalibration (record {
      span = c.span;
      fine = c.fine;
      window = c.window;
      rule = c.rule;
      penalties = penalties_of c.pen;
      left = c.left;
      right = c.right;
      camera = c.camera;
      pose = c.pose;
      grid = c.grid;
      gridding = c.gridding;
      columns = c.columns;
      regions = option_map (λ v. v.items) c.regions;
    }) };
}

impl Calib {
    /// The settings where no file is named: 64 disparities from 0 on, a window of 9 x 7 pixels,
    /// plain costs, the penalties 10 and 120 everywhere, no warp, and neither camera nor grid nor
    /// regions. Takes no memory.
    pub fn plain() -> Calib
        ensures { result ≡ plain }
    {
        let Some(pen) = Pen::make(10, 120) else {
            unreachable!()
        };
        Calib {
            span: Span {
                first: 0,
                count: 64,
            },
            fine: false,
            window: Window {
                width: 9,
                height: 7,
            },
            rule: CostRule::Plain,
            pen,
            left: Warp::Identity,
            right: Warp::Identity,
            camera: None,
            pose: None,
            grid: None,
            gridding: Gridding {
                keep: Keep::Highest,
                bridge: 0,
            },
            columns: Columns::Plain,
            regions: None,
        }
    }

    /// The disparities that are tried.
    pub fn span(&self) -> Span
        ensures { result ≡ self.now.span }
    {
        self.span
    }

    /// Whether the disparities are made finer.
    pub fn fine(&self) -> bool
        ensures { result ≡ self.now.fine }
    {
        self.fine
    }

    /// The window of the census transform.
    pub fn window(&self) -> Window
        ensures { result ≡ self.now.window }
    {
        self.window
    }

    /// By which rule costs are made.
    pub fn rule(&self) -> CostRule
        ensures { result ≡ self.now.rule }
    {
        self.rule
    }

    /// The penalties of a change of the disparity.
    pub fn pen(&self) -> Pen
        ensures { penalties_of result ≡ self.now.penalties }
    {
        self.pen
    }

    /// The warp of the left image.
    pub fn left(&self) -> &Warp
        ensures value { result.now ≡ self.now.left }
        ensures kept { IsWarp result.now }
    {
        &self.left
    }

    /// The warp of the right image.
    pub fn right(&self) -> &Warp
        ensures value { result.now ≡ self.now.right }
        ensures kept { IsWarp result.now }
    {
        &self.right
    }

    /// The cameras, where heights can be told.
    pub fn camera(&self) -> Option<Camera>
        ensures value { result ≡ self.now.camera }
        ensures kept { IsCalibration self.now }
    {
        self.camera
    }

    /// How the cameras stand in the frame of the site, where that is said.
    pub fn pose(&self) -> Option<Pose>
        ensures value { result ≡ self.now.pose }
        ensures kept { IsCalibration self.now }
    {
        self.pose
    }

    /// The cameras and how they stand, where heights can be told.
    pub fn station(&self) -> Option<Station>
        ensures value { result ≡ station_of self.now }
        ensures kept { IfSome result IsStation }
    {
        match self.camera {
            None => None,
            Some(camera) => Some(Station {
                camera,
                pose: self.pose,
            }),
        }
    }

    /// The grid of heights, where one is asked for.
    pub fn grid(&self) -> Option<GridSpec>
        ensures value { result ≡ self.now.grid }
        ensures kept { IsCalibration self.now }
    {
        self.grid
    }

    /// How points become the heights of the grid's cells.
    pub fn gridding(&self) -> Gridding
        ensures value { result ≡ self.now.gridding }
        ensures kept { IsGridding result }
    {
        self.gridding
    }

    /// The columns of the table of regions.
    pub fn columns(&self) -> Columns
        ensures { result ≡ self.now.columns }
    {
        self.columns
    }

    /// The regions of the grid, where volumes are asked for.
    pub fn regions(&self) -> Option<&[Region]>
        ensures value { option_map (λ regions. regions.now) result ≡ self.now.regions }
        ensures kept { IsCalibration self.now }
    {
        match &self.regions {
            None => None,
            Some(regions) => Some(regions.as_slice()),
        }
    }
}
