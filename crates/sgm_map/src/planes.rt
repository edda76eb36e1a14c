ghost use Rattle.std.specs.Prelude.{◌≡◌};

use sgm_base::Plane;
use sgm_strip::Scene;

/// A scene, and the rectified images whose codes it has, all of one size.
#[derive(Drop)]
pub struct ScenePlanes {
    pub scene: Scene,
    pub left: Plane,
    pub right: Plane,
    ghost left_width: { left.width ≡ scene.left.width },
    ghost left_height: { left.height ≡ scene.left.height },
    ghost right_width: { right.width ≡ scene.left.width },
    ghost right_height: { right.height ≡ scene.left.height },
}
