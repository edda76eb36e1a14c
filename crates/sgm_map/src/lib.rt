//! The map of disparities of a scene, from its complete parcels: selected, made finer and refined
//! where that is asked for.
#![tactic(auto)]

mod asked;
mod fining;
mod mapping;
mod planes;
mod refining;
mod selecting;

pub use asked::Asked;
pub use mapping::scene_map;
pub use planes::ScenePlanes;
