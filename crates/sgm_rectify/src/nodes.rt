ghost use Rattle.std.specs.Prelude.{◌≡◌};

use std::marker::Model;

/// The nodes of a mesh, row by row: for each the source place (u, v), in 1/256 of a pixel.
#[derive(Drop)]
pub struct Nodes {
    places: Vec<(i32, i32)>,
}

impl Model for Nodes {
    ghost use Rattle.std.specs.Prelude.{List, ℤ};

    ghost Value = { List (ℤ × ℤ) };

    ghost view = { λ n. n.places.items };
}

impl Nodes {
    /// The nodes at these places. Takes no memory.
    pub fn make(places: Vec<(i32, i32)>) -> Nodes
        ensures { result ≡ places.items }
    {
        Nodes { places }
    }

    /// The list that it was made from. Takes no memory.
    pub fn into_vec(self) -> Vec<(i32, i32)>
        ensures { result.items ≡ self }
    {
        let Nodes { places } = self;
        places
    }

    pub fn as_slice(&self) -> &[(i32, i32)]
        ensures { result.now ≡ self.now }
    {
        &self.places
    }
}
