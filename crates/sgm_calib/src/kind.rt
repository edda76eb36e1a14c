ghost use Rattle.std.specs.Prelude.{◌≡◌};
ghost use Rattle.sgm_calib.specs.Kinds.{kind_name, kind_named};

/// The kinds of a warp's side.
#[derive(Clone, Copy)]
pub enum Kind {
    Identity,
    Projective,
    Mesh,
}

impl Kind {
    /// The name of the kind in a calibration file.
    pub fn name(self) -> &'static str
        ensures { result.now ≡ kind_name self }
    {
        match self {
            Kind::Identity => "identity",
            Kind::Projective => "projective",
            Kind::Mesh => "mesh",
        }
    }
}

/// The kind of that name, where there is one.
pub fn kind_named(name: &str) -> Option<Kind>
    ensures { result ≡ kind_named name.now }
{
    if name == "identity" {
        Some(Kind::Identity)
    } else if name == "projective" {
        Some(Kind::Projective)
    } else if name == "mesh" {
        Some(Kind::Mesh)
    } else {
        None
    }
}
