ghost use Rattle.std.specs.Prelude.{◌≡◌, ◌==◌, ℕ, false, string_bytes};
ghost use Rattle.std.specs.Option.{option_map_or};

/// A call of a shelf in memory that is to fail. It fails one call and is then spent.
#[derive(Drop)]
pub enum Trip {
    /// Fails a fetch of the name.
    Fetch { name: String },
    /// Fails a create of the name.
    Create { name: String },
    /// Lets an append fill the name up to `length` bytes, and fails the next append of a piece that
    /// isn't empty at that length.
    AppendAt { name: String, length: usize },
    /// Fails a finish of the name.
    Finish { name: String },
}

// A call that a trip may fail, with the name that it is of. An append also has the length that the
// name has.
#[derive(Clone, Copy)]
pub(crate) enum Call<'a> {
    Fetch(&'a str),
    Create(&'a str),
    Append(&'a str, usize),
    Finish(&'a str),
}

impl Trip {
    ghost use Rattle.sgm_io.specs.Trips.{trip_name, is_append_at};
    ghost use Rattle.sgm_io.specs.Calls.{fails};

    pub(crate) fn fails(&self, call: Call<'_>) -> bool
        ensures { result ≡ fails call.entry self.now }
    {
        match (self, call) {
            (Trip::Fetch { name }, Call::Fetch(asked)) => asked == name.as_str(),
            (Trip::Create { name }, Call::Create(asked)) => asked == name.as_str(),
            (Trip::AppendAt { name, length }, Call::Append(asked, at)) => {
                asked == name.as_str() && at == *length
            }
            (Trip::Finish { name }, Call::Finish(asked)) => asked == name.as_str(),
            _ => false,
        }
    }

    // The length at which it stops appends to the name.
    pub(crate) fn stop(&self, name: &str) -> Option<usize>
        ensures { (at : ℕ) → is_append_at name.now at self.now
            ≡ option_map_or (λ stop. at == stop) result false }
    {
        match self {
            Trip::AppendAt {
                name: tripped,
                length,
            } if name == tripped.as_str() => Some(*length),
            _ => None,
        }
    }

    pub(crate) fn into_name(self) -> String
        ensures { string_bytes result ≡ trip_name self }
    {
        match self {
            Trip::Fetch { name } => name,
            Trip::Create { name } => name,
            Trip::AppendAt { name, length: _ } => name,
            Trip::Finish { name } => name,
        }
    }
}
