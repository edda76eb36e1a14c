ghost use Rattle.std.specs.Prelude.{◌≡◌, ◌<◌, OnErr, OnOk, IfOk, string_bytes, vec_len};
ghost use Rattle.std.specs.Prelude.{vec_capacity};
ghost use Rattle.sgm_io.specs.Names.{is_among};
ghost use Rattle.sgm_io.specs.Unfinished.{no_names, with_name, without_name};

use std::alloc::{AllocError, Global};

// The names that were begun and not finished.
#[derive(Drop)]
pub(crate) struct Unfinished {
    alloc: Global,
    names: Vec<String>,
}

impl Unfinished {
    pub(crate) fn make(alloc: Global) -> Unfinished
        ensures { is_among result.names.items ≡ no_names }
    {
        Unfinished {
            alloc,
            names: Vec::new(alloc),
        }
    }

    // Makes room for a name, and gives it as it is to be begun.
    pub(crate) fn reserve(&mut self, name: &str) -> Result<String, AllocError>
        ensures name { IfOk result (λ begun. string_bytes begun ≡ name.now) }
        ensures room { OnOk result (vec_len self.new.names < vec_capacity self.new.names) }
        ensures names { self.new.names.items ≡ self.old.names.items }
    {
        let begun = String::from_str(self.alloc, name)?;
        self.names.reserve(1)?;
        Ok(begun)
    }

    // Adds a name, for which there is room.
    pub(crate) fn begin(&mut self, name: String)
        requires { vec_len self.old.names < vec_capacity self.old.names }
        ensures { is_among self.new.names.items
            ≡ with_name (string_bytes name) (is_among self.old.names.items) }
    {
        self.names.push_reserved(name);
    }

    // Takes a name out.
    pub(crate) fn finish(&mut self, name: &str)
        ensures { is_among self.new.names.items
            ≡ without_name name.now (is_among self.old.names.items) }
    {
        self.names.retain(|other| name != other.as_str());
    }
}
