use sgm_energy::Dir;

/// What a worker does: it claims a strip, takes the front of a direction, puts it back, and returns
/// the strip that it holds.
#[derive(Clone, Copy)]
pub enum Event {
    Claim { worker: u32, strip: u32 },
    Take { worker: u32, dir: Dir },
    Put { worker: u32, dir: Dir },
    Return { worker: u32 },
}

/// An event whose condition does not hold.
#[derive(Clone, Copy, PartialEq, Eq)]
pub struct Illegal;
