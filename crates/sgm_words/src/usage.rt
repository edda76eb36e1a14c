/// The first fault of the words. Positions count from 0.
#[derive(Clone, Copy, PartialEq, Eq)]
pub enum UsageFault {
    NoCommand,
    UnknownCommand,
    TooFew { have: usize, need: usize },
    EmptyName { position: usize },
    BadDirection { position: usize },
    BadNumber { position: usize },
    BadOption { position: usize },
    RepeatedOption { position: usize },
    OutputIsInput { position: usize },
}
