//! How a call of the program ends.

ghost use Rattle.std.specs.Prelude.{◌≡◌};
ghost use Rattle.dl_top.specs.Statuses.{code_of};

/// How a call ends.
#[derive(Clone, Copy, Debug, PartialEq, Eq)]
pub enum Status {
    /// The report was written.
    Done,
    /// The words were not understood.
    Usage,
    /// The text was refused.
    Refused,
    /// An ask needs more width than the settings give.
    TooWide,
    /// A read of the input failed.
    ReadFault,
    /// A write failed, and a part of a text may have been written.
    WriteFault,
    /// There was no memory for the output, and nothing was written.
    OutOfMemory,
    /// An ask lies beyond the grid, or names no unit.
    AskFault,
}

impl Status {
    /// The number that the program ends with.
    pub fn code(self) -> u8
        ensures { result ≡ code_of self }
    {
        match self {
            Status::Done => 0,
            Status::Usage => 2,
            Status::Refused => 3,
            Status::TooWide => 4,
            Status::ReadFault => 5,
            Status::WriteFault => 6,
            Status::OutOfMemory => 7,
            Status::AskFault => 8,
        }
    }
}
