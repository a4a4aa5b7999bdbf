ghost use Rattle.std.specs.Prelude.{◌≡◌};
ghost use Rattle.dy_tool.specs.Statuses as statuses;

/// How a command ends.
#[derive(Clone, Copy, Debug, PartialEq, Eq)]
pub enum Status {
    /// The command did what it is for.
    Done,
    /// The file is well formed and not typed.
    NotAccepted,
    /// The words are none that are accepted.
    Words,
    /// The input is no protocol file.
    Input,
    /// The source failed.
    ReadFault,
    /// The sink failed.
    WriteFault,
    /// There was no memory for more.
    Memory,
    /// More bytes came than a source may have.
    TooLong,
}

impl Status {
    /// The number that the program exits with, from 0 to 7.
    pub fn number(self) -> u8
        ensures { result ≡ statuses.number self }
    {
        match self {
            Status::Done => 0,
            Status::NotAccepted => 1,
            Status::Words => 2,
            Status::Input => 3,
            Status::ReadFault => 4,
            Status::WriteFault => 5,
            Status::Memory => 6,
            Status::TooLong => 7,
        }
    }
}
