// How a run ends.
ghost use Rattle.std.specs.Prelude.{◌≡◌};
ghost use Rattle.run_input.specs.Status.{number_of};

/// How a run ends. The program's own status is its number.
#[derive(Clone, Copy, Debug, PartialEq, Eq)]
pub enum Status {
    /// The command's text is printed.
    Done,
    /// An input has a fault.
    Refused,
    /// The words have a fault.
    WordsRefused,
    /// No drawing is lawful.
    NoDrawing,
    /// The search for a drawing, or the check of a log or of hinted lines, stopped before its end: the budget is spent,
    /// or there is no room.
    Unfinished,
    /// A file couldn't be read.
    Unread,
    /// The text or a file couldn't be written.
    Unwritten,
    /// Memory couldn't be had.
    NoMemory,
    /// The sheet's drawing breaks a law, a line of the log or of the hinted lines is refused, or the lines don't
    /// certify what the sheet claims.
    Broken,
}

impl Status {
    /// The number that the program ends with.
    pub fn number(self) -> u8
        ensures { result ≡ number_of self }
    {
        match self {
            Status::Done => 0,
            Status::Refused => 1,
            Status::WordsRefused => 2,
            Status::NoDrawing => 3,
            Status::Unfinished => 4,
            Status::Unread => 5,
            Status::Unwritten => 6,
            Status::NoMemory => 7,
            Status::Broken => 8,
        }
    }
}
