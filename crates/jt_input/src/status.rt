//! How a run of the program ends.

ghost use Rattle.std.specs.Prelude.{◌≡◌};
ghost use Rattle.jt_input.specs.Answer.{number_of};

/// How a run ends (this project's own statuses).
#[derive(Clone, Copy, Debug, PartialEq, Eq)]
pub enum Status {
    /// The input was read to its end, has no refusal and no bad line, and its answer was written.
    Done,
    /// The input has a refusal or a bad line, whose place is printed, or more octets than may be read.
    Refused,
    /// The words are no command: the usage line was written, and nothing was read.
    Usage,
    /// A read of the source failed.
    ReadFault,
    /// A write to the sink failed.
    WriteFault,
    /// A store failed, or its limit was reached, which is printed.
    StoreFault,
    /// The listener failed.
    NetFault,
    /// As many attempts ended as were allowed, and something was not sent.
    Unsent,
    /// Memory was wanted and refused.
    Memory,
}

impl Status {
    /// The exit status of the program.
    pub fn number(self) -> u8
        ensures { result ≡ number_of self }
    {
        match self {
            Status::Done => 0,
            Status::Refused => 1,
            Status::Usage => 2,
            Status::ReadFault => 3,
            Status::WriteFault => 4,
            Status::StoreFault => 5,
            Status::NetFault => 6,
            Status::Unsent => 7,
            Status::Memory => 8,
        }
    }
}
