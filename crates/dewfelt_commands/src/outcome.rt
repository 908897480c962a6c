//! How a command ends.

ghost use Rattle.std.specs.Prelude.{◌≡◌, ◌≢◌, MatchOption};
ghost use Rattle.dewfelt_commands.specs.declared.outcome.Outcome.{Outcome as Status};

/// How a command beside a service ends (this project's own statuses).
#[derive(Clone, Copy)]
pub enum Outcome {
    /// What was asked for is done.
    Done,
    /// Standard output could not be written.
    Output,
    /// DIR/platform.db can't be opened or read.
    Store,
    /// Memory was wanted and refused.
    Memory,
    /// DIR is no folder in which files can be made.
    Folder,
    /// A service runs over DIR, and did not answer in time.
    NoAnswer,
    /// FILE is there already, or can't be written.
    File,
    /// The phone is not registered.
    NotRegistered,
    /// A line `vehicle` of the fleet binds the phone.
    Bound,
    /// The service does not know the request, or its answer is not one.
    NotUnderstood,
}

impl Outcome {
    ghost use Rattle.dewfelt_commands.specs.Outcomes.{number_of};

    /// The exit status of the program.
    pub fn number(self) -> u8
        ensures { result ≡ number_of self }
    {
        match self {
            Outcome::Done => 0,
            Outcome::Output => 4,
            Outcome::Store => 5,
            Outcome::Memory => 8,
            Outcome::Folder => 9,
            Outcome::NoAnswer => 20,
            Outcome::File => 21,
            Outcome::NotRegistered => 22,
            Outcome::Bound => 23,
            Outcome::NotUnderstood => 24,
        }
    }

    /// The outcome with this exit status; None where none has it.
    pub fn of_number(number: u8) -> Option<Outcome>
        ensures { MatchOption result ((outcome : Status) → number_of outcome ≢ number)
            (λ outcome. number_of outcome ≡ number) }
    {
        match number {
            0 => Some(Outcome::Done),
            4 => Some(Outcome::Output),
            5 => Some(Outcome::Store),
            8 => Some(Outcome::Memory),
            9 => Some(Outcome::Folder),
            20 => Some(Outcome::NoAnswer),
            21 => Some(Outcome::File),
            22 => Some(Outcome::NotRegistered),
            23 => Some(Outcome::Bound),
            24 => Some(Outcome::NotUnderstood),
            _ => None,
        }
    }

    /// What is said of it where nothing else is known.
    pub fn text(self) -> &'static str {
        match self {
            Outcome::Done => "",
            Outcome::Output => "standard output can't be written",
            Outcome::Store => "platform.db can't be opened or read",
            Outcome::Memory => "no memory",
            Outcome::Folder => "no folder in which files can be made",
            Outcome::NoAnswer => "the service did not answer",
            Outcome::File => "the file can't be written",
            Outcome::NotRegistered => "the phone is not registered",
            Outcome::Bound => "a line vehicle of the fleet binds the phone: take the line out",
            Outcome::NotUnderstood =>
                "the service is of another version: stop it by its own dewfelt",
        }
    }
}
