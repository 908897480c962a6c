//! How a run of the program ends.

ghost use Rattle.std.specs.Prelude.{◌≡◌};

/// How a run ends (this project's own statuses).
#[derive(Clone, Copy)]
pub enum Status {
    /// What was asked for is done; a service was asked to stop.
    Done,
    /// DIR/dewfelt.toml is wrong, or can't be read.
    Settings,
    /// The words are wrong.
    Usage,
    /// DIR/fleet is wrong, or can't be read.
    Fleet,
    /// Standard output could not be written.
    Output,
    /// The address can't be listened at, or the listener failed for good.
    Listen,
    /// Another service runs over DIR.
    Busy,
    /// Memory was wanted and refused.
    Memory,
    /// DIR is no folder in which files can be made.
    Folder,
    /// No thread can be made.
    Threads,
    /// A file of the interface over HTTP is wrong, or can't be read or made.
    Http,
}

impl Status {
    ghost use Rattle.dewfelt_folder.specs.Statuses.{number_of};

    /// The exit status of the program.
    pub fn number(self) -> u8
        ensures { result ≡ number_of self }
    {
        match self {
            Status::Done => 0,
            Status::Settings => 1,
            Status::Usage => 2,
            Status::Fleet => 3,
            Status::Output => 4,
            Status::Listen => 6,
            Status::Busy => 7,
            Status::Memory => 8,
            Status::Folder => 9,
            Status::Threads => 10,
            Status::Http => 11,
        }
    }

    /// What standard error says of a run that ended so, where nothing else is known of it; nothing where what was asked for is done.
    pub fn text(self) -> &'static str {
        match self {
            Status::Done => "",
            Status::Settings => "dewfelt.toml can't be read",
            Status::Usage => "a word is no UTF-8",
            Status::Fleet => "fleet can't be read",
            Status::Folder => "no folder",
            Status::Output => "standard output can't be written",
            Status::Listen => "the listener failed 60 times in a row",
            Status::Busy => "another dewfelt serves this folder",
            Status::Memory => "no memory",
            Status::Threads => "no thread can be made",
            Status::Http => "http.token can't be read",
        }
    }
}
