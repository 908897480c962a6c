//! The commands beside a service.

/// A command beside a service, by the words that it takes.
#[derive(Clone, Copy)]
pub enum Form {
    /// What is registered.
    Registrations,
    /// A phone's registration goes.
    Forget,
    /// Rows and registrations into a file.
    Copy,
    /// The service ends.
    Stop,
}

impl Form {
    /// How many words stand behind it.
    pub fn words(self) -> usize {
        match self {
            Form::Registrations | Form::Stop => 1,
            Form::Forget | Form::Copy => 2,
        }
    }

    /// How it is written.
    pub fn usage(self) -> &'static str {
        match self {
            Form::Registrations => "registrations DIR",
            Form::Forget => "forget DIR PHONE",
            Form::Copy => "copy DIR FILE",
            Form::Stop => "stop DIR",
        }
    }
}
