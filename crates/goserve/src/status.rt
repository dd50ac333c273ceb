//! How a run ends.

ghost use Rattle.std.specs.Prelude.{◌≡◌};
ghost use Rattle.goserve.specs.Statuses as spec;

/// How a run ends.
#[derive(Clone, Copy, PartialEq, Eq, Debug, Drop)]
pub enum Status {
    Clean,
    Faulty,
    Usage,
    ReadFailed,
    WriteFailed,
    NoMemory,
    TooLong,
    NotBuilt,
}

impl Status {
    /// The process's exit status.
    pub fn number(self) -> u8
        ensures { result ≡ spec.number_of self }
    {
        match self {
            Status::Clean => 0,
            Status::Faulty => 1,
            Status::Usage => 2,
            Status::ReadFailed => 5,
            Status::WriteFailed => 6,
            Status::NoMemory => 7,
            Status::TooLong => 8,
            Status::NotBuilt => 11,
        }
    }

    /// How many packages were checked.
    pub fn checked(self) -> u64
        ensures { result ≡ spec.checked_of self }
    {
        match self {
            Status::Clean | Status::Faulty => 1,
            _ => 0,
        }
    }
}

/// What is said of a status on standard error, where it has a text.
pub fn text_of(status: u8) -> &'static str
    ensures { result.now ≡ spec.text_of status }
{
    match status {
        2 => "usage: goserve check -",
        5 => "read failed",
        6 => "write failed",
        7 => "out of memory",
        8 => "input too long",
        11 => "form not built yet",
        _ => "",
    }
}
