//! How a call went.
ghost use Rattle.std.specs.Prelude.{◌≡◌};
ghost use Rattle.bcs_calls.specs.Statuses.{status_number};

/// How a call went. C sees its number.
#[derive(Clone, Copy)]
pub enum Status {
    /// Done, or the answer is yes.
    Done,
    /// The output is too short.
    Short,
    /// The registry is refused, or the older one of two.
    Registry,
    /// The format is refused.
    Format,
    /// The depth is above 500.
    Limits,
    /// The input is refused.
    Refused,
    /// Memory ran out.
    Memory,
    /// The answer is no.
    No,
    /// The path is invalid.
    Path,
    /// The newer one of two registries is refused.
    Newer,
    /// No registry is open.
    Closed,
    /// No call has this number.
    NoCall,
}

impl Status {
    /// The status's number.
    pub(crate) fn number(self) -> u32
        ensures { result ≡ status_number self }
    {
        match self {
            Status::Done => 0,
            Status::Short => 1,
            Status::Registry => 2,
            Status::Format => 3,
            Status::Limits => 4,
            Status::Refused => 5,
            Status::Memory => 6,
            Status::No => 7,
            Status::Path => 8,
            Status::Newer => 9,
            Status::Closed => 10,
            Status::NoCall => 12,
        }
    }
}
