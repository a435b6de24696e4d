//! How bytes are read and written.
ghost use Rattle.std.specs.Prelude.{◌≡◌};
ghost use Rattle.bcs_tool_command_line.specs.Jobs.{coding, is_raw};

/// How bytes are represented in an input and in an answer.
#[derive(Clone, Copy, Debug, PartialEq, Eq)]
pub enum Coding {
    /// Hexadecimal digits.
    Hexadecimal,
    /// `--base64`: base64 of the standard alphabet of RFC 4648, with padding.
    Base64,
    /// `--raw`: the bytes as they are.
    Raw,
}

impl Coding {
    /// The coding that `--raw` and `--base64` request. `--base64` overrides `--raw`.
    pub fn of(raw: bool, base64: bool) -> Coding
        ensures { result ≡ coding raw base64 }
    {
        if base64 {
            Coding::Base64
        } else if raw {
            Coding::Raw
        } else {
            Coding::Hexadecimal
        }
    }

    /// Whether the bytes are there as they are.
    pub fn is_raw(self) -> bool
        ensures { result ≡ is_raw self }
    {
        match self {
            Coding::Raw => true,
            Coding::Hexadecimal | Coding::Base64 => false,
        }
    }
}
