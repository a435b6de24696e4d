//! Why bytes aren't a value.
ghost use Rattle.std.specs.Prelude.{◌≡◌};
ghost use Rattle.bcs_decode_spec.specs.Stop.{reason_name};

use std::fmt;

/// Why bytes aren't a value. Each reason is printed as its name.
#[derive(Clone, Copy, Debug, Drop, PartialEq, Eq)]
pub enum Reason {
    /// The bytes end inside the value.
    EndOfInput = 1,
    /// The byte of a `BOOL` is above `01`.
    BadBool,
    /// The tag byte of an option is above `01`.
    BadOption,
    /// A ULEB128 number has a shorter form.
    LongForm,
    /// A ULEB128 number is above 4294967295.
    NumberTooLarge,
    /// A length is above 2147483647 (BCS specification).
    LengthTooLarge,
    /// The enum has no variant with this number.
    UnknownVariant,
    /// A string isn't valid UTF-8 (RFC 3629).
    BadUtf8,
    /// A key is below the previous key, compared as bytes.
    KeyOrder,
    /// A key is equal to the previous key.
    KeyRepeated,
    /// The limits don't allow another open container.
    TooDeep,
    /// More bytes follow the value.
    TrailingBytes,
    /// The limits don't allow another node.
    TooManyNodes,
    /// The format has no values: it is `F32`, `F64` or `CHAR`.
    Unsupported,
}

impl Reason {
    /// The name of the reason.
    pub fn name(self) -> &'static str
        ensures { result.now ≡ reason_name self }
    {
        match self {
            Reason::EndOfInput => "EndOfInput",
            Reason::BadBool => "BadBool",
            Reason::BadOption => "BadOption",
            Reason::LongForm => "LongForm",
            Reason::NumberTooLarge => "NumberTooLarge",
            Reason::LengthTooLarge => "LengthTooLarge",
            Reason::UnknownVariant => "UnknownVariant",
            Reason::BadUtf8 => "BadUtf8",
            Reason::KeyOrder => "KeyOrder",
            Reason::KeyRepeated => "KeyRepeated",
            Reason::TooDeep => "TooDeep",
            Reason::TrailingBytes => "TrailingBytes",
            Reason::TooManyNodes => "TooManyNodes",
            Reason::Unsupported => "Unsupported",
        }
    }
}

impl fmt::Display for Reason {
    ghost use Rattle.std.specs.Prelude.{Some};
    ghost use Rattle.bcs_decode_spec.specs.Stop.{reason_name};

    ghost output = { λ reason. Some (reason_name reason) };

    fn fmt<W: fmt::Write>(&self, f: &mut fmt::Formatter<W>) -> fmt::Result {
        f.write_str(self.name())
    }
}
