//! Why something is refused.
ghost use Rattle.std.specs.Prelude.{◌≡◌};
ghost use Rattle.bcs_calls.specs.Faults.{fault_name, fault_number, growth_number, move_number, reason_number, registry_number, text_number};

use bcs_decode_spec::Reason;
use bcs_json_spec::JsonFault;
use bcs_move::MoveRefusalName;
use bcs_registry_model::{GrowthFault, RegistryFault};

/// Why something is refused. C sees its number.
#[derive(Clone, Copy)]
pub(crate) enum Fault {
    /// A registry or a format is invalid.
    Registry(RegistryFault),
    /// A registry doesn't grow into another one.
    Growth(GrowthFault),
    /// A JSON document doesn't represent a value.
    Text(JsonFault),
    /// Bytes don't encode a value.
    Stop(Reason),
    /// The JSON of a decoded value would nest more than 100 deep.
    ShownTooNested,
    /// A path is invalid.
    BadPath,
    /// A part isn't a `BYTES`, a `STR`, or a list or an array of `U8`.
    NoContent,
    /// A list has the arguments of another function.
    OtherFunction,
    /// The format isn't the name of an enum with the requested variant.
    ExampleUnknownVariant,
    /// No value of the format is within the limits.
    ExampleNoValue,
    /// The example has too many nodes.
    ExampleTooManyNodes,
    /// The JSON of the example would nest more than 100 deep.
    ExampleTooNested,
    /// Modules of a Move chain, or a type of them, are refused.
    Move(MoveRefusalName),
}

impl Fault {
    /// The fault's number. Running out of memory has none: it is a status.
    pub(crate) fn number(self) -> u32
        ensures { result ≡ fault_number self }
    {
        match self {
            Fault::Registry(fault) => registry_number(fault),
            Fault::Growth(fault) => growth_number(fault),
            Fault::Text(fault) => text_number(fault),
            Fault::Stop(reason) => reason_number(reason),
            Fault::ShownTooNested => 501,
            Fault::BadPath => 601,
            Fault::NoContent => 602,
            Fault::OtherFunction => 603,
            Fault::ExampleUnknownVariant => 701,
            Fault::ExampleNoValue => 702,
            Fault::ExampleTooManyNodes => 703,
            Fault::ExampleTooNested => 704,
            Fault::Move(name) => move_number(name),
        }
    }

    /// The fault's name, as the program `bcs` prints it.
    pub(crate) fn name(self) -> &'static str
        ensures { result.now ≡ fault_name self }
    {
        match self {
            Fault::Registry(fault) => fault.name(),
            Fault::Growth(fault) => fault.name(),
            Fault::Text(fault) => fault.name(),
            Fault::Stop(reason) => reason.name(),
            Fault::ShownTooNested | Fault::ExampleTooNested => "TooNested",
            Fault::BadPath => "BadPath",
            Fault::NoContent => "NoContent",
            Fault::OtherFunction => "OtherFunction",
            Fault::ExampleUnknownVariant => "UnknownVariant",
            Fault::ExampleNoValue => "NoValue",
            Fault::ExampleTooManyNodes => "TooManyNodes",
            Fault::Move(name) => name.name(),
        }
    }
}

fn registry_number(fault: RegistryFault) -> u32
    ensures { result ≡ registry_number fault }
{
    match fault {
        RegistryFault::NotJson => 101,
        RegistryFault::BadShape => 102,
        RegistryFault::BadNumber => 103,
        RegistryFault::TooNested => 104,
        RegistryFault::RepeatedName => 105,
        RegistryFault::UnknownName => 106,
        RegistryFault::OutOfMemory => 0,
    }
}

fn growth_number(fault: GrowthFault) -> u32
    ensures { result ≡ growth_number fault }
{
    match fault {
        GrowthFault::Missing => 201,
        GrowthFault::Changed => 202,
        GrowthFault::VariantMissing => 203,
        GrowthFault::VariantChanged => 204,
    }
}

fn text_number(fault: JsonFault) -> u32
    ensures { result ≡ text_number fault }
{
    match fault {
        JsonFault::NotJson => 301,
        JsonFault::TooNested => 302,
        JsonFault::Unsupported => 303,
        JsonFault::BadShape => 304,
        JsonFault::BadNumber => 305,
        JsonFault::BadHex => 306,
        JsonFault::UnknownField => 307,
        JsonFault::MissingField => 308,
        JsonFault::UnknownVariant => 309,
        JsonFault::TooDeep => 310,
        JsonFault::TooManyNodes => 311,
        JsonFault::TooLong => 312,
        JsonFault::RepeatedKey => 313,
        JsonFault::OutOfMemory => 0,
    }
}

fn reason_number(reason: Reason) -> u32
    ensures { result ≡ reason_number reason }
{
    match reason {
        Reason::EndOfInput => 401,
        Reason::BadBool => 402,
        Reason::BadOption => 403,
        Reason::LongForm => 404,
        Reason::NumberTooLarge => 405,
        Reason::LengthTooLarge => 406,
        Reason::UnknownVariant => 407,
        Reason::BadUtf8 => 408,
        Reason::KeyOrder => 409,
        Reason::KeyRepeated => 410,
        Reason::TooDeep => 411,
        Reason::TrailingBytes => 412,
        Reason::TooManyNodes => 413,
        Reason::Unsupported => 414,
    }
}

fn move_number(name: MoveRefusalName) -> u32
    ensures { result ≡ move_number name }
{
    match name {
        MoveRefusalName::NotJson => 801,
        MoveRefusalName::RepeatedMember => 802,
        MoveRefusalName::NotModules => 803,
        MoveRefusalName::ChainError => 804,
        MoveRefusalName::MixedChains => 805,
        MoveRefusalName::RepeatedName => 806,
        MoveRefusalName::BadType => 807,
        MoveRefusalName::MissingModule => 808,
        MoveRefusalName::UnknownName => 809,
        MoveRefusalName::WrongCount => 810,
        MoveRefusalName::NoBytes => 811,
        MoveRefusalName::UnknownVariants => 812,
        MoveRefusalName::NotStandard => 813,
        MoveRefusalName::TooLarge => 814,
    }
}
