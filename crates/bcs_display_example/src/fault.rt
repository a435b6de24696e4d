//! Why there is no example.

use bcs_encode::EncodeFault;
use std::alloc::AllocError;
use thiserror::Error;

/// Why there is no example with these options. The message of each fault is its name.
#[derive(Clone, Copy, Debug, PartialEq, Eq, Error)]
#[error("{}", self.name())]
pub enum ExampleOptionsFault {
    /// The format isn't the name of an enum that has the requested variant.
    UnknownVariant,
    /// No value of the format (with the requested variant) is within the depth limit: a container always contains itself, an enum
    /// has no variants, or `F32`, `F64` or `CHAR` can't be avoided.
    NoValue,
    /// The example has more nodes than the limits allow.
    TooManyNodes,
    /// Memory ran out.
    OutOfMemory,
}

impl ExampleOptionsFault {
    /// The fault's name, which is printed.
    fn name(self) -> &'static str {
        match self {
            ExampleOptionsFault::UnknownVariant => "UnknownVariant",
            ExampleOptionsFault::NoValue => "NoValue",
            ExampleOptionsFault::TooManyNodes => "TooManyNodes",
            ExampleOptionsFault::OutOfMemory => "OutOfMemory",
        }
    }
}

impl From<AllocError> for ExampleOptionsFault {
    fn from(_: AllocError) -> Self {
        ExampleOptionsFault::OutOfMemory
    }
}

/// Examples are sound, so encoding one fails only if memory runs out.
impl From<EncodeFault> for ExampleOptionsFault {
    fn from(fault: EncodeFault) -> Self {
        match fault {
            EncodeFault::NotOfFormat
            | EncodeFault::Unsupported
            | EncodeFault::TooDeep
            | EncodeFault::RepeatedKey => ExampleOptionsFault::NoValue,
            EncodeFault::TooManyNodes | EncodeFault::TooLong => ExampleOptionsFault::TooManyNodes,
            EncodeFault::OutOfMemory => ExampleOptionsFault::OutOfMemory,
        }
    }
}

/// Why an example has no JSON. The message of each fault is its name.
#[derive(Clone, Copy, Debug, PartialEq, Eq, Error)]
#[error("{}", self.name())]
pub enum ExampleTextFault {
    /// There is no such example, it is too large, or memory ran out.
    Options(ExampleOptionsFault),
    /// The JSON of the example would nest arrays and objects more than 100 deep.
    TooNested,
}

impl ExampleTextFault {
    /// The fault's name, which is printed.
    pub fn name(self) -> &'static str {
        match self {
            ExampleTextFault::Options(fault) => fault.name(),
            ExampleTextFault::TooNested => "TooNested",
        }
    }
}

impl From<ExampleOptionsFault> for ExampleTextFault {
    fn from(fault: ExampleOptionsFault) -> Self {
        ExampleTextFault::Options(fault)
    }
}

impl From<AllocError> for ExampleTextFault {
    fn from(_: AllocError) -> Self {
        ExampleTextFault::Options(ExampleOptionsFault::OutOfMemory)
    }
}
