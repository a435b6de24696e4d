//! Why there is no registry.
ghost use Rattle.std.specs.Prelude.{◌≡◌};
ghost use Rattle.bcs_move_types.specs.FaultNames.{move_refusal_name};

use crate::place::{MovePlace, Place, place_of};
use std::alloc::{AllocError, AllocFailed, Global};

/// What is wrong with the modules, or with a type or function that was requested.
#[derive(Clone, Copy, Debug, PartialEq, Eq)]
pub enum MoveRefusalName {
    /// The modules aren't JSON, or their JSON nests too deep.
    NotJson,
    /// An object has two members with the same name.
    RepeatedMember,
    /// The JSON doesn't have the shape of modules.
    NotModules,
    /// The chain's answer is an error.
    ChainError,
    /// Modules of Aptos and of Sui are mixed.
    MixedChains,
    /// Two modules, two declarations of a module or two fields have the same name.
    RepeatedName,
    /// This isn't a name, an address or a type of Move.
    BadType,
    /// Modules that are needed are missing.
    MissingModule,
    /// The module has no such type or function.
    UnknownName,
    /// The number of type arguments isn't the number of type parameters.
    WrongCount,
    /// The type has no bytes, or nobody knows them from here.
    NoBytes,
    /// The answer doesn't say which variants an enum has, or which numbers they have.
    UnknownVariants,
    /// A type of the standard library is declared in another way.
    NotStandard,
    /// Types nest too deep, are too long or too many.
    TooLarge,
}

impl MoveRefusalName {
    /// The name, which is printed.
    pub fn name(self) -> &'static str
        ensures { result.now ≡ move_refusal_name self }
    {
        match self {
            MoveRefusalName::NotJson => "NotJson",
            MoveRefusalName::RepeatedMember => "RepeatedMember",
            MoveRefusalName::NotModules => "NotModules",
            MoveRefusalName::ChainError => "ChainError",
            MoveRefusalName::MixedChains => "MixedChains",
            MoveRefusalName::RepeatedName => "RepeatedName",
            MoveRefusalName::BadType => "BadType",
            MoveRefusalName::MissingModule => "MissingModule",
            MoveRefusalName::UnknownName => "UnknownName",
            MoveRefusalName::WrongCount => "WrongCount",
            MoveRefusalName::NoBytes => "NoBytes",
            MoveRefusalName::UnknownVariants => "UnknownVariants",
            MoveRefusalName::NotStandard => "NotStandard",
            MoveRefusalName::TooLarge => "TooLarge",
        }
    }
}

/// A refusal: what is wrong, where, and what to do about it.
#[derive(Debug, Drop)]
pub struct MoveRefusal {
    pub name: MoveRefusalName,
    pub place: MovePlace,
    /// One line in ASCII.
    pub message: String,
}

/// Why there is no registry.
#[derive(Debug, Drop)]
pub enum MoveFault {
    Refused(MoveRefusal),
    OutOfMemory,
}

impl From<AllocError> for MoveFault {
    fn from(_: AllocError) -> Self {
        MoveFault::OutOfMemory
    }
}

impl<T: Drop> From<AllocFailed<T>> for MoveFault {
    fn from(_: AllocFailed<T>) -> Self {
        MoveFault::OutOfMemory
    }
}

/// A refusal at this place.
pub fn refusal(
    alloc: Global,
    name: MoveRefusalName,
    place: &Place<'_>,
    message: &str,
) -> MoveFault {
    refusal_with(alloc, name, place, String::from_str(alloc, message))
}

/// The same with a message that was just allocated.
pub fn refusal_with(
    alloc: Global,
    name: MoveRefusalName,
    place: &Place<'_>,
    message: Result<String, AllocError>,
) -> MoveFault {
    match (place_of(alloc, place), message) {
        (Ok(place), Ok(message)) => MoveFault::Refused(MoveRefusal {
            name,
            place,
            message,
        }),
        _ => MoveFault::OutOfMemory,
    }
}
