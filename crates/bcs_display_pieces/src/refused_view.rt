//! Why a text asks for no view.
ghost use Rattle.std.specs.Prelude.{◌≡◌, IfOk, Some};
ghost use Rattle.bcs_registry_model.specs.declared.fault.RegistryFault.TheVariants.{UnknownName};

use crate::nearest_containers::nearest_container;
use bcs_display_mistakes::Suggestion;
use bcs_display_refusal::{Location, Refusal};
use bcs_registry::{Registry, RegistryFault};
use bcs_view_texts::{MoveKind, ViewKind};
use std::alloc::{AllocError, Global};

/// A text that was refused.
#[derive(Debug, Drop)]
pub struct RefusedView {
    /// The fault of the registry's format or container. `None`: the text doesn't name a part (`BadPath`).
    pub fault: Option<RegistryFault>,
    pub refusal: Refusal,
}

/// A text without `=`, or with a name that names no part.
pub(crate) fn bad_path(
    alloc: Global,
    kind: ViewKind,
    text: &str,
) -> Result<RefusedView, AllocError> {
    let expected = match kind {
        ViewKind::Call =>
            "expected NAME or NAME=FUNCTION, as in .args=0x1::aptos_account::transfer",
        _ => "expected NAME=FORMAT, as in .args[1]=\"U64\"",
    };
    let refusal = refused(alloc, kind, "BadPath", text, expected)?;
    Ok(RefusedView {
        fault: None,
        refusal,
    })
}

/// A format that the registry refuses. Fails if memory ran out there.
pub(crate) fn refused_format(
    alloc: Global,
    registry: &Registry,
    text: &str,
    fault: RegistryFault,
) -> Result<RefusedView, AllocError> {
    let expected = match fault {
        RegistryFault::OutOfMemory => return Err(AllocError),
        RegistryFault::UnknownName =>
            "expected containers of the registry; a format without a name is JSON, as '\"U64\"'",
        RegistryFault::NotJson
        | RegistryFault::BadShape
        | RegistryFault::BadNumber
        | RegistryFault::TooNested
        | RegistryFault::RepeatedName => "expected the name of a container, or a format as JSON",
    };
    let kind = ViewKind::Inside;
    let message = match fault {
        RegistryFault::UnknownName => with_nearest(alloc, registry, kind, text, expected)?,
        _ => String::from_str(alloc, expected)?,
    };
    let refusal = refused(alloc, kind, fault.name(), text, message.as_str())?;
    Ok(RefusedView {
        fault: Some(fault),
        refusal,
    })
}

/// A function without containers.
pub(crate) fn unknown_function(
    alloc: Global,
    registry: &Registry,
    name: &str,
) -> Result<RefusedView, AllocError> {
    let kind = ViewKind::Call;
    let expected = "the registry has no containers for its arguments; bcs from-move makes them";
    let message = with_nearest(alloc, registry, kind, name, expected)?;
    unknown(alloc, kind, name, message.as_str())
}

// The message about a container that the registry lacks, and the one that was probably meant.
fn with_nearest(
    alloc: Global,
    registry: &Registry,
    kind: ViewKind,
    name: &str,
    expected: &str,
) -> Result<String, AllocError> {
    let suggestion = Suggestion::of(nearest_container(alloc, registry, kind, name)?);
    format!(in alloc; "{expected}{suggestion}")
}

/// A container that has no values of Move.
pub(crate) fn unknown_value(
    alloc: Global,
    kind: MoveKind,
    name: &str,
) -> Result<RefusedView, AllocError>
    ensures { IfOk result (λ refused. refused.fault ≡ Some UnknownName) }
{
    let expected =
        "expected a container of the registry that is a NEWTYPESTRUCT of a TUPLEARRAY of 32 U8";
    unknown(alloc, ViewKind::Value(kind), name, expected)
}

fn unknown(
    alloc: Global,
    kind: ViewKind,
    name: &str,
    expected: &str,
) -> Result<RefusedView, AllocError>
    ensures { IfOk result (λ refused. refused.fault ≡ Some UnknownName) }
{
    let fault = RegistryFault::UnknownName;
    let refusal = refused(alloc, kind, fault.name(), name, expected)?;
    Ok(RefusedView {
        fault: Some(fault),
        refusal,
    })
}

fn refused(
    alloc: Global,
    kind: ViewKind,
    fault: &'static str,
    text: &str,
    expected: &str,
) -> Result<Refusal, AllocError> {
    let location = Location::Name(String::from_str(alloc, text)?);
    let message = Vec::from_slice(alloc, expected.as_bytes())?;
    Ok(Refusal::of(fault, location, message).in_argument(kind.option()))
}
