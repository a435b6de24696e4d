//! Reads a registry container by container, so that only the JSON of one container is in memory.
ghost use Rattle.std.specs.Prelude.{◌≡◌, ◌<◌, length, Some, IfOk, OnOk};
ghost use Rattle.json.specs.Json.{members, value};
ghost use Rattle.serde_json.specs.Data.{no_members};
ghost use Rattle.serde_json.specs.Read.{converted, of_json, of_members};
ghost use Rattle.bcs_registry_model.specs.Ranges.{IsInRange, IsOrderly};
ghost use Rattle.bcs_registry_model.specs.View.{container_of, entries_of};
ghost use Rattle.bcs_registry_json.specs.Shown.{shown_container, shown_containers};
ghost use Rattle.bcs_registry_json.specs.Text.{WritesRegistry};

use crate::container_text::container_from;
use crate::json_part::{next_name, next_value};
use bcs_registry_model::{Container, RegistryFault};
use json::{Reader, Scratch, Token};
use std::alloc::Global;
use std::collections::BTreeMap;

/// How deep the JSON of a container may nest: one level less than `serde_json` allows for the whole document.
const CONTAINER_DEPTH: usize = 126;

/// Reads the containers of a registry, by name. It stops at the first invalid container, so the fault need not be the
/// least one of the document, nor even be one.
pub fn containers_one_by_one(
    alloc: Global,
    text: &[u8],
) -> Result<BTreeMap<String, Container>, RegistryFault>
    ensures ok { IfOk result (λ m. WritesRegistry text.now (entries_of m.entries)) }
{
    let Ok(text) = simdutf8::compat::from_utf8(text) else {
        return Err(RegistryFault::NotJson);
    };
    let mut scratch = Scratch::new(alloc);
    let mut reader = Reader::new(text, &mut scratch)?;
    let Some(Token::BeginObject) = reader.next() else {
        return Err(RegistryFault::NotJson);
    };
    let containers = next_containers(alloc, &mut reader)?;
    if reader.next().is_some() {
        return Err(RegistryFault::NotJson);
    }
    Ok(containers)
}

/// Reads the containers after the opening brace of a registry, up to the closing one.
fn next_containers(
    alloc: Global,
    reader: &mut Reader<'_>,
) -> Result<BTreeMap<String, Container>, RegistryFault>
    ensures is { IfOk result (λ m. converted (λ ms. of_members ms no_members)
        (members (value 126) (length reader.old) reader.old)
        ≡ Some (shown_containers (entries_of m.entries), reader.new)) }
    ensures orderly { IfOk result (λ m. IsOrderly (entries_of m.entries)) }
{
    let mut containers = BTreeMap::new(alloc);
    'members: while let Some(name) = next_name(reader)? {
        let name = String::from_str(alloc, name)?;
        let container = next_container(alloc, reader)?;
        drop(containers.insert(name, container)?);
    }
    Ok(containers)
}

/// Reads the next container.
fn next_container(alloc: Global, reader: &mut Reader<'_>) -> Result<Container, RegistryFault>
    ensures is { IfOk result (λ c. converted of_json (value 126 reader.old)
        ≡ Some (shown_container (container_of c), reader.new)) }
    ensures range { IfOk result (λ c. IsInRange (container_of c)) }
    ensures shorter { OnOk result (length reader.new < length reader.old) }
{
    let part = next_value(alloc, reader, CONTAINER_DEPTH)?;
    container_from(alloc, &part)
}
