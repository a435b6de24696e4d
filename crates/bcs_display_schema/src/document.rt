//! A schema together with its definitions.

use crate::definitions::{Definitions, definition_schema};
use bcs_registry::Registry;
use serde::{Described, Serialize, Serializer};
use serde_json::{Map, Value};
use std::alloc::Global;

/// The member that contains the definitions.
pub(crate) const DEFINITIONS: &str = "$defs";

/// A schema that prints the definitions as its `$defs` member, whatever value that member has. Each definition is built
/// only while it is written, so at most one is in memory.
#[derive(Drop)]
pub(crate) struct Document<'r> {
    pub(crate) alloc: Global,
    pub(crate) registry: &'r Registry,
    pub(crate) schema: Value,
    pub(crate) definitions: Definitions<'r>,
}

impl Described for Document<'_> {}

impl Serialize for Document<'_> {
    fn serialize<S: Serializer>(&self, out: &mut S) -> Result<(), S::Error> {
        match self.schema.as_object() {
            Some(members) => self.send_members(members, out),
            None => self.schema.serialize(out),
        }
    }
}

impl Document<'_> {
    fn send_members<S: Serializer>(
        &self,
        members: &Map<String, Value>,
        out: &mut S,
    ) -> Result<(), S::Error> {
        out.begin_map(Some(members.len()))?;
        for (name, member) in members {
            out.key(name.as_str())?;
            if name.as_str() == DEFINITIONS {
                self.send_definitions(out)?;
            } else {
                member.serialize(out)?;
            }
        }
        out.end_map()
    }

    fn send_definitions<S: Serializer>(&self, out: &mut S) -> Result<(), S::Error> {
        out.begin_map(Some(self.definitions.len()))?;
        for (name, definition) in &self.definitions {
            out.key(*name)?;
            match definition_schema(self.alloc, self.registry, *name, definition) {
                Ok(schema) => schema.serialize(out)?,
                Err(_) => return Err(out.custom("out of memory")),
            }
        }
        out.end_map()
    }
}
