//! Where a registry breaks a rule.

use crate::nearest_containers::nearest_container;
use crate::owners::{Owner, Slot};
use bcs_display_mistakes::Suggestion;
use bcs_display_refusal::{Location, Name, Refusal};
use bcs_registry::{Container, Format, Named, RegistryFault, VariantFormat};
use bcs_registry_json::one_by_one::containers_one_by_one;
use bcs_registry_model::containers::Containers;
use bcs_registry_model::known::first_unknown;
use bcs_registry_model::levels::has_few_levels;
use std::alloc::{AllocError, Global};
use std::collections::{BTreeMap, BTreeSet};

/// The refusal for the first rule, in the order of the faults, that the containers in a registry's JSON break, and for the
/// first place where they break it. `None`: they break none. Fails if the text isn't JSON or has a wrong shape, perhaps
/// with another fault than the registry's.
pub fn broken_rule(alloc: Global, text: &[u8]) -> Result<Option<Refusal>, RegistryFault> {
    let containers = Containers::of(alloc, containers_one_by_one(alloc, text)?)?;
    let mut search = Search::over(alloc, &containers);
    for (name, container) in containers.entries() {
        search.container(name.as_str(), container)?;
    }
    Ok(search.first())
}

fn broken(fault: &'static str, location: Location, message: String) -> Refusal {
    Refusal::of(fault, location, message.into_bytes())
}

/// A search for the first place where each rule is broken, in one pass over the containers.
#[derive(Drop)]
struct Search<'a> {
    alloc: Global,
    containers: &'a Containers,
    too_nested: Option<Refusal>,
    repeated: Option<Refusal>,
    unknown: Option<Refusal>,
}

impl<'a> Search<'a> {
    fn over(alloc: Global, containers: &'a Containers) -> Search<'a> {
        Search {
            alloc,
            containers,
            too_nested: None,
            repeated: None,
            unknown: None,
        }
    }

    fn first(self) -> Option<Refusal> {
        self.too_nested.or(self.repeated).or(self.unknown)
    }

    fn container(&mut self, name: &str, container: &Container) -> Result<(), AllocError> {
        let owner = Owner {
            container: name,
            variant: None,
        };
        match container {
            Container::UnitStruct => Ok(()),
            Container::NewTypeStruct(format) => self.format(owner, Slot::Whole, format),
            Container::TupleStruct(formats) => self.row(owner, formats.as_slice()),
            Container::Struct(fields) => self.fields(owner, fields.as_slice()),
            Container::Enum(variants) => self.variants(name, variants),
        }
    }

    fn variants(
        &mut self,
        container: &str,
        variants: &BTreeMap<u32, Named<VariantFormat>>,
    ) -> Result<(), AllocError> {
        self.variant_names(container, variants)?;
        for (number, variant) in variants {
            let owner = Owner {
                container,
                variant: Some((*number, variant.name.as_str())),
            };
            self.payload(owner, &variant.value)?;
        }
        Ok(())
    }

    fn variant_names(
        &mut self,
        container: &str,
        variants: &BTreeMap<u32, Named<VariantFormat>>,
    ) -> Result<(), AllocError> {
        if self.repeated.is_some() {
            return Ok(());
        }
        let mut seen = BTreeSet::new(self.alloc);
        for variant in variants.values() {
            if !seen.insert(variant.name.as_str())? {
                let owner = Owner {
                    container,
                    variant: None,
                };
                self.repeated = Some(self.repeated_name(owner, "variants", variant.name.as_str())?);
                return Ok(());
            }
        }
        Ok(())
    }

    fn repeated_name(
        &self,
        owner: Owner<'_>,
        what: &str,
        name: &str,
    ) -> Result<Refusal, AllocError> {
        let location = owner.location(self.alloc, Slot::Whole)?;
        let name = Name::of(name);
        let message = format!(in self.alloc; "two {what} are called {name}")?;
        Ok(broken("RepeatedName", location, message))
    }

    fn payload(&mut self, owner: Owner<'_>, payload: &VariantFormat) -> Result<(), AllocError> {
        match payload {
            VariantFormat::Unit => Ok(()),
            VariantFormat::NewType(format) => self.format(owner, Slot::Whole, format),
            VariantFormat::Tuple(formats) => self.row(owner, formats.as_slice()),
            VariantFormat::Struct(fields) => self.fields(owner, fields.as_slice()),
        }
    }

    fn row(&mut self, owner: Owner<'_>, formats: &[Format]) -> Result<(), AllocError> {
        for (i, format) in formats.iter().enumerate() {
            self.format(owner, Slot::Numbered(i), format)?;
        }
        Ok(())
    }

    fn fields(&mut self, owner: Owner<'_>, fields: &[Named<Format>]) -> Result<(), AllocError> {
        let mut seen = BTreeSet::new(self.alloc);
        for field in fields {
            let name = field.name.as_str();
            self.format(owner, Slot::Field(name), &field.value)?;
            if self.repeated.is_none() && !seen.insert(name)? {
                self.repeated = Some(self.repeated_name(owner, "fields", name)?);
            }
        }
        Ok(())
    }

    fn format(
        &mut self,
        owner: Owner<'_>,
        slot: Slot<'_>,
        format: &Format,
    ) -> Result<(), AllocError> {
        if self.too_nested.is_none() && !has_few_levels(format) {
            let location = owner.location(self.alloc, slot)?;
            let message = String::from_str(self.alloc, "a format has more than 32 levels")?;
            self.too_nested = Some(broken("TooNested", location, message));
        }
        if self.unknown.is_some() {
            return Ok(());
        }
        if let Some(name) = first_unknown(format, self.containers) {
            let nearest = nearest_container(self.alloc, self.containers, name)?;
            let (name, suggestion) = (Name::of(name), Suggestion::of(nearest));
            let location = owner.location(self.alloc, slot)?;
            let message = format!(in self.alloc; "no container is called {name}{suggestion}")?;
            self.unknown = Some(broken("UnknownName", location, message));
        }
        Ok(())
    }
}
