//! Registries: containers by name.
ghost use Rattle.std.specs.Prelude.{◌≡◌, ℕ, List, option_map, length, string_bytes, IfOk, IfSome};
ghost use Rattle.bcs_registry_model.specs.Container.{Entries, container_at, content, content_at, variant_number};
ghost use Rattle.bcs_registry_model.specs.Ranges.{IsOrderly};
ghost use Rattle.bcs_registry_json.specs.Shown.{shown_registry};
ghost use Rattle.bcs_registry_json.specs.Text.{WritesRegistry};
ghost use Rattle.bcs_registry_model.specs.Shape.{name as name_shape};
ghost use Rattle.bcs_registry_model.specs.View.{container_of, entries_of, shape_of};
ghost use Rattle.bcs_registry_model.specs.WellFormed.{IsWellFormed};
ghost use Rattle.bcs_registry_model.specs.Names.{FindsNumbers};
ghost use Rattle.serde_json.specs.Written.{compact_text};

use bcs_registry_json::printing::registry_value;
use bcs_registry_model::containers::Containers;
use bcs_registry_model::{Container, Format, Kind, VariantNumbers};
use std::alloc::{AllocError, Global};
use std::marker::Model;

/// A well-formed finite map from names to containers. Well-formed means: each `TypeName` is a name of the map, each
/// format has at most 32 levels, and names are distinct in each struct, struct payload and enum. It is also orderly:
/// names ascend byte by byte, the variant numbers of an enum ascend and are below 2^32, and each `SIZE` is below 2^64.
#[derive(Drop)]
pub struct Registry {
    containers: Containers,
    /// The variant numbers of all enums by name, to look them up quickly.
    numbers: VariantNumbers,
}

impl Model for Registry {
    ghost use Rattle.bcs_registry_model.specs.Container.{Entries};
    ghost use Rattle.bcs_registry_model.specs.Ranges.{IsOrderly};
    ghost use Rattle.bcs_registry_model.specs.View.{entries_of};
    ghost use Rattle.bcs_registry_model.specs.WellFormed.{IsWellFormed};
    ghost use Rattle.bcs_registry_model.specs.Names.{FindsNumbers};
    ghost use Rattle.std.specs.Coded.{codes};
    ghost use Rattle.bcs_registry.specs.Codes.{shape_coded, shapes_coded};

    ghost Value = { Entries };

    ghost coded = { Prim.hlevel (codes, shape_coded, shapes_coded) };

    ghost view = { λ r. entries_of r.containers.entries.items };

    ghost invariant = { λ r.
        IsWellFormed (entries_of r.containers.entries.items) × IsOrderly (entries_of r.containers.entries.items)
        × FindsNumbers r.numbers (entries_of r.containers.entries.items) };
}

impl Registry {
    /// The container with this name.
    pub fn container(&self, name: &str) -> Option<&Container>
        ensures found { option_map (λ c. container_of c.now) result ≡ container_at name.now self.now }
        ensures well_formed { IsWellFormed self.now }
        ensures orderly { IsOrderly self.now }
    {
        self.containers.get(name)
    }

    /// The same, with the places of its fields in the order of their names. These are a guess that has to be checked:
    /// there are none if it isn't a struct, or if many names have the same hash.
    pub fn container_with_order(&self, name: &str) -> Option<(&Container, &[u32])>
        ensures found { option_map (λ c. container_of c.0.now) result ≡ container_at name.now self.now }
        ensures well_formed { IsWellFormed self.now }
        ensures orderly { IsOrderly self.now }
    {
        self.containers.get_with_order(name)
    }

    /// The container that the format names. `None` if it isn't a name, or if there is no such container.
    #[inline(never)]
    pub fn named_container(&self, format: &Format) -> Option<&Container>
        ensures found { IfSome result (λ c. (name : List ℕ) × (shape_of format.now ≡ name_shape name)
            × (content_at name self.now ≡ content (container_of c.now))) }
        ensures named { (name : List ℕ) → shape_of format.now ≡ name_shape name
            → option_map (λ c. container_of c.now) result ≡ container_at name self.now }
        ensures well_formed { IsWellFormed self.now }
    {
        self.recall();
        match format.kind() {
            Kind::TypeName(name) => self.container(name),
            Kind::Scalar(_)
            | Kind::Opt(_)
            | Kind::Seq(_)
            | Kind::Map(_, _)
            | Kind::Tuple(_)
            | Kind::TupleArray(_, _) => None,
        }
    }

    /// The number of a variant, by the names of enum and variant. Takes time logarithmic in the number of names.
    pub fn variant_number(&self, container: &str, variant: &str) -> Option<u32>
        ensures { result ≡ variant_number container.now variant.now self.now }
    {
        self.numbers.number(container, variant)
    }

    /// States the invariant of registries, for proofs in other crates. It does nothing.
    pub fn recall(&self)
        ensures well_formed { IsWellFormed self.now }
        ensures orderly { IsOrderly self.now }
    {
        let _ = &self.containers;
    }

    /// The number of containers.
    pub fn len(&self) -> usize
        ensures length { result ≡ length self.now }
        ensures orderly { IsOrderly self.now }
    {
        self.containers.len()
    }

    /// The containers, by name.
    pub fn containers(&self) -> &Containers
        ensures is { entries_of result.now.entries.items ≡ self.now }
        ensures well_formed { IsWellFormed self.now }
        ensures orderly { IsOrderly self.now }
    {
        &self.containers
    }

    /// A registry with these containers, whose variants have these numbers.
    pub(crate) fn of(containers: Containers, numbers: VariantNumbers) -> Registry
        requires well_formed { IsWellFormed (entries_of containers.entries.items) }
        requires orderly { IsOrderly (entries_of containers.entries.items) }
        requires found { FindsNumbers numbers (entries_of containers.entries.items) }
        ensures { result ≡ entries_of containers.entries.items }
    {
        Registry {
            containers,
            numbers,
        }
    }

    /// Prints compact JSON, with members sorted by the bytes of their names. Fails only if memory runs out.
    pub fn print(&self, alloc: Global) -> Result<String, AllocError>
        ensures text { IfOk result (λ s. string_bytes s ≡ compact_text (shown_registry self.now)) }
        ensures reads_back { IfOk result (λ s. WritesRegistry (string_bytes s) self.now) }
        ensures no_other { IfOk result (λ s.
            (other : Entries) → WritesRegistry (string_bytes s) other → other ≡ self.now) }
    {
        registry_value(alloc, &self.containers)?.to_string(alloc)
    }
}
