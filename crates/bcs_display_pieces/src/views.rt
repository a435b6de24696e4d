//! Which byte strings are explained piece by piece, and which containers are shown as values of Move.
ghost use Rattle.std.specs.Prelude.{◌≡◌, IfErr, IfOk, IfSome, Some, false, true};
ghost use Rattle.bcs_registry_model.specs.declared.fault.RegistryFault.TheVariants.{UnknownName};
ghost use Rattle.bcs_display_pieces.specs.IsPlain.{IsPlain};
ghost use Rattle.bcs_display_pieces.specs.Viewing.{HasMoveValue, NamesNoString, RefusesView, RefusesViews, names_string};

use crate::formats::read_format;
use crate::functions::Function;
use crate::move_values::{has_move_value, standard_kind, whole_container};
use crate::named_texts::name_and_rest;
use crate::patterns::matches;
use crate::refused_view::{RefusedView, bad_path, refused_format, unknown_function, unknown_value};
use bcs_explain::{Meaning, Trail};
use bcs_registry::Registry;
use bcs_view_texts::{MoveKind, ViewKind, ViewText};
use std::alloc::{AllocError, Global};

/// A text that was given, and the option that has it.
#[derive(Debug, Drop)]
pub(crate) struct Source {
    pub kind: ViewKind,
    pub name: String,
}

/// A byte string that is explained.
#[derive(Debug, Drop)]
pub(crate) struct InsideView {
    /// The index of the source that asked for it.
    pub source: usize,
    pub name: String,
    /// A container's name, or JSON.
    pub format: String,
}

/// A list that has the arguments of a function.
#[derive(Debug, Drop)]
pub(crate) struct CallView {
    /// The index of the source that asked for it.
    pub source: usize,
    pub name: String,
    /// `None`: the function that is called.
    pub function: Option<Function>,
}

#[derive(Debug, Drop)]
struct ValueView {
    kind: MoveKind,
    container: String,
}

/// Which byte strings are explained piece by piece, and which containers are shown as values of Move.
#[derive(Debug, Drop)]
pub struct Views {
    sources: Vec<Source>,
    insides: Vec<InsideView>,
    calls: Vec<CallView>,
    values: Vec<ValueView>,
}

impl Views {
    /// No byte strings. Only the containers `address`, `u256` and `i256` are shown as values of Move, if they have
    /// 32 `U8`.
    pub fn none(alloc: Global) -> Views
        ensures { IsPlain result }
    {
        Views {
            sources: Vec::new(alloc),
            insides: Vec::new(alloc),
            calls: Vec::new(alloc),
            values: Vec::new(alloc),
        }
    }

    /// The views that these texts ask for, which are read in the order of their options.
    pub fn read(
        alloc: Global,
        registry: &Registry,
        texts: &[ViewText],
    ) -> Result<Result<Views, RefusedView>, AllocError>
        ensures plain { IfOk result (λ r. IfOk r (λ views. NamesNoString texts.now → IsPlain views)) }
        ensures refused { IfOk result (λ r. IfErr r (λ refused. RefusesViews registry.now texts.now refused.fault)) }
    {
        let mut views = Views::none(alloc);
        for kind in ViewKind::ALL {
            if let Some(refused) = views.add_kind(alloc, registry, *kind, texts)? {
                return Ok(Err(refused));
            }
        }
        Ok(Ok(views))
    }

    // Adds the views that one option asks for.
    fn add_kind(
        &mut self,
        alloc: Global,
        registry: &Registry,
        kind: ViewKind,
        texts: &[ViewText],
    ) -> Result<Option<RefusedView>, AllocError>
        ensures kept { NamesNoString texts.now → IsPlain self.old → IsPlain self.new }
        ensures refused { IfOk result (λ r. IfSome r (λ refused. RefusesViews registry.now texts.now refused.fault)) }
    {
        for view in texts {
            if view.kind == kind {
                if let Some(refused) = self.add_view(alloc, registry, view)? {
                    return Ok(Some(refused));
                }
            }
        }
        Ok(None)
    }

    fn add_view(
        &mut self,
        alloc: Global,
        registry: &Registry,
        view: &ViewText,
    ) -> Result<Option<RefusedView>, AllocError>
        ensures kept { names_string view.now.kind ≡ false → IsPlain self.old → IsPlain self.new }
        ensures refused { IfOk result (λ r. IfSome r (λ refused. RefusesView registry.now view.now refused.fault)) }
    {
        let text = view.text.as_str();
        match view.kind {
            ViewKind::Inside => self.add_inside(alloc, registry, text),
            ViewKind::Call => self.add_call(alloc, registry, text),
            ViewKind::Value(kind) => self.add_value(alloc, registry, kind, text),
        }
    }

    fn add_source(
        &mut self,
        alloc: Global,
        kind: ViewKind,
        name: &str,
    ) -> Result<usize, AllocError> {
        let name = String::from_str(alloc, name)?;
        let index = self.sources.len();
        self.sources.push(Source { kind, name })?;
        Ok(index)
    }

    fn add_inside(
        &mut self,
        alloc: Global,
        registry: &Registry,
        text: &str,
    ) -> Result<Option<RefusedView>, AllocError> {
        let Some((name, Some(format))) = name_and_rest(text) else {
            return Ok(Some(bad_path(alloc, ViewKind::Inside, text)?));
        };
        if let Err(fault) = read_format(alloc, registry, format) {
            return Ok(Some(refused_format(alloc, registry, format, fault)?));
        }
        let source = self.add_source(alloc, ViewKind::Inside, name)?;
        self.insides.push(InsideView {
            source,
            name: String::from_str(alloc, name)?,
            format: String::from_str(alloc, format)?,
        })?;
        Ok(None)
    }

    fn add_call(
        &mut self,
        alloc: Global,
        registry: &Registry,
        text: &str,
    ) -> Result<Option<RefusedView>, AllocError> {
        let Some((name, function)) = name_and_rest(text) else {
            return Ok(Some(bad_path(alloc, ViewKind::Call, text)?));
        };
        // (no language has to leave out the `=`)
        let function = match function.filter(|name| !name.is_empty()) {
            None => None,
            Some(function) => match Function::named(alloc, registry, function)? {
                Some(function) => Some(function),
                None => return Ok(Some(unknown_function(alloc, registry, function)?)),
            },
        };
        let source = self.add_source(alloc, ViewKind::Call, name)?;
        let name = String::from_str(alloc, name)?;
        self.calls.push(CallView {
            source,
            name,
            function,
        })?;
        Ok(None)
    }

    fn add_value(
        &mut self,
        alloc: Global,
        registry: &Registry,
        kind: MoveKind,
        name: &str,
    ) -> Result<Option<RefusedView>, AllocError>
        ensures kept { IsPlain self.old → IsPlain self.new }
        ensures refused { IfOk result (λ r. IfSome r (λ refused. (HasMoveValue registry.now name.now → ⊥) × (refused.fault ≡ Some UnknownName))) }
    {
        if !has_move_value(registry, name) {
            return Ok(Some(unknown_value(alloc, kind, name)?));
        }
        let container = String::from_str(alloc, name)?;
        self.values.push(ValueView { kind, container })?;
        Ok(None)
    }

    /// Whether no byte string is explained.
    pub(crate) fn is_plain(&self) -> bool
        ensures { IsPlain self.now → result ≡ true }
    {
        self.insides.is_empty() && self.calls.is_empty()
    }

    pub(crate) fn insides(&self) -> &[InsideView] {
        &self.insides
    }

    /// The function whose arguments are in the list with this printed name.
    pub(crate) fn call_at(&self, name: &[u8]) -> Option<&CallView> {
        self.calls
            .iter()
            .find(|view| matches(view.name.as_bytes(), name))
    }

    pub(crate) fn calls(&self) -> &[CallView] {
        &self.calls
    }

    pub(crate) fn sources(&self) -> &[Source] {
        &self.sources
    }

    /// How to show a piece, if it is a value of Move.
    pub(crate) fn kind_of(
        &self,
        registry: &Registry,
        trail: &Trail<'_, '_, '_>,
        meaning: Meaning<'_>,
        size: usize,
    ) -> Option<MoveKind> {
        let name = whole_container(trail, meaning, size)?;
        let kind = self.named_kind(name)?;
        if has_move_value(registry, name) {
            Some(kind)
        } else {
            None
        }
    }

    fn named_kind(&self, name: &str) -> Option<MoveKind> {
        match self
            .values
            .iter()
            .find(|view| view.container.as_str() == name)
        {
            Some(view) => Some(view.kind),
            None => standard_kind(name),
        }
    }
}
