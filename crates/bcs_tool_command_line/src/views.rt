//! What `explain` looks into, and which values it shows as Move does.
ghost use Rattle.std.specs.Prelude.{◌≡◌, ◌++◌, IfOk, flat_map, map, option_map};
ghost use Rattle.clap.specs.Words.{found_of, rows_of};
ghost use Rattle.bcs_view_texts.specs.Kinds.{asked_of};
ghost use Rattle.bcs_tool_command_line.specs.Jobs.{HasViews, some_unless_empty, views_by};

use bcs_view_texts::{ViewKind, ViewText};
use clap::ArgMatches;
use std::alloc::{AllocError, Global};

/// The views that these arguments ask for, in the order of their options; `None` if there are none.
pub(crate) fn views_of(
    alloc: Global,
    given: &ArgMatches<'_>,
) -> Result<Option<Vec<ViewText>>, AllocError>
    ensures { IfOk result (HasViews (rows_of (found_of given.now))) }
{
    Ok(some_unless_empty(views_by(alloc, ViewKind::ALL, given)?))
}

// The views that the arguments ask for by these options.
fn views_by(
    alloc: Global,
    kinds: &[ViewKind],
    given: &ArgMatches<'_>,
) -> Result<Vec<ViewText>, AllocError>
    ensures { IfOk result (λ v. map asked_of v.items ≡ flat_map (views_by (rows_of (found_of given.now))) kinds.now) }
{
    let mut views = Vec::new(alloc);
    for kind in kinds {
        add_views_by(alloc, *kind, given, &mut views)?;
    }
    Ok(views)
}

// Adds those of one option.
fn add_views_by(
    alloc: Global,
    kind: ViewKind,
    given: &ArgMatches<'_>,
    views: &mut Vec<ViewText>,
) -> Result<(), AllocError>
    ensures { IfOk result (λ _. map asked_of views.new.items ≡ map asked_of views.old.items ++ views_by (rows_of (found_of given.now)) kind) }
{
    let texts = given.get_strs(kind.name()).unwrap_or(&[]);
    add_views(alloc, kind, texts, views)
}

// Adds the views that these texts of an option ask for.
fn add_views(
    alloc: Global,
    kind: ViewKind,
    texts: &[&str],
    views: &mut Vec<ViewText>,
) -> Result<(), AllocError>
    ensures { IfOk result (λ _. map asked_of views.new.items ≡ map asked_of views.old.items ++ map (λ t. (kind, t.now)) texts.now) }
{
    for text in texts {
        views.push(ViewText::new(alloc, kind, *text)?)?;
    }
    Ok(())
}

fn some_unless_empty(views: Vec<ViewText>) -> Option<Vec<ViewText>>
    ensures { option_map (λ v. map asked_of v.items) result ≡ some_unless_empty (map asked_of views.items) }
{
    if views.is_empty() { None } else { Some(views) }
}
