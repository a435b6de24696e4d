//! Opens a container: determines its layout, which for an enum depends on the variant.
ghost use Rattle.std.specs.Prelude.{◌≡◌, ℕ, ◌+◌, ◌<◌, ◌≤◌, ◌^◌, List, IfOk, length};
ghost use Rattle.bcs_registry_model.specs.Container as spec;
ghost use Rattle.bcs_registry_model.specs.Container.{Entries, content_at};
ghost use Rattle.bcs_registry_model.specs.Layout.{layout_shape};
ghost use Rattle.bcs_registry_model.specs.View.{container_of};
ghost use Rattle.bcs_registry_model.specs.WellFormed.{IsWellFormed, levels};
ghost use Rattle.bcs_decode_spec.specs.Steps.{opened_here};
ghost use Rattle.bcs_decode_slice.specs.Passing.{Passes, Onward};

use crate::cursor::Cursor;
use crate::shallow::variant_number;
use bcs_decode_spec::{Reason, Stop};
use bcs_registry::Container;
use bcs_registry_model::{Content, Layout};

/// The layout of a struct, or of the variant whose number is read first. Inlined: opening a struct costs no call.
#[inline(always)]
pub fn opened<'r>(container: &'r Container, cursor: &mut Cursor) -> Result<Layout<'r>, Stop>
    requires room { cursor.old.place + length cursor.old.rest.now < 2 ^ 64 }
    ensures passes { Passes layout_shape result (opened_here (spec.content (container_of container.now))) cursor.old cursor.new }
    ensures onward { Onward cursor.old cursor.new }
    ensures levels { IfOk result (λ l. (registry : Entries) (name : List ℕ) → IsWellFormed registry
        → content_at name registry ≡ spec.content (container_of container.now) → levels (layout_shape l) ≤ 33) }
{
    match container.content() {
        Content::Of(layout) => Ok(layout),
        Content::OneOf(variants) => {
            let (start, number) = variant_number(cursor)?;
            match variants.get(&number) {
                Some(variant) => Ok(variant.value.layout()),
                None => Err(Stop {
                    reason: Reason::UnknownVariant,
                    place: start,
                }),
            }
        }
    }
}
