//! The width of formats whose values are any bytes of that width.
ghost use Rattle.std.specs.Prelude.{◌≡◌, ℕ, ◌≤◌, List, IfSome};
ghost use Rattle.bcs_registry_model.specs.Container.{Entries};
ghost use Rattle.bcs_registry_model.specs.View.{shape_of};
ghost use Rattle.bcs_decode_spec.specs.Steps.{skip, whole_here};
ghost use Rattle.bcs_decode_spec.specs.Width.{integer_width};

use bcs_num::GREATEST_LEN;
use bcs_registry_model::{Format, Kind, Scalar};

/// The byte width of the format's values, if any bytes of that width encode one.
#[inline(never)]
pub fn integer_width(format: &Format) -> Option<usize>
    ensures is { result ≡ integer_width (shape_of format.now) }
    ensures reads { IfSome result (λ w. (w ≤ GREATEST_LEN) × ((registry : Entries) (d p m : ℕ) (b : List ℕ) → skip registry d (shape_of format.now) p m b ≡ whole_here w p m b)) }
{
    match format.kind() {
        Kind::Scalar(Scalar::Unit) => Some(0),
        Kind::Scalar(Scalar::Whole(number)) => Some(number.byte_len()),
        Kind::Scalar(Scalar::Bool | Scalar::Unsupported(_) | Scalar::Str | Scalar::Bytes)
        | Kind::TypeName(_)
        | Kind::Opt(_)
        | Kind::Seq(_)
        | Kind::Map(_, _)
        | Kind::Tuple(_)
        | Kind::TupleArray(_, _) => None,
    }
}
