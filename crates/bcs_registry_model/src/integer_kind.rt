//! Which formats are integers, and of which width.
ghost use Rattle.std.specs.Prelude.{◌≡◌, ◌≢◌, None, IfSome};
ghost use Rattle.bcs_registry_model.specs.View.{shape_of};
ghost use Rattle.bcs_registry_model.specs.Whole.{whole_shape, whole_len};
ghost use Rattle.bcs_registry_model.specs.declared.integer_kind.IntegerKind.{IntegerKind as Whole};

use crate::format::Format;
use crate::kind::Kind;
use crate::scalar::Scalar;
use bcs_num::Width;

/// An integer format, by sign and width.
#[derive(Clone, Copy, PartialEq, Eq)]
pub enum IntegerKind {
    Unsigned(Width),
    Signed(Width),
}

impl IntegerKind {
    /// The integer type of the format, or `None` if it isn't an integer.
    #[inline(always)]
    pub fn of(format: &Format) -> Option<IntegerKind>
        ensures found { IfSome result (λ n. shape_of format.now ≡ whole_shape n) }
        ensures none { result ≡ None → (n : Whole) → shape_of format.now ≢ whole_shape n }
    {
        match format.kind() {
            Kind::Scalar(Scalar::Whole(number)) => Some(number),
            Kind::Scalar(
                Scalar::Unit | Scalar::Bool | Scalar::Unsupported(_) | Scalar::Str | Scalar::Bytes,
            )
            | Kind::TypeName(_)
            | Kind::Opt(_)
            | Kind::Seq(_)
            | Kind::Map(_, _)
            | Kind::Tuple(_)
            | Kind::TupleArray(_, _) => None,
        }
    }

    /// The length of each integer, in bytes.
    pub fn byte_len(self) -> usize
        ensures { result ≡ whole_len self }
    {
        let (IntegerKind::Unsigned(width) | IntegerKind::Signed(width)) = self;
        width.byte_len()
    }
}
