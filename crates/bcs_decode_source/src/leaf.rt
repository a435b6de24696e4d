//! Reads any value without parts. It is outside the recursion, to keep the frames of the recursive functions small.
ghost use Rattle.bcs_registry_model.specs.View.{shape_of};
ghost use Rattle.bcs_value_model.specs.View.{tree_of};
ghost use Rattle.bcs_decode_source.specs.Reads.{Ready, Reads};
ghost use Rattle.bcs_decode_source.specs.Sees.{OutOfMemoryIfAllocating, takes_no_memory, leaf_here};

use crate::leaves::{put_bytes, put_signed, put_text, put_truth, put_unit, put_unsigned, refuse};
use crate::reader::Reader;
use bcs_decode_spec::DecodeFault;
use bcs_io::ByteSource;
use bcs_registry_model::{Format, IntegerKind, Kind, Scalar};
use bcs_value_model::Value;

/// Reads a value of a format without parts. Other formats are read elsewhere, and give `Unsupported` here.
#[inline(never)]
pub fn leaf<S: ByteSource>(
    reader: &mut Reader<'_, S>,
    format: &Format,
    slot: &mut Value,
) -> Result<(), DecodeFault>
    requires ready { Ready S.is_failed S.allowance reader.old }
    ensures reads { Reads S.content S.is_failed S.allowance (λ _. tree_of slot.new) result reader.old (leaf_here (shape_of format.now)) reader.new }
    ensures memory { OutOfMemoryIfAllocating (takes_no_memory (shape_of format.now)) result reader.old.at.now }
{
    match format.kind() {
        Kind::Scalar(Scalar::Unit) => put_unit(reader, slot),
        Kind::Scalar(Scalar::Bool) => put_truth(reader, slot),
        Kind::Scalar(Scalar::Whole(IntegerKind::Unsigned(width))) => put_unsigned(
            reader, width, slot,
        ),
        Kind::Scalar(Scalar::Whole(IntegerKind::Signed(width))) => put_signed(reader, width, slot),
        Kind::Scalar(Scalar::Str) => put_text(reader, slot),
        Kind::Scalar(Scalar::Bytes) => put_bytes(reader, slot),
        Kind::Scalar(Scalar::Unsupported(_))
        | Kind::TypeName(_)
        | Kind::Opt(_)
        | Kind::Seq(_)
        | Kind::Map(_, _)
        | Kind::Tuple(_)
        | Kind::TupleArray(_, _) => refuse(reader),
    }
}
