//! Reads lists of integers from a source, in one loop.
ghost use Rattle.std.specs.Prelude.{◌≡◌, ℕ, ◌*◌, ◌<◌, ◌≤◌, ◌++◌, [], length, map, take, vec_capacity, OnOk, IfSome, None};
ghost use Rattle.bcs_registry_model.specs.Whole.{whole_len, whole_shape};
ghost use Rattle.bcs_value_model.specs.View.{items_trees, tree_of};
ghost use Rattle.bcs_decode_source.specs.Numbers.{number_of, numbers};
ghost use Rattle.bcs_decode_source.specs.Reads.{Ready, Reads, room_for};
ghost use Rattle.bcs_decode_source.specs.Sees.{leaf_here, row_leaf};

use crate::bytes::read_exact;
use crate::reader::Reader;
use crate::share::{BLOCK, share};
use bcs_decode_spec::{DecodeFault, Reason, Stop};
use bcs_io::ByteSource;
use bcs_num::{leading_signed, leading_unsigned};
use bcs_registry_model::IntegerKind;
use bcs_value_model::Value;
use std::alloc::AllocError;

/// Reads `count` integers, a block at a time. A block never has more integers than there are nodes left.
#[inline(never)]
pub fn push_numbers<S: ByteSource>(
    reader: &mut Reader<'_, S>,
    format: IntegerKind,
    count: u64,
    found: &mut Vec<Value>,
) -> Result<(), DecodeFault>
    requires ready { Ready S.is_failed S.allowance reader.old }
    requires empty { found.old.items ≡ [] }
    requires reserved { vec_capacity found.old ≡ room_for reader.old count }
    ensures reads { Reads S.content S.is_failed S.allowance (λ _. items_trees found.new.items) result reader.old (row_leaf (leaf_here (whole_shape format)) count) reader.new }
{
    let width = format.byte_len();
    let mut block = [0u8; BLOCK];
    let mut done = 0;
    while done < count {
        let some = share(width, count - done, reader.at.nodes);
        if some == 0 {
            return Err(DecodeFault::Stop(Stop {
                reason: Reason::TooManyNodes,
                place: reader.at.place,
            }));
        }
        reader.at.nodes -= some;
        let size = some as usize * width;
        read_exact(reader, &mut block[..size])?;
        push_block(format, &block[..size], found)?;
        done += u64::from(some);
    }
    Ok(())
}

/// Appends the integers in `bytes`.
fn push_block(format: IntegerKind, bytes: &[u8], found: &mut Vec<Value>) -> Result<(), AllocError>
    ensures { (n : ℕ) → length bytes.now ≡ n * whole_len format
        → OnOk result (map tree_of found.new.items ≡ map tree_of found.old.items ++ numbers format n bytes.now) }
{
    let mut rest = bytes;
    while let Some(number) = front_number(format, rest) {
        found.push(number)?;
        rest = rest.split_at(format.byte_len()).1;
    }
    Ok(())
}

/// The first integer in `bytes`. `None` if there are too few bytes.
#[inline(always)]
fn front_number(format: IntegerKind, bytes: &[u8]) -> Option<Value>
    ensures found { IfSome result (λ v. (whole_len format ≤ length bytes.now) × (tree_of v ≡ number_of format (take (whole_len format) bytes.now))) }
    ensures none { result ≡ None → length bytes.now < whole_len format }
{
    match format {
        IntegerKind::Unsigned(width) => Some(Value::Unsigned(leading_unsigned(width, bytes)?)),
        IntegerKind::Signed(width) => Some(Value::Signed(leading_signed(width, bytes)?)),
    }
}
