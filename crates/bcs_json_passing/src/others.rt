//! Passes the members of a struct after one was refused.
ghost use Rattle.std.specs.Prelude.{◌≡◌, OnOk, map, string_bytes};
ghost use Rattle.std.specs.List.{list_any};
ghost use Rattle.std.specs.Str.{bytes_eq};
ghost use Rattle.bcs_json_passing.specs.Passing.{IfUnrefused, IsNamePassed, OthersPassed};

use crate::given_up::GivenUp;
use crate::passing::pass_value;
use crate::steps::next_member;
use bcs_registry::{Format, Named};
use json::Reader;

/// Passes members, up to the end of the object. Gives up if one of them belongs to a field of `known`.
pub fn pass_others(
    known: &[Named<Format>],
    depth: usize,
    reader: &mut Reader<'_>,
) -> Result<(), GivenUp>
    ensures ok { OnOk result (OthersPassed (map (λ f. string_bytes f.name) known.now) depth reader.old reader.new) }
    ensures fault { IfUnrefused result }
{
    'members: while let Some(name) = next_member(reader)? {
        if is_known(known, name) {
            return Err(GivenUp::Unusual);
        }
        pass_value(depth, reader)?;
    }
    Ok(())
}

/// The same, where the name of the first member has been read.
pub fn pass_named(
    known: &[Named<Format>],
    name: &str,
    depth: usize,
    reader: &mut Reader<'_>,
) -> Result<(), GivenUp>
    ensures ok { OnOk result (IsNamePassed (map (λ f. string_bytes f.name) known.now) name.now depth reader.old reader.new) }
    ensures fault { IfUnrefused result }
{
    if is_known(known, name) {
        return Err(GivenUp::Unusual);
    }
    pass_value(depth, reader)?;
    pass_others(known, depth, reader)
}

fn is_known(known: &[Named<Format>], name: &str) -> bool
    ensures { result ≡ list_any (bytes_eq name.now) (map (λ f. string_bytes f.name) known.now) }
{
    for field in known {
        if name == field.name.as_str() {
            return true;
        }
    }
    false
}
