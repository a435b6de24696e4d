//! Reading steps that don't depend on a format.
ghost use Rattle.std.specs.Prelude.{◌≡◌, Some, None, suc, option_map, IfOk};
ghost use Rattle.json.specs.Json.{read_key};
ghost use Rattle.bcs_json_passing.specs.Passing.{IfUnrefused};

use crate::given_up::GivenUp;
use json::Reader;

/// How deep arrays and objects may nest inside the one that opens here.
#[inline(always)]
pub fn inside(depth: usize) -> Result<usize, GivenUp>
    ensures ok { IfOk result (λ inner. depth ≡ suc inner) }
    ensures fault { IfUnrefused result }
{
    if depth == 0 {
        Err(GivenUp::Unusual)
    } else {
        Ok(depth - 1)
    }
}

/// The name of an object's next member, or `None` if the object ends here.
#[inline(always)]
pub fn next_member<'a>(reader: &mut Reader<'a>) -> Result<Option<&'a str>, GivenUp>
    ensures ok { IfOk result (λ name. read_key reader.old ≡ Some (option_map (λ s. s.now) name, reader.new)) }
    ensures fault { IfUnrefused result }
{
    match reader.next_key() {
        Ok(name) => Ok(name),
        Err(_) => Err(GivenUp::Unusual),
    }
}

/// The name of an object's next member. Gives up if there is none.
#[inline(always)]
pub fn next_name<'a>(reader: &mut Reader<'a>) -> Result<&'a str, GivenUp>
    ensures ok { IfOk result (λ name. read_key reader.old ≡ Some (Some name.now, reader.new)) }
    ensures fault { IfUnrefused result }
{
    match reader.next_key() {
        Ok(Some(name)) => Ok(name),
        _ => Err(GivenUp::Unusual),
    }
}

/// Skips the name of an object's next member. Gives up unless it is `wanted`.
#[inline(always)]
pub fn pass_name(reader: &mut Reader<'_>, wanted: &str) -> Result<(), GivenUp>
    ensures ok { IfOk result (λ _. read_key reader.old ≡ Some (Some wanted.now, reader.new)) }
    ensures fault { IfUnrefused result }
{
    let name = next_name(reader)?;
    if name == wanted {
        Ok(())
    } else {
        Err(GivenUp::Unusual)
    }
}

/// Skips the brace that closes an object.
#[inline(always)]
pub fn pass_end_object(reader: &mut Reader<'_>) -> Result<(), GivenUp>
    ensures ok { IfOk result (λ _. read_key reader.old ≡ Some (None, reader.new)) }
    ensures fault { IfUnrefused result }
{
    match reader.next_key() {
        Ok(None) => Ok(()),
        _ => Err(GivenUp::Unusual),
    }
}
