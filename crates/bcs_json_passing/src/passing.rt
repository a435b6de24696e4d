//! Passes JSON that isn't read, after a part was refused. It has to be JSON, and nests no deeper than allowed.
ghost use Rattle.std.specs.Prelude.{◌≡◌, ◌+◌, Some, IfOk, OnOk};
ghost use Rattle.json.specs.Reads.{token_of};
ghost use Rattle.json.specs.Token.{number};
ghost use Rattle.serde_json.specs.Data.{Data};
ghost use Rattle.bcs_json_passing.specs.Passing.{ArePassed, IfUnrefused, IsPassed, IsPassedFrom, MembersPassed, alone};

use crate::given_up::GivenUp;
use crate::steps::{inside, next_member};
use bcs_num::{Width, parse_signed, parse_unsigned};
use json::{Reader, Token};

/// Passes one value.
#[cycle(pass)]
pub fn pass_value(depth: usize, reader: &mut Reader<'_>) -> Result<(), GivenUp>
    ensures ok { OnOk result (IsPassed depth reader.old reader.new) }
    ensures fault { IfUnrefused result }
{
    let token = reader.next().ok_or(GivenUp::Unusual)?;
    pass_rest(token, depth, reader)
}

/// Passes the rest of the value that begins with `token`.
#[cycle(pass)]
pub fn pass_rest(token: Token<'_>, depth: usize, reader: &mut Reader<'_>) -> Result<(), GivenUp>
    ensures ok { OnOk result (IsPassedFrom (token_of token.entry) depth reader.old reader.new) }
    ensures fault { IfUnrefused result }
{
    match token {
        Token::Null => Ok(()),
        Token::Bool(_) => Ok(()),
        Token::String(_) => Ok(()),
        Token::Number(text) => pass_number(text),
        Token::BeginArray => {
            let inner = inside(depth)?;
            pass_items(inner, reader)?;
            Ok(())
        }
        Token::BeginObject => {
            let inner = inside(depth)?;
            pass_members(inner, reader)
        }
        _ => Err(GivenUp::Unusual),
    }
}

/// Passes items, up to the end of the array. Returns their number.
#[cycle(pass)]
pub fn pass_items(depth: usize, reader: &mut Reader<'_>) -> Result<usize, GivenUp>
    ensures ok { IfOk result (ArePassed depth reader.old reader.new) }
    ensures fault { IfUnrefused result }
{
    let mut count = 0;
    'items: while !reader.take_end_array() {
        pass_value(depth, reader)?;
        count = more(count)?;
    }
    Ok(count)
}

/// Passes members, up to the end of the object.
#[cycle(pass)]
pub fn pass_members(depth: usize, reader: &mut Reader<'_>) -> Result<(), GivenUp>
    ensures ok { OnOk result (MembersPassed depth reader.old reader.new) }
    ensures fault { IfUnrefused result }
{
    'members: while let Some(_) = next_member(reader)? {
        pass_value(depth, reader)?;
    }
    Ok(())
}

// A number that `serde_json` represents as an integer.
fn pass_number(text: &str) -> Result<(), GivenUp>
    ensures ok { OnOk result ((d : Data) × (alone (number text.now) ≡ Some d)) }
    ensures fault { IfUnrefused result }
{
    match parse_unsigned(Width::W8, text) {
        Some(_) => Ok(()),
        None => match parse_signed(Width::W8, text) {
            Some(_) => Ok(()),
            None => Err(GivenUp::Unusual),
        },
    }
}

fn more(count: usize) -> Result<usize, GivenUp>
    ensures ok { IfOk result (λ next. next ≡ count + 1) }
    ensures fault { IfUnrefused result }
{
    match count.checked_add(1) {
        Some(next) => Ok(next),
        None => Err(GivenUp::Unusual),
    }
}
