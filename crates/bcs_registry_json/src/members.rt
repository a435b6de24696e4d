//! Objects with one or two members.
ghost use Rattle.std.specs.Prelude.{◌≡◌, ℕ, List, IfSome, None};
ghost use Rattle.serde_json.specs.Data.{Data, member, no_members};
ghost use Rattle.serde_json.specs.View.{members_view, view};

use serde_json::{Map, Value};

/// The name and the value of the only member of an object.
pub fn only_member(members: &Map<String, Value>) -> Option<(&str, &Value)>
    ensures some { IfSome result (λ m. members_view members.now.entries
        ≡ member m.0.now (view m.1.now) no_members) }
    ensures none { result ≡ None → (name : List ℕ) (d : Data)
        → members_view members.now.entries ≡ member name d no_members → ⊥ }
{
    let mut entries = members.iter();
    match entries.next() {
        Some((name, value)) => if entries.next().is_none() {
            Some((name.as_str(), value))
        } else {
            None
        },
        None => None,
    }
}

/// The values of an object with exactly these two members, where `first` sorts before `second`.
pub fn two_members<'v>(
    members: &'v Map<String, Value>,
    first: &str,
    second: &str,
) -> Option<(&'v Value, &'v Value)>
    ensures some { IfSome result (λ p. members_view members.now.entries
        ≡ member first.now (view p.0.now) (member second.now (view p.1.now) no_members)) }
    ensures none { result ≡ None → (d e : Data) → members_view members.now.entries
        ≡ member first.now d (member second.now e no_members) → ⊥ }
{
    let mut entries = members.iter();
    let (one, value) = entries.next()?;
    let (other, next) = entries.next()?;
    if one.as_str() == first && other.as_str() == second && entries.next().is_none() {
        Some((value, next))
    } else {
        None
    }
}
