//! What is wrong, doubled or matched in the members of an object, null ones aside.

ghost use Rattle.std.specs.Prelude.{◌≡◌};
ghost use Rattle.std.specs.List.{list_all};
ghost use Rattle.std.specs.Option.{option_copied};
ghost use Rattle.capabilities.specs.Values.{value_of};
ghost use Rattle.capabilities.specs.Table.{is_match as matching_member};
ghost use Rattle.capabilities.specs.Choice.{given, wrong_in, has_name as has_name_of, doubled_in};

use crate::matched::Offer;
use crate::table::{is_match, is_valid};
use crate::values::{Member, is_null};
use wd_json::{Json, WdText};

/// The first name with a value that isn't valid.
pub fn wrong_name(members: &[Member]) -> Option<&WdText>
    ensures { option_copied result ≡ wrong_in members.now }
{
    match members
        .iter()
        .filter(|member| !is_null(&member.1))
        .find(|member| !is_valid(member))
    {
        Some(member) => Some(&member.0),
        None => None,
    }
}

fn has_name(name: &WdText, members: &[Member]) -> bool
    ensures { result ≡ has_name_of name.now (given members.now) }
{
    members
        .iter()
        .filter(|member| !is_null(&member.1))
        .any(|member| member.0.as_str() == name.as_str())
}

/// The first name of a first match that stands in the rest too.
pub fn doubled_name<'a>(always: &[Member], first: &'a [Member]) -> Option<&'a WdText>
    ensures { option_copied result ≡ doubled_in always.now first.now }
{
    match first
        .iter()
        .filter(|member| !is_null(&member.1))
        .find(|member| has_name(&member.0, always))
    {
        Some(member) => Some(&member.0),
        None => None,
    }
}

/// Whether a session of this end has all that members ask for.
pub fn all_match(offer: &Offer, members: &[Member]) -> bool
    ensures { result ≡ list_all (matching_member offer.now.name) (given members.now) }
{
    members
        .iter()
        .filter(|member| !is_null(&member.1))
        .all(|member| is_match(offer, member))
}

/// The value that is given for a name.
pub fn given_value<'a>(members: &'a [Member], name: &str) -> Option<&'a Json>
    ensures { option_copied result ≡ value_of name.now (given members.now) }
{
    match members
        .iter()
        .filter(|member| !is_null(&member.1))
        .find(|member| member.0.as_str() == name)
    {
        Some(member) => Some(&member.1),
        None => None,
    }
}
