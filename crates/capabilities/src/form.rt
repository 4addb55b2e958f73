//! The form of `capabilities`, `alwaysMatch` and `firstMatch`: objects, and lists of them.

ghost use Rattle.std.specs.Prelude.{◌≡◌, map, [], ◌∷◌};
ghost use Rattle.std.specs.List.{list_all};
ghost use Rattle.std.specs.Option.{option_map};
ghost use Rattle.capabilities.specs.Values.{is_object as object_value, members_of};
ghost use Rattle.capabilities.specs.Form.{capabilities_in, always_in, are_objects as are_some_objects, objects_in, firsts_in};
ghost use Rattle.wd_json.specs.declared.value.Json.TheVariants.{Object as AnObject};

use crate::values::{Member, as_list, as_object, find_value, is_object};
use wd_json::Json;

/// The members of the parameters' `capabilities`, if that is an object.
pub fn capabilities_of(parameters: &Json) -> Option<&[Member]>
    ensures { option_map (λ t. t.now) result ≡ capabilities_in parameters.now }
{
    as_object(find_value(as_object(parameters)?, "capabilities")?)
}

/// The members of `alwaysMatch`, if that is an object or absent.
pub fn always_of(capabilities: &[Member]) -> Option<&[Member]>
    ensures { option_map (λ t. t.now) result ≡ always_in capabilities.now }
{
    match find_value(capabilities, "alwaysMatch") {
        Some(value) => as_object(value),
        None => Some(&[]),
    }
}

fn all_are_objects(values: &[Json]) -> bool
    ensures { result ≡ list_all object_value values.now }
{
    values.iter().all(|value| is_object(value))
}

fn are_objects(values: &[Json]) -> bool
    ensures { result ≡ are_some_objects values.now }
{
    !values.is_empty() && all_are_objects(values)
}

// A list of one object or more.
fn objects_of(value: &Json) -> Option<&[Json]>
    ensures { option_map (λ t. t.now) result ≡ objects_in value.now }
{
    match as_list(value) {
        Some(values) if are_objects(values) => Some(values),
        _ => None,
    }
}

/// The objects of `firstMatch`, if that is such a list or absent; `absent` stands for it then.
pub fn firsts_of<'a>(capabilities: &'a [Member], absent: &'a [Json]) -> Option<&'a [Json]>
    requires { absent.now ≡ AnObject [] ∷ [] }
    ensures { option_map (λ t. map members_of t.now) result ≡ firsts_in capabilities.now }
{
    match find_value(capabilities, "firstMatch") {
        Some(value) => objects_of(value),
        None => Some(absent),
    }
}
