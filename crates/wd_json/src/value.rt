//! A JSON value whose numbers are whole.

ghost use Rattle.std.specs.Prelude.{◌≡◌};
ghost use Rattle.wd_json.specs.Json.{data_of};
ghost use Rattle.wd_json.specs.declared.value.Json.{Json};

use crate::list::WdList;
use crate::map::WdMap;
use crate::text::WdText;

/// A JSON value (RFC 8259) whose numbers are whole. A call that rests on the numbers' range, plus
/// or minus 2^53 - 1, has that as a condition; the keys of an object rise by the map's invariant.
#[derive(Debug, Drop)]
pub enum Json {
    Null,
    Bool(bool),
    Int(i64),
    Text(WdText),
    List(JsonList),
    Object(JsonMap),
}

/// Values in order.
pub type JsonList = WdList<Json>;

/// The members of an object, in the order of their names.
pub type JsonMap = WdMap<Json>;

/// A law: no two values have the same data, so what `serde_json` reads from a text is one value.
pub fn one_value_for_data()
    ensures { (a b : Json) → data_of a ≡ data_of b → a ≡ b }
{}
