//! The object with a command's parameters, or the first refusal.

ghost use Rattle.std.specs.Prelude.{◌≡◌, true, IfOk, IfErr};
ghost use Rattle.wd_json.specs.Json.{data_of};
ghost use Rattle.wd_json.specs.Whole.{is_whole};
ghost use Rattle.parameters.specs.Parameters.{IsParametersOf, IsCause};

use crate::body::object_for;
use crate::fault::ParamFault;
use crate::refusing::refusal;
use endpoints::Route;
use std::alloc::Global;
use wd_json::{Json, JsonReader, WdBytes};

/// The object with a command's parameters (W3C WebDriver, section 6.3, "processing model"): for a
/// POST the body's object, whole, as it is read, and for a GET or DELETE an empty object, with the
/// body unread. Members that the command doesn't look at stay in it.
///
/// `Refused` carries the first refusal of these: `InvalidArgument` where a POST's body isn't the
/// text of a JSON object with whole numbers within plus or minus 2^53 - 1; `UnsupportedOperation`
/// for the commands of cookies and of screenshots; then, in the order of the command's row,
/// `InvalidArgument` at the first parameter that is missing or isn't of its kind, and
/// `UnsupportedOperation` where `using` is `xpath`. The parameters of New Session and Perform
/// Actions aren't looked at. `Memory` where there is no memory for the object or for an address,
/// or where an address comes to 4 GB.
pub fn read_parameters(
    alloc: Global,
    reader: &mut JsonReader,
    route: &Route,
    body: &WdBytes,
) -> Result<Json, ParamFault>
    ensures ok { IfOk result (IsParametersOf route.now body.now) }
    ensures cause { IfErr result (IsCause route.now body.now) }
    ensures whole { IfOk result (λ json. is_whole (data_of json) ≡ true) }
{
    let members = object_for(alloc, reader, route.command, body)?;
    match refusal(alloc, route.command, &members)? {
        Some(code) => Err(ParamFault::Refused(code)),
        None => Ok(Json::Object(members)),
    }
}
