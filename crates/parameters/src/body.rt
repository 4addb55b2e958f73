//! The object in which a command looks for its parameters, from the bytes of the body.

ghost use Rattle.std.specs.Prelude.{◌≡◌, true, IfOk, IfErr};
ghost use Rattle.wd_json.specs.Json.{data_of};
ghost use Rattle.wd_json.specs.Whole.{is_whole};
ghost use Rattle.wd_json.specs.declared.value.Json.TheVariants.{Object};
ghost use Rattle.parameters.specs.Body.{is_post as posts, IsObjectOf, IsObjectFor, IsNoObject, LacksObject};

use crate::fault::ParamFault;
use endpoints::{Command, method_of};
use http::Method;
use std::alloc::Global;
use wd_errors::Code;
use wd_json::{Json, JsonFault, JsonMap, JsonReader, WdBytes};

fn is_post(command: Command) -> bool
    ensures { result ≡ posts command }
{
    method_of(command) == Method::POST
}

// The object that the bytes are the text of.
fn read_object(
    alloc: Global,
    reader: &mut JsonReader,
    body: &WdBytes,
) -> Result<JsonMap, ParamFault>
    ensures ok { IfOk result (IsObjectOf body.now) }
    ensures cause { IfErr result (IsNoObject body.now) }
{
    match reader.read(alloc, body.as_slice()) {
        Ok(Json::Object(members)) => Ok(members),
        Ok(_) => Err(ParamFault::Refused(Code::InvalidArgument)),
        Err(JsonFault::Memory) => Err(ParamFault::Memory),
        Err(_) => Err(ParamFault::Refused(Code::InvalidArgument)),
    }
}

/// The object that a command looks for its parameters in: for a POST the body's, and else an
/// empty one, with the body unread.
pub fn object_for(
    alloc: Global,
    reader: &mut JsonReader,
    command: Command,
    body: &WdBytes,
) -> Result<JsonMap, ParamFault>
    ensures ok { IfOk result (IsObjectFor command body.now) }
    ensures cause { IfErr result (LacksObject command body.now) }
{
    if is_post(command) {
        read_object(alloc, reader, body)
    } else {
        Ok(JsonMap::new(alloc))
    }
}
