//! Get Window Handle.

ghost use Rattle.std.specs.Prelude.{◌≡◌, IsTrue, IfOk};
ghost use Rattle.wd_http.specs.Sent.{is_status};
ghost use Rattle.remote_end.specs.Plan.{at_once};
ghost use Rattle.remote_end.specs.State.{Leaves, IsWhole};
ghost use Rattle.remote_end.specs.WindowRows.{handle_plan};

use crate::reply::{Reply, success};
use crate::session::Session;
use references::id_text;
use std::alloc::Global;
use wd_json::{Json, Memory};

/// Get Window Handle (Recommendation, section 10.1).
pub(crate) fn window_handle(alloc: Global, session: &Session) -> Result<Reply, Memory>
    requires { IsWhole session.now }
    ensures turn { IfOk result (λ reply. handle_plan session.now ≡ at_once reply (Leaves session.now)) }
    ensures status { IfOk result (λ reply. IsTrue (is_status reply.status)) }
{
    success(alloc, Json::Text(id_text(alloc, session.window)?))
}
