//! Laws: one answer for each body, and timeouts refused exactly as they are read.

ghost use Rattle.std.specs.Prelude.{◌≡◌, ℕ, List, is_some};
ghost use Rattle.capabilities.specs.Timeouts.{timeouts_in};
ghost use Rattle.capabilities.specs.Values.{Members};
ghost use Rattle.capabilities.specs.declared.timeouts.Timeouts.{Timeouts as AnyTimeouts};
ghost use Rattle.endpoints.specs.declared.command.Command.TheVariants.{SetTimeouts};
ghost use Rattle.endpoints.specs.declared.route.Route.{Route as AnyRoute};
ghost use Rattle.parameters.specs.Kinds.{invalid_unless};
ghost use Rattle.parameters.specs.Parameters.{IsParametersOf, IsRefusedBy};
ghost use Rattle.parameters.specs.Refusals.{refusal_in};
ghost use Rattle.wd_errors.specs.declared.code.Code.{Code as AnyCode};
ghost use Rattle.wd_json.specs.declared.value.Json.{Json as AnyJson};
ghost use Rattle.wd_json.specs.declared.value.Json.TheVariants.{Object};

/// A law, to be cited: a request has one object of parameters at most, it is refused with one code
/// at most, and no request has both.
pub fn one_answer_for_body()
    ensures object { (route : AnyRoute) (body : List ℕ) (a b : AnyJson)
        → IsParametersOf route body a → IsParametersOf route body b → a ≡ b }
    ensures code { (route : AnyRoute) (body : List ℕ) (a b : AnyCode)
        → IsRefusedBy route body a → IsRefusedBy route body b → a ≡ b }
    ensures apart { (route : AnyRoute) (body : List ℕ) (json : AnyJson) (code : AnyCode)
        → IsParametersOf route body json → IsRefusedBy route body code → ⊥ }
{}

/// A law, to be cited: Set Timeouts refuses exactly the objects that `read_timeouts` refuses,
/// whatever timeouts that begins with.
pub fn timeouts_refused_as_read()
    ensures { (members : Members) (base : AnyTimeouts)
        → refusal_in SetTimeouts members ≡ invalid_unless (is_some (timeouts_in (Object members) base)) }
{}
