//! The routers that look the path of a request up, and the route that a request has.

ghost use Rattle.std.specs.Prelude.{◌≡◌, true, false, ℕ, List, IfOk, IfErr, OnOk, IfSome, IfNone, is_some, codes};
ghost use Rattle.endpoints.specs.declared.command.Command.{Command as AnyCommand};
ghost use Rattle.endpoints.specs.declared.route.Route.{Route as AnyRoute};
ghost use Rattle.endpoints.specs.Table.{row_of};
ghost use Rattle.endpoints.specs.Path.{segments};
ghost use Rattle.endpoints.specs.Route.{IsRouteOf, IsCause, IsUnknownCommand, IsUnknownMethod, SameRoute, FitsPath};
ghost use Rattle.endpoints.specs.Routes.{table_rows, with_command, is_known};

use crate::command::Command;
use crate::route::{Route, RouteFault};
use crate::segments::path_of_target;
use crate::table::{COMMANDS, method_of, pattern_of};
use crate::variables::route_at;
use matchit::Router;
use std::alloc::Global;
use wd_errors::Code;
use wd_json::Memory;

/// The table of commands, made ready for look-ups by method and path. It keeps its allocator.
#[derive(Drop)]
pub struct Endpoints {
    alloc: Global,
    get: Router<Command>,
    post: Router<Command>,
    delete: Router<Command>,
    ghost has_gets: { get ≡ table_rows (codes "GET") },
    ghost has_posts: { post ≡ table_rows (codes "POST") },
    ghost has_deletes: { delete ≡ table_rows (codes "DELETE") },
}

impl Endpoints {
    /// The table. `Memory` where there is no memory for it.
    pub fn new(alloc: Global) -> Result<Endpoints, Memory> {
        Ok(Endpoints {
            alloc,
            get: router_of(alloc, "GET")?,
            post: router_of(alloc, "POST")?,
            delete: router_of(alloc, "DELETE")?,
        })
    }

    /// The route of a request (W3C Recommendation WebDriver of 5 June 2018, sections 6.4 and 6.5).
    /// The path is the target up to its first `?`, and slashes part it into segments. It fits a
    /// pattern if both have as many segments, the literal ones are equal and no variable is empty.
    /// Variables are percent-decoded after the parting.
    ///
    /// `Refused(UnknownCommand)` exactly where no pattern fits, or a variable, percent-decoded, is
    /// not UTF-8. `Refused(UnknownMethod)` exactly where a pattern fits, with texts for its
    /// variables, and no row with it has the method; methods are compared with regard to case.
    /// `Memory` where there is no memory for the variables.
    ///
    /// The path is found by `matchit`, among the rows with the method before all others, and no
    /// memory is taken but for the variables.
    pub fn resolve(&self, method: &str, target: &str) -> Result<Route, RouteFault>
        ensures ok { IfOk result (IsRouteOf method.now target.now) }
        ensures cause { IfErr result (IsCause method.now target.now) }
    {
        let path = path_of_target(target);
        if let Some(command) = self.command_at(method, path) {
            return route_at(self.alloc, command, path);
        }
        let Some(other) = self.first_at(path) else {
            return Err(RouteFault::Refused(Code::UnknownCommand));
        };
        let _route = route_at(self.alloc, other, path)?;
        Err(RouteFault::Refused(Code::UnknownMethod))
    }

    // The router of a method that the table has.
    fn router(&self, method: &str) -> Option<&Router<Command>>
        ensures rows { IfSome result (λ router. router.now ≡ table_rows method.now) }
        ensures known { is_some result ≡ is_known method.now }
    {
        match method {
            "GET" => Some(&self.get),
            "POST" => Some(&self.post),
            "DELETE" => Some(&self.delete),
            _ => None,
        }
    }

    // The command with this method whose path this one fits.
    fn command_at(&self, method: &str, path: &str) -> Option<Command>
        ensures method { IfSome result (λ c. (row_of c).method ≡ method.now) }
        ensures fits { IfSome result (λ c. FitsPath c (segments path.now)) }
        ensures none { IfNone result ((c : AnyCommand) → (row_of c).method ≡ method.now → FitsPath c (segments path.now) → ⊥) }
    {
        let router = self.router(method)?;
        match router.at(path) {
            Ok(found) => Some(*found.value),
            Err(_) => None,
        }
    }

    // A command whose path this one fits.
    fn first_at(&self, path: &str) -> Option<Command>
        ensures fits { IfSome result (λ c. FitsPath c (segments path.now)) }
        ensures none { IfNone result ((c : AnyCommand) → FitsPath c (segments path.now) → ⊥) }
    {
        if let Some(command) = self.command_at("GET", path) {
            return Some(command);
        }
        if let Some(command) = self.command_at("POST", path) {
            return Some(command);
        }
        self.command_at("DELETE", path)
    }
}

// The router of the commands with this method.
fn router_of(alloc: Global, method: &str) -> Result<Router<Command>, Memory>
    ensures { IfOk result (λ router. router ≡ table_rows method.now) }
{
    let mut router = Router::new(alloc);
    for command in &COMMANDS {
        put(&mut router, method, *command)?;
    }
    Ok(router)
}

// Puts a command's path into the router, where the command has this method.
fn put(router: &mut Router<Command>, method: &str, command: Command) -> Result<(), Memory>
    ensures { OnOk result (router.new ≡ with_command method.now router.old command) }
{
    if method_of(command).as_str() != method {
        return Ok(());
    }
    match router.insert(pattern_of(command), command) {
        Ok(()) => Ok(()),
        Err(_) => Err(Memory),
    }
}

/// A law, to be cited: a request has one route at most, and where it has one it is not refused;
/// and no request is refused for both reasons.
pub fn one_answer_for_request()
    ensures one { (method target : List ℕ) (a b : AnyRoute) → IsRouteOf method target a → IsRouteOf method target b → SameRoute a b }
    ensures known { (method target : List ℕ) (a : AnyRoute) → IsRouteOf method target a → IsUnknownCommand target → ⊥ }
    ensures allowed { (method target : List ℕ) (a : AnyRoute) → IsRouteOf method target a → IsUnknownMethod method target → ⊥ }
    ensures apart { (method target : List ℕ) → IsUnknownCommand target → IsUnknownMethod method target → ⊥ }
{}
