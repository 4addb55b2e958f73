//! The top object of a page's value, and the parts of the page in it.

ghost use Rattle.std.specs.Prelude.{◌≡◌, []};
ghost use Rattle.std.specs.Option.{option_map, option_and_then};
ghost use Rattle.page_file.specs.Members.{optional, object_of};
ghost use Rattle.page_file.specs.PageSpelled.{load_of, times_in, parts_in, parts_of};
ghost use Rattle.page_file.specs.Values.{list_of};
ghost use Rattle.wd_json.specs.Keys.{get};

use crate::members::{has_only, is_version};
use crate::values::as_list;
use wd_json::{Json, JsonMap};

/// The longest that a navigation takes, in milliseconds.
const LONGEST_LOAD: u64 = 3_600_000;

/// The parts of a page's value: the values of its nodes, timers and scripts, and how many
/// milliseconds a navigation takes until it is interactive and until it is complete.
#[derive(Clone, Copy, Debug)]
pub struct Parts<'a> {
    pub nodes: &'a [Json],
    pub timers: &'a [Json],
    pub scripts: &'a [Json],
    pub eager: u64,
    pub load: u64,
}

fn load_of(value: &Json) -> Option<u64>
    ensures { result ≡ load_of value.now }
{
    match value {
        Json::Int(n) if 0 <= *n => Some(*n as u64),
        _ => None,
    }
}

// The milliseconds that a member is; 0 where there is no such member.
fn milliseconds(members: &JsonMap, name: &str) -> Option<u64>
    ensures { result ≡ optional 0 load_of (get name.now members.now) }
{
    match members.get(name) {
        Some(value) => load_of(value),
        None => Some(0),
    }
}

fn times(members: &JsonMap) -> Option<(u64, u64)>
    ensures { result ≡ times_in members.now }
{
    Some((
        milliseconds(members, "eager")?,
        milliseconds(members, "load")?,
    ))
}

// The values of a list; none where there is no such member.
fn list<'a>(members: &'a JsonMap, name: &str) -> Option<&'a [Json]>
    ensures { option_map (λ l. l.now) result ≡ optional [] list_of (get name.now members.now) }
{
    match members.get(name) {
        Some(value) => as_list(value),
        None => Some(&[]),
    }
}

fn parts_in(members: &JsonMap) -> Option<Parts<'_>>
    ensures { option_map (λ p. (p.nodes.now, p.timers.now, p.scripts.now, (p.eager, p.load))) result ≡ parts_in members.now }
{
    let names = ["wdpage", "nodes", "eager", "load", "timers", "scripts"];
    if !has_only(&names, members) || !is_version("wdpage", members) {
        return None;
    }
    let nodes = as_list(members.get("nodes")?)?;
    let timers = list(members, "timers")?;
    let scripts = list(members, "scripts")?;
    let (eager, load) = times(members)?;
    Some(Parts {
        nodes,
        timers,
        scripts,
        eager,
        load,
    })
}

fn parts_among(value: &Json) -> Option<Parts<'_>>
    ensures { option_map (λ p. (p.nodes.now, p.timers.now, p.scripts.now, (p.eager, p.load))) result ≡ option_and_then parts_in (object_of value.now) }
{
    match value {
        Json::Object(members) => parts_in(members),
        _ => None,
    }
}

/// The parts of a page's value. `None` where it is no object, `wdpage` isn't 1, a member has another
/// type or is out of its range, `eager` is greater than `load`, there are no nodes, or there is a
/// member of another name.
pub fn parts_of(value: &Json) -> Option<Parts<'_>>
    ensures { option_map (λ p. (p.nodes.now, p.timers.now, p.scripts.now, (p.eager, p.load))) result ≡ parts_of value.now }
{
    let parts = parts_among(value)?;
    if parts.nodes.is_empty() || parts.eager > parts.load || parts.load > LONGEST_LOAD {
        None
    } else {
        Some(parts)
    }
}
