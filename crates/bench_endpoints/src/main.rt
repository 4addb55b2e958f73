//! Looks up the routes of some requests again and again, to be timed: `bench_endpoints MODE ROUNDS`,
//! where MODE is `resolve`, or `scan` for a plain search of the table. It prints how many requests
//! had a route.
#![tactic(auto)]

mod scan;

use crate::scan::scan;
use anyhow::{Result, bail};
use endpoints::Endpoints;
use std::env;

const REQUESTS: [(&str, &str); 8] = [
    ("GET", "/status"),
    ("POST", "/session"),
    ("GET", "/session/00000000-0001-8000-8000-000100000000/title"),
    (
        "POST",
        "/session/00000000-0001-8000-8000-000100000000/element",
    ),
    (
        "GET",
        "/session/00000000-0001-8000-8000-000100000000/element/00000000-0001-8002-8000-000100000002/text",
    ),
    (
        "POST",
        "/session/00000000-0001-8000-8000-000100000000/element/00000000-0001-8002-8000-000100000002/click",
    ),
    (
        "GET",
        "/session/00000000-0001-8000-8000-000100000000/element/00000000-0001-8002-8000-000100000002/attribute/href",
    ),
    ("GET", "/session/00000000-0001-8000-8000-000100000000/none"),
];

fn main(rt: HostRuntime) -> Result<()> {
    let mut words = env::args(&rt)?;
    let _program = words.next();
    let (Some(mode), Some(rounds)) = (words.next(), words.next()) else {
        bail!("bench_endpoints MODE ROUNDS");
    };
    let rounds = rounds.as_str().parse::<u32>()?;
    let by_router = mode.as_str() == "resolve";
    let endpoints = Endpoints::new(rt.alloc())?;
    let mut found = 0u64;
    for _ in 0..rounds {
        for (method, target) in REQUESTS {
            let has_route = if by_router {
                endpoints.resolve(method, target).is_ok()
            } else {
                scan(method, target).is_some()
            };
            found = found.wrapping_add(u64::from(has_route));
        }
    }
    println!(rt; "found {found}")?;
    Ok(())
}
