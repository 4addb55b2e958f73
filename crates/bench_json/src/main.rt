//! For bench/json: reads standard input whole as a JSON text, and then reads it, writes it or makes a response
//! of it so many times over. Its words are `read`, `write` or `response`, and the number of times. It prints how
//! many bytes it made, or the number of rounds.
#![tactic(auto)]

use std::alloc::Global;
use std::io::Read;
use std::{env, io};
use wd_http::response_bytes;
use wd_json::{Json, Memory, WdBytes, read, write};

/// One round: how many bytes were made.
fn round(alloc: Global, kind: &str, bytes: &WdBytes, value: &Json) -> Result<usize, Memory> {
    match kind {
        "read" => match read(alloc, bytes.as_slice()) {
            Ok(_) => Ok(1),
            Err(_) => Ok(0),
        },
        "write" => Ok(write(alloc, value)?.len()),
        _ => Ok(response_bytes(alloc, 200, bytes, false)?.len()),
    }
}

fn main(rt: HostRuntime) -> io::Result<()> {
    let alloc = rt.alloc();
    let mut words = Vec::new(alloc);
    for word in env::args(&rt)? {
        words.push(word)?;
    }
    let kind = match words.get(1) {
        Some(word) => word.as_str(),
        None => "read",
    };
    let times = match words.get(2) {
        Some(word) => word.as_str().parse::<u64>().unwrap_or(1),
        None => 1,
    };
    let mut text = Vec::new(alloc);
    rt.stdin().read_to_end(&mut text)?;
    let bytes = WdBytes::from_vec(text);
    let value = read(alloc, bytes.as_slice()).unwrap_or(Json::Null);
    let mut made = 0usize;
    for _ in 0..times {
        made = made.saturating_add(round(alloc, kind, &bytes, &value).unwrap_or(0));
    }
    println!(rt; "{made}")
}
