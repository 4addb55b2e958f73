//! For bench/framing: reads standard input whole, feeds it to a fresh framer in pieces of so many bytes, asks
//! for the requests after each piece, does this so many times over, and prints how many requests there were.
//! Its words are the size of a piece and the number of times.
#![tactic(auto)]

use std::alloc::Global;
use std::io::Read;
use std::{env, io};
use wd_http::{Framer, Next};
use wd_json::Memory;

/// How many requests stand in front, which are taken. Says nothing of a framer that is spent.
fn take_all(framer: &mut Framer) -> Result<u64, Memory> {
    let mut count = 0u64;
    for _ in 0..u64::MAX {
        if framer.spent() {
            return Err(Memory);
        }
        match framer.next()? {
            Next::Request(_) => count = count.saturating_add(1),
            _ => break,
        }
    }
    Ok(count)
}

/// How many requests the bytes spell, fed in pieces.
fn requests(alloc: Global, bytes: &[u8], piece: usize) -> Result<u64, Memory> {
    let mut framer = Framer::new(alloc);
    let mut count = 0u64;
    let mut at = 0usize;
    for _ in 0..bytes.len() {
        if at >= bytes.len() {
            break;
        }
        let end = at.saturating_add(piece).min(bytes.len());
        if framer.spent() || end < at {
            return Err(Memory);
        }
        framer.feed(&bytes[at..end])?;
        count = count.saturating_add(take_all(&mut framer)?);
        at = end;
    }
    Ok(count)
}

fn main(rt: HostRuntime) -> io::Result<()> {
    let alloc = rt.alloc();
    let mut numbers = Vec::new(alloc);
    for word in env::args(&rt)? {
        numbers.push(word.as_str().parse::<u64>().unwrap_or(1))?;
    }
    let piece = numbers.get(1).copied().unwrap_or(1).min(1 << 30) as usize;
    let times = numbers.get(2).copied().unwrap_or(1);
    let mut bytes = Vec::new(alloc);
    rt.stdin().read_to_end(&mut bytes)?;
    let mut count = 0u64;
    for _ in 0..times {
        match requests(alloc, bytes.as_slice(), piece.max(1)) {
            Ok(found) => count = count.saturating_add(found),
            Err(Memory) => break,
        }
    }
    println!(rt; "{count}")
}
