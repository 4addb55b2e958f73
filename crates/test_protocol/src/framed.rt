//! What a framer answers to bytes fed whole or in pieces, as texts to compare.

use std::alloc::Global;
use std::process::Abort;
use std::test::Fail;
use wd_http::{BadHead, Framer, Next};

/// The name of a bad head.
fn name(kind: BadHead) -> &'static str {
    match kind {
        BadHead::HeadLong => "HeadLong",
        BadHead::Head => "Head",
        BadHead::Coding => "Coding",
        BadHead::Length => "Length",
        BadHead::BodyLong => "BodyLong",
    }
}

/// Adds the next answer to a text. Says whether it was a request.
fn answer(
    rt: &impl Abort,
    alloc: Global,
    framer: &mut Framer,
    text: &mut String,
) -> Result<bool, Fail> {
    assert!(rt; !framer.spent());
    match framer.next()? {
        Next::Request(request) => {
            let method = request.method.as_str();
            let target = request.target.as_str();
            let close = request.close;
            let body = String::from_utf8_lossy(alloc, request.body.as_slice())?;
            let line = format!(in alloc; "{method} {target} {close} {body}|")?;
            text.push_str(line.as_str())?;
            Ok(true)
        }
        Next::More => {
            text.push_str("More")?;
            Ok(false)
        }
        Next::Bad(kind) => {
            text.push_str(name(kind))?;
            Ok(false)
        }
    }
}

/// Adds the answers up to the first that isn't a request, nine at most.
fn answers(
    rt: &impl Abort,
    alloc: Global,
    framer: &mut Framer,
    text: &mut String,
) -> Result<(), Fail> {
    for _ in 0..9 {
        if !answer(rt, alloc, framer, text)? {
            break;
        }
    }
    Ok(())
}

/// What a framer answers that is fed all of the bytes.
pub fn framed(rt: &impl Abort, alloc: Global, bytes: &[u8]) -> Result<String, Fail> {
    let mut framer = Framer::new(alloc);
    let mut text = String::new(alloc);
    framer.feed(bytes)?;
    answers(rt, alloc, &mut framer, &mut text)?;
    Ok(text)
}

/// What a framer answers that is fed the bytes one at a time and asked after each: the requests, and the last
/// answer.
pub fn framed_byte_by_byte(rt: &impl Abort, alloc: Global, bytes: &[u8]) -> Result<String, Fail> {
    let mut framer = Framer::new(alloc);
    let mut text = String::new(alloc);
    let mut last = String::from_str(alloc, "More")?;
    for byte in bytes {
        assert!(rt; !framer.spent());
        framer.feed(&[*byte])?;
        last = String::new(alloc);
        if answer(rt, alloc, &mut framer, &mut last)? {
            text.push_str(last.as_str())?;
            last = String::from_str(alloc, "More")?;
        }
    }
    text.push_str(last.as_str())?;
    Ok(text)
}

/// What a framer answers that is fed the bytes in two pieces and asked after each.
pub fn framed_in_two(
    rt: &impl Abort,
    alloc: Global,
    bytes: &[u8],
    cut: usize,
) -> Result<String, Fail> {
    assert!(rt; cut <= bytes.len());
    let mut framer = Framer::new(alloc);
    let mut text = String::new(alloc);
    framer.feed(&bytes[..cut])?;
    let first = answer(rt, alloc, &mut framer, &mut text)?;
    assert_eq!(rt; first, cut == bytes.len(), "cut at {cut}");
    text = if first { text } else { String::new(alloc) };
    assert!(rt; !framer.spent());
    framer.feed(&bytes[cut..])?;
    answer(rt, alloc, &mut framer, &mut text)?;
    Ok(text)
}

/// What a framer answers that is fed bytes in which a part stands several times, with what stands before it and what
/// follows.
pub fn framed_with_repeats(
    rt: &impl Abort,
    alloc: Global,
    front: &[u8],
    part: &[u8],
    times: usize,
    rest: &[u8],
) -> Result<String, Fail> {
    let mut framer = Framer::new(alloc);
    let mut text = String::new(alloc);
    framer.feed(front)?;
    for _ in 0..times {
        assert!(rt; !framer.spent());
        framer.feed(part)?;
    }
    assert!(rt; !framer.spent());
    framer.feed(rest)?;
    answers(rt, alloc, &mut framer, &mut text)?;
    Ok(text)
}

/// Bytes, and what a framer that is fed them answers: the requests, each as its method, its target, whether
/// it closes and its body, up to the first answer that isn't a request.
pub type Row = (&'static [u8], &'static str);

/// Each row fed whole, and fed one byte at a time.
pub fn each(rt: &impl Abort, alloc: Global, rows: &[Row]) -> Result<(), Fail> {
    for (bytes, expected) in rows {
        let whole = framed(rt, alloc, bytes)?;
        assert_eq!(rt; whole.as_str(), *expected);
        let cut = framed_byte_by_byte(rt, alloc, bytes)?;
        assert_eq!(rt; cut.as_str(), *expected, "byte by byte");
    }
    Ok(())
}
