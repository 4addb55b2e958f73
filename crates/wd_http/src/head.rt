//! The head of a request.
ghost use Rattle.std.specs.Prelude.{◌≡◌, IfOk, IsUtf8, All, [], length, map};
ghost use Rattle.std.specs.Str.{chars};
ghost use Rattle.httparse.specs.Spans.{header_bytes, span_bytes, IsHeaderWithin, IsWithin};
ghost use Rattle.wd_http.specs.Headers.{wants_close};
ghost use Rattle.wd_http.specs.HeadIs.{HeadIs};

use crate::headers::{body_length, wants_close};
use crate::request::{BadHead, Request};
use httparse::Status;
use httparse::spans::{EMPTY_HEADER_SPAN, HeaderSpan, RequestSpans, parse_request};
use std::alloc::Global;
use std::str::from_utf8;
use wd_json::{Memory, WdBytes, WdText};

/// What a whole head block is: a request, whose body is still to come, with the length of that body; or no head.
#[derive(Drop)]
pub(crate) enum Head {
    Good(Request, usize),
    Bad(BadHead),
}

/// Reads a whole head block.
pub(crate) fn head_of(alloc: Global, block: &[u8]) -> Result<Head, Memory>
    ensures { IfOk result (HeadIs block.now) }
{
    let mut headers = [EMPTY_HEADER_SPAN; 64];
    match parse_request(block, &mut headers) {
        Ok(Status::Complete(spans)) => {
            if spans.len != block.len() {
                return Ok(Head::Bad(BadHead::Head));
            }
            match body_length(block, &headers[..spans.headers]) {
                Ok(length) => Ok(Head::Good(
                    request_of(alloc, block, &headers[..spans.headers], &spans)?,
                    length,
                )),
                Err(kind) => Ok(Head::Bad(kind)),
            }
        }
        _ => Ok(Head::Bad(BadHead::Head)),
    }
}

/// The request of a head, without its body.
fn request_of(
    alloc: Global,
    block: &[u8],
    headers: &[HeaderSpan],
    spans: &RequestSpans,
) -> Result<Request, Memory>
    requires headers { All (IsHeaderWithin (length block.now)) headers.now }
    requires method { IsWithin (length block.now) spans.now.method }
    requires path { IsWithin (length block.now) spans.now.path }
    requires method_text { IsUtf8 (span_bytes block.now spans.now.method) }
    requires path_text { IsUtf8 (span_bytes block.now spans.now.path) }
    ensures { IfOk result (λ r. r ≡ record {
      method = chars (span_bytes block.now spans.now.method);
      target = chars (span_bytes block.now spans.now.path);
      close = wants_close spans.now.version (map (header_bytes block.now) headers.now);
      body = [];
    }) }
{
    Ok(Request {
        method: text_of(alloc, spans.method.of(block))?,
        target: text_of(alloc, spans.path.of(block))?,
        close: wants_close(block, headers, spans.version),
        body: WdBytes::new(alloc),
    })
}

/// Bytes that are text.
fn text_of(alloc: Global, bytes: &[u8]) -> Result<WdText, Memory>
    requires { IsUtf8 bytes.now }
    ensures { IfOk result (λ text. text ≡ chars bytes.now) }
{
    match from_utf8(bytes) {
        Ok(text) => WdText::of(alloc, text),
        Err(_) => unreachable!(),
    }
}
