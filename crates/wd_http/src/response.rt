//! The bytes of a response.

ghost use Rattle.std.specs.Prelude.{◌≡◌, ◌++◌, IfOk, IsTrue, [], if◌then◌else◌, codes};
ghost use Rattle.wd_http.specs.Sent.{response, phrase, is_status, crlf};

use http::StatusCode;
use std::alloc::Global;
use wd_json::{Memory, WdBytes};

/// The phrase of a status.
fn phrase(status: u16) -> &'static str
    requires { IsTrue (is_status status) }
    ensures { result.now ≡ phrase status }
{
    match StatusCode::from_u16(status) {
        Ok(code) => code.canonical_reason().unwrap(),
        Err(_) => unreachable!(),
    }
}

/// The line that says whether the connection is closed.
fn closing(close: bool) -> &'static str
    ensures { result.now ≡ (if close then codes "Connection: close" ++ crlf else []) }
{
    if close { "Connection: close\r\n" } else { "" }
}

/// The bytes of a response with this status and body, whose last header is `Connection: close`
/// where the server closes. The status is 200, 400, 404, 405, 413, 431, 500 or 501. Each byte of
/// the body is copied a bounded number of times. `Memory` where there is no memory for it.
#[tactic(auto, unfolding(crate::specs::Sent::response))]
pub fn response_bytes(
    alloc: Global,
    status: u16,
    body: &WdBytes,
    close: bool,
) -> Result<WdBytes, Memory>
    requires { IsTrue (is_status status) }
    ensures { IfOk result (λ bytes. bytes ≡ response status body.now close) }
{
    let mut out = Vec::with_capacity(alloc, body.len().saturating_add(HEAD_ROOM))?;
    out.extend_from_slice(b"HTTP/1.1 ")?;
    out.extend_from_slice(status.to_string(alloc)?.as_bytes())?;
    out.extend_from_slice(b" ")?;
    out.extend_from_slice(phrase(status).as_bytes())?;
    out.extend_from_slice(FIXED_LINES)?;
    out.extend_from_slice(body.len().to_string(alloc)?.as_bytes())?;
    out.extend_from_slice(b"\r\n")?;
    out.extend_from_slice(closing(close).as_bytes())?;
    out.extend_from_slice(b"\r\n")?;
    out.extend_from_slice(body.as_slice())?;
    Ok(WdBytes::from_vec(out))
}

/// Room for the lines before the body, so that they are written without growing.
const HEAD_ROOM: usize = 256;

/// The lines that each response has, up to the length.
const FIXED_LINES: &[u8] =
    b"\r\nContent-Type: application/json; charset=utf-8\r\nCache-Control: no-cache\r\nContent-Length: ";
