//! What the headers of a request say.
ghost use Rattle.std.specs.Prelude.{◌≡◌, ◌<◌, ◌+◌, IsTrue, MatchOption, All, [], ◌∷◌, codes, length, map, min, IfSome};
ghost use Rattle.std.specs.Str.Parse.{digits_value};
ghost use Rattle.httparse.specs.Spans.{header_bytes, IsHeaderWithin};
ghost use Rattle.wd_http.specs.Headers.{is_named, values_of, is_number, length_of, body_length, body_limit, wants_close};

use crate::request::BadHead;
use crate::words::has_word;
use httparse::spans::HeaderSpan;

/// The most bytes of a body.
const BODY_LIMIT: usize = 4_194_304;

/// Whether a header has this name, without regard to ASCII case.
fn is_named(block: &[u8], header: &HeaderSpan, name: &[u8]) -> bool
    requires { IsHeaderWithin (length block.now) header.now }
    ensures { result ≡ is_named name.now (header_bytes block.now header.now) }
{
    header.name.of(block).eq_ignore_ascii_case(name)
}

/// The value of the first header of this name, and the headers behind it.
fn find_header<'a>(
    block: &'a [u8],
    mut headers: &'a [HeaderSpan],
    name: &[u8],
) -> Option<(&'a [u8], &'a [HeaderSpan])>
    requires { All (IsHeaderWithin (length block.now)) headers.now }
    ensures values { MatchOption result
        (values_of name.now (map (header_bytes block.now) headers.now) ≡ [])
        (λ found. values_of name.now (map (header_bytes block.now) headers.now)
        ≡ found.0.now ∷ values_of name.now (map (header_bytes block.now) found.1.now)) }
    ensures within { IfSome result (λ found. All (IsHeaderWithin (length block.now)) found.1.now) }
{
    while let [header, rest @ ..] = headers {
        if is_named(block, header, name) {
            return Some((header.value.of(block), rest));
        }
        headers = rest;
    }
    None
}

/// The length of the body that headers announce, or what is wrong with them.
#[tactic(auto, unfolding(crate::specs::Headers::body_length))]
pub(crate) fn body_length(block: &[u8], headers: &[HeaderSpan]) -> Result<usize, BadHead>
    requires { All (IsHeaderWithin (length block.now)) headers.now }
    ensures { result ≡ body_length (map (header_bytes block.now) headers.now) }
{
    if find_header(block, headers, b"Transfer-Encoding").is_some() {
        return Err(BadHead::Coding);
    }
    let Some((value, rest)) = find_header(block, headers, b"Content-Length") else {
        return Ok(0);
    };
    if find_header(block, rest, b"Content-Length").is_some() {
        return Err(BadHead::Length);
    }
    length_of(value)
}

/// The length that the value of a `Content-Length` header gives.
#[tactic(auto, unfolding(crate::specs::Headers::length_of))]
fn length_of(value: &[u8]) -> Result<usize, BadHead>
    ensures { result ≡ length_of value.now }
{
    if !is_number(value) {
        return Err(BadHead::Length);
    }
    let length = number_of(value);
    if length > BODY_LIMIT {
        return Err(BadHead::BodyLong);
    }
    Ok(length)
}

/// Whether a text is one or more digits.
fn is_number(text: &[u8]) -> bool
    ensures { result ≡ is_number text.now }
{
    !text.is_empty() && text.iter().all(|byte| byte.is_ascii_digit())
}

/// The number that digits write, or the least one that is too long for a body where it is more.
fn number_of(digits: &[u8]) -> usize
    requires { IsTrue (is_number digits.now) }
    ensures { result ≡ min (digits_value 10 digits.now) (body_limit + 1) }
{
    let mut number = 0;
    for digit in digits {
        number = (number * 10 + usize::from(*digit - b'0')).min(BODY_LIMIT + 1);
    }
    number
}

/// Whether a head of HTTP/1.`minor` with these headers wants the connection closed.
#[tactic(auto, unfolding(crate::specs::Headers::wants_close))]
pub(crate) fn wants_close(block: &[u8], headers: &[HeaderSpan], minor: u8) -> bool
    requires { All (IsHeaderWithin (length block.now)) headers.now }
    ensures { result ≡ wants_close minor (map (header_bytes block.now) headers.now) }
{
    if minor == 0 {
        return true;
    }
    for header in headers {
        if is_named(block, header, b"Connection") && has_word(header.value.of(block), b"close") {
            return true;
        }
    }
    false
}
