//! A request that was read whole, and why what stands in front of the bytes is no head.

ghost use Rattle.std.specs.Prelude.{◌≡◌};
ghost use Rattle.wd_http.specs.BadHeads.{head_status, head_message};

use http::StatusCode;
use wd_json::{WdBytes, WdText};

/// A request that was read whole.
#[derive(Debug, Drop)]
pub struct Request {
    /// The method, as it was written: `GET` and `get` are two methods.
    pub method: WdText,
    /// The target, as it was written, with its query.
    pub target: WdText,
    /// Whether the client wants the connection closed after the response: it speaks HTTP/1.0, or
    /// a `Connection` header has the word `close`.
    pub close: bool,
    /// The body: as many bytes as `Content-Length` says, and none without it.
    pub body: WdBytes,
}

/// Why what stands in front of the bytes is no head of a request, in the order of the checks.
#[derive(Clone, Copy, Debug, PartialEq, Eq)]
pub enum BadHead {
    /// No head ends in the first 16,384 bytes.
    HeadLong,
    /// The bytes up to the first empty line are no head by `httparse`'s grammar with at most 64
    /// headers, whose target is UTF-8.
    Head,
    /// There is a `Transfer-Encoding` header.
    Coding,
    /// There are two `Content-Length` headers or more, or its value isn't one or more digits.
    Length,
    /// `Content-Length` is more than 4,194,304.
    BodyLong,
}

impl BadHead {
    /// The status of the response to it: 431, 400, 501, 400 or 413.
    pub fn status(self) -> u16
        ensures { result ≡ head_status self }
    {
        self.status_code().as_u16()
    }

    // The same as a status code.
    fn status_code(self) -> StatusCode
        ensures { result ≡ head_status self }
    {
        match self {
            BadHead::HeadLong => StatusCode::REQUEST_HEADER_FIELDS_TOO_LARGE,
            BadHead::Head => StatusCode::BAD_REQUEST,
            BadHead::Coding => StatusCode::NOT_IMPLEMENTED,
            BadHead::Length => StatusCode::BAD_REQUEST,
            BadHead::BodyLong => StatusCode::PAYLOAD_TOO_LARGE,
        }
    }

    /// The message of the response to it.
    pub fn message(self) -> &'static str
        ensures { result.now ≡ head_message self }
    {
        match self {
            BadHead::HeadLong => "head too long",
            BadHead::Head => "bad head",
            BadHead::Coding => "transfer coding",
            BadHead::Length => "bad length",
            BadHead::BodyLong => "body too long",
        }
    }
}
