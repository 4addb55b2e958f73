//! Requests and their responses, of which the connections are made.

/// A request and the response to it.
pub type Exchange = (&'static [u8], &'static [u8]);

/// A status request.
pub const STATUS: Exchange = (
    b"GET /status HTTP/1.1\r\nHost: h\r\n\r\n",
    b"HTTP/1.1 200 OK\r\nContent-Type: application/json; charset=utf-8\r\nCache-Control: no-cache\r\nContent-Length: 42\r\n\r\n{\"value\":{\"message\":\"ready\",\"ready\":true}}",
);

/// A path that no endpoint has.
pub const STATU: Exchange = (
    b"GET /statu HTTP/1.1\r\nHost: h\r\n\r\n",
    b"HTTP/1.1 404 Not Found\r\nContent-Type: application/json; charset=utf-8\r\nCache-Control: no-cache\r\nContent-Length: 81\r\n\r\n{\"value\":{\"error\":\"unknown command\",\"message\":\"unknown command\",\"stacktrace\":\"\"}}",
);

/// The first session of run 1 is opened.
pub const OPEN: Exchange = (
    b"POST /session HTTP/1.1\r\nHost: h\r\nContent-Length: 19\r\n\r\n{\"capabilities\":{}}",
    b"HTTP/1.1 200 OK\r\nContent-Type: application/json; charset=utf-8\r\nCache-Control: no-cache\r\nContent-Length: 376\r\n\r\n{\"value\":{\"capabilities\":{\"acceptInsecureCerts\":false,\"browserName\":\"wdpage\",\"browserVersion\":\"1.0\",\"pageLoadStrategy\":\"normal\",\"platformName\":\"linux\",\"proxy\":{},\"setWindowRect\":true,\"strictFileInteractability\":false,\"timeouts\":{\"implicit\":0,\"pageLoad\":300000,\"script\":30000},\"unhandledPromptBehavior\":\"dismiss and notify\"},\"sessionId\":\"00000000-0001-8000-8000-000100000000\"}}",
);

/// Its first `p` on the worked site.
pub const FIND: Exchange = (
    b"POST /session/00000000-0001-8000-8000-000100000000/element HTTP/1.1\r\nHost: h\r\nContent-Length: 32\r\n\r\n{\"using\":\"tag name\",\"value\":\"p\"}",
    b"HTTP/1.1 200 OK\r\nContent-Type: application/json; charset=utf-8\r\nCache-Control: no-cache\r\nContent-Length: 88\r\n\r\n{\"value\":{\"element-6066-11e4-a52e-4f735466cecf\":\"00000000-0001-8002-8000-000100000002\"}}",
);

/// The tag of what was found.
pub const NAME: Exchange = (
    b"GET /session/00000000-0001-8000-8000-000100000000/element/00000000-0001-8002-8000-000100000002/name HTTP/1.1\r\nHost: h\r\n\r\n",
    b"HTTP/1.1 200 OK\r\nContent-Type: application/json; charset=utf-8\r\nCache-Control: no-cache\r\nContent-Length: 13\r\n\r\n{\"value\":\"p\"}",
);

/// The session ends.
pub const DELETE: Exchange = (
    b"DELETE /session/00000000-0001-8000-8000-000100000000 HTTP/1.1\r\nHost: h\r\n\r\n",
    b"HTTP/1.1 200 OK\r\nContent-Type: application/json; charset=utf-8\r\nCache-Control: no-cache\r\nContent-Length: 14\r\n\r\n{\"value\":null}",
);

/// The session isn't open any longer.
pub const GONE: Exchange = (
    b"DELETE /session/00000000-0001-8000-8000-000100000000 HTTP/1.1\r\nHost: h\r\n\r\n",
    b"HTTP/1.1 404 Not Found\r\nContent-Type: application/json; charset=utf-8\r\nCache-Control: no-cache\r\nContent-Length: 87\r\n\r\n{\"value\":{\"error\":\"invalid session id\",\"message\":\"invalid session id\",\"stacktrace\":\"\"}}",
);
