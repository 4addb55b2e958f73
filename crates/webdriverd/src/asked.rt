//! What the words of the command line ask for.

/// How connections come.
#[derive(Clone, Copy)]
pub(crate) enum How {
    /// The one of a pipe.
    Pipe,
    /// Those that dial a port, at most so many.
    Listen { port: u16, connections: u32 },
}

/// What the words of the command line ask for.
#[derive(Clone, Copy)]
pub(crate) struct Asked<'a> {
    /// How connections come.
    pub how: How,
    /// The name of the browser.
    pub name: &'a str,
    /// The name of the site's file; `None` asks for the built-in site.
    pub site: Option<&'a str>,
}
