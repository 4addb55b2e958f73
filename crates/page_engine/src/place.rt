//! What may stand in a list of effects, by where the list stands.

/// What may stand in a list of effects, by where the list stands: an `after`, a prompt.
#[derive(Clone, Copy, Debug, PartialEq, Eq)]
pub struct Place {
    pub afters: bool,
    pub prompts: bool,
}

/// The list of a handler or of a script.
pub const ANYWHERE: Place = Place {
    afters: true,
    prompts: true,
};

/// The list of a timer or of an `after`.
pub const TIMED: Place = Place {
    afters: false,
    prompts: true,
};

/// The lists of a prompt.
pub const ANSWERING: Place = Place {
    afters: false,
    prompts: false,
};
