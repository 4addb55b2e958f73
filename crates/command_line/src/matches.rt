//! What words give.
ghost use Rattle.std.specs.Prelude.{◌≡◌, find};
ghost use Rattle.std.specs.Str.{bytes_eq};
ghost use Rattle.std.specs.Option.{option_copied};
ghost use Rattle.command_line.specs.Given.{given_of, value_of};

/// What words give: the options with their values, and a positional.
#[derive(Debug, Drop)]
pub struct Matches<'a> {
    /// The options that are given, each with its value, in the order of the words.
    pub values: Vec<(&'a str, &'a str)>,
    /// The positional, where one is given.
    pub positional: Option<&'a str>,
}

impl<'a> Matches<'a> {
    /// The option with its value, where it is given.
    fn entry(&self, option: &str) -> Option<&(&'a str, &'a str)>
        ensures { option_copied result ≡ find (λ given. bytes_eq given.0.now option.now) self.now.values.items }
    {
        self.values.iter().find(|given| given.0 == option)
    }

    /// The value of an option; `None` where it isn't given.
    #[tactic(auto, using(crate::proofs::Lists::made_lists))]
    pub fn value(&self, option: &str) -> Option<&'a str>
        ensures { option_copied result ≡ value_of option.now (given_of self.now) }
    {
        match self.entry(option) {
            Some(given) => Some(given.1),
            None => None,
        }
    }
}
