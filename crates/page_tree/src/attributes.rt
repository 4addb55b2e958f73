//! The attributes of a node, in the order in which they were first set.

ghost use Rattle.std.specs.Prelude.{◌≡◌, [], position, OnOk, OnErr};
ghost use Rattle.std.specs.Str.{chars, bytes_eq};
ghost use Rattle.std.specs.Option.{option_copied, option_map};

use std::alloc::Global;
use std::marker::Model;
use wd_json::{Memory, WdText};

/// The attributes of a node, in the order in which they were first set.
#[derive(Drop)]
pub struct Attributes {
    entries: Vec<(WdText, WdText)>,
}

impl Model for Attributes {
    ghost use Rattle.std.specs.Prelude.{ℕ, List};
    ghost use Rattle.std.specs.Coded.{coded_list, coded×, coded_ℕ};

    ghost Value = { List (List ℕ × List ℕ) };

    ghost coded = { coded_list (coded× (coded_list coded_ℕ) (coded_list coded_ℕ)) };

    ghost view = { λ attributes. attributes.entries.items };
}

impl Attributes {
    ghost use Rattle.page_tree.specs.Attributes.{value_of, with_value, without_name, changed_to, has_name};

    /// No attributes. It takes no memory.
    pub fn new(alloc: Global) -> Attributes
        ensures { result ≡ [] }
    {
        Attributes {
            entries: Vec::new(alloc),
        }
    }

    /// All of them in order: the name and the value of each. It takes no memory.
    pub fn all(&self) -> &[(WdText, WdText)]
        ensures { result.now ≡ self.now }
    {
        self.entries.as_slice()
    }

    /// The value of the attribute with that name, `None` exactly where there is none.
    pub fn value(&self, name: &str) -> Option<&str>
        ensures { option_map chars (option_copied result) ≡ value_of (chars name.now) self.now }
    {
        match self.place(name) {
            Some(at) => Some(self.entries[at].1.as_str()),
            None => None,
        }
    }

    /// Gives the attribute that value where it stands, or last where there was none. After `Memory`
    /// the attributes are as they were.
    pub fn set(&mut self, alloc: Global, name: &str, value: &str) -> Result<(), Memory>
        ensures ok { OnOk result (self.new ≡ with_value (chars name.now) (chars value.now) self.old) }
        ensures err { OnErr result (self.new ≡ self.old) }
    {
        let value = WdText::of(alloc, value)?;
        match self.place(name) {
            Some(at) => self.entries[at].1 = value,
            None => self.entries.push((WdText::of(alloc, name)?, value))?,
        }
        Ok(())
    }

    /// Takes the attribute with that name away, if there is one.
    pub fn remove(&mut self, name: &str)
        ensures { self.new ≡ without_name (chars name.now) self.old }
    {
        self.entries.retain(|entry| !entry.0.is(name));
    }

    /// Sets the attribute, or takes it away where there is no value. After `Memory` the attributes
    /// are as they were.
    pub fn change(&mut self, alloc: Global, name: &str, value: Option<&str>) -> Result<(), Memory>
        ensures ok { OnOk result (self.new ≡ changed_to (chars name.now) (option_map chars (option_copied value.entry)) self.old) }
        ensures err { OnErr result (self.new ≡ self.old) }
    {
        match value {
            Some(value) => self.set(alloc, name, value),
            None => {
                self.remove(name);
                Ok(())
            }
        }
    }

    // Where the attribute with that name stands.
    fn place(&self, name: &str) -> Option<usize>
        ensures { result ≡ position (has_name (chars name.now)) self.now }
    {
        self.entries.iter().position(|entry| entry.0.is(name))
    }
}
