//! Looking up entries by name and by text, and adding one.

ghost use Rattle.std.specs.Prelude.{◌≡◌, None, [], ◌∷◌, ◌++◌, OnOk, OnErr};
ghost use Rattle.std.specs.List.{find};
ghost use Rattle.references.specs.Handed.{is_named, has_text_at};

use crate::ids::Ids;
use crate::kind::Kind;
use crate::name::{Entry, NodeName};
use indexmap::IndexSet;
use wd_json::Memory;

// The entry of a name under that kind. It takes one look into the index.
pub fn entry_named(entries: &IndexSet<Entry>, kind: Kind, name: NodeName) -> Option<Entry>
    ensures { result ≡ find (is_named kind name) entries.now.keys }
{
    let sought = Entry {
        kind,
        name,
        serial: 0,
    };
    entries.get(&sought).copied()
}

// Adds an entry whose name has none under its kind. It goes last.
pub fn add_entry(entries: &mut IndexSet<Entry>, entry: Entry) -> Result<(), Memory>
    requires { find (is_named entry.kind entry.name) entries.old.keys ≡ None }
    ensures added { OnOk result (entries.new.keys ≡ entries.old.keys ++ entry ∷ []) }
    ensures same { OnErr result (entries.new.keys ≡ entries.old.keys) }
{
    match entries.insert(entry) {
        Ok(_) => Ok(()),
        Err(_) => Err(Memory),
    }
}

// The entry under that kind whose identifier has that text.
pub fn entry_with(entries: &[Entry], ids: &Ids, kind: Kind, text: &str) -> Option<Entry>
    ensures { result ≡ find (has_text_at ids.now kind text.now) entries.now }
{
    entries.iter().copied().find(|entry| entry.kind == kind
        && ids.at(kind, entry.serial).has_text(text))
}
