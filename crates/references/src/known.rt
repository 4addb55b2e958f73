//! The references that a session handed out, found by node and by text.

ghost use Rattle.std.specs.Prelude.{◌≡◌, ◌↔◌, ◌-◌, IfOk, OnOk, OnErr, IsErr, true, false, Some, None, [], ◌∷◌, ◌++◌, length, is_some};
ghost use Rattle.std.specs.List.{find};
ghost use Rattle.references.specs.Series.{Series, id_at, last_serial};
ghost use Rattle.references.specs.Handed.{handed, name_with, is_node_kind, is_named, after_next};
ghost use Rattle.references.specs.HandedAll.{taken_back};
ghost use Rattle.references.specs.Issued.{AreIssued};

use crate::fault::IdFault;
use crate::id::{Id, IdList};
use crate::ids::{Full, Ids};
use crate::kind::Kind;
use crate::look::{add_entry, entry_named, entry_with};
use crate::name::{Entry, NodeName};
use indexmap::IndexSet;
use std::alloc::Global;
use std::marker::Model;
use wd_json::Memory;

/// The references that a session handed out (W3C WebDriver, section 11, Elements): entries in the order in
/// which they were handed out, with an index by their names. After `Memory` it is spent, and no call but
/// `spent` may be made.
#[derive(Drop)]
pub struct Known {
    alloc: Global,
    ids: Ids,
    first: u32,
    entries: IndexSet<Entry>,
    spent: bool,
}

impl Model for Known {
    ghost use Rattle.references.specs.Handed.{Handed};
    ghost use Rattle.references.specs.Issued.{AreIssued};

    ghost Value = { Handed };

    ghost view = { λ k. record { ids = k.ids; first = k.first; entries = k.entries.keys; spent = k.spent } };

    ghost invariant = { λ k. AreIssued (record { ids = k.ids; first = k.first; entries = k.entries.keys; spent = k.spent }) };
}

impl Known {
    /// Nothing is handed out. The next identifiers are those. It takes no memory.
    pub fn new(alloc: Global, ids: Ids) -> Known
        ensures { result ≡ record { ids = ids; first = ids.next; entries = []; spent = false } }
    {
        let first = ids.serial();
        Known {
            alloc,
            ids,
            first,
            entries: IndexSet::new(alloc),
            spent: false,
        }
    }

    /// Whether there was no memory for an earlier call.
    pub fn spent(&self) -> bool
        ensures { result ≡ self.now.spent }
    {
        self.spent
    }

    /// A law: the serials rise, no name stands twice, and each is an element or a shadow root.
    pub fn are_issued(&self)
        ensures { AreIssued self.now }
    {
        let _ = &self.entries;
    }

    /// An identifier for a new window. It takes a serial, and nothing else is kept of it. `Full`
    /// exactly where the next serial is 2^32 - 1; then nothing changes. It takes no memory.
    pub fn window(&mut self) -> Result<Id, Full>
        requires unspent { self.old.spent ≡ false }
        ensures ok { IfOk result (λ id. id ≡ id_at self.old.ids Kind.Window self.old.ids.next) }
        ensures taken { OnOk result (self.new ≡ record self.old { ids = after_next self.old.ids }) }
        ensures full { IsErr result ↔ (self.old.ids.next ≡ last_serial) }
        ensures err { OnErr result (self.new ≡ self.old) }
    {
        self.ids.next(Kind::Window)
    }

    /// The reference of a node under that kind, which is `Element` or `Shadow`: a name that is there
    /// keeps its own, and another takes the next serial. `Full` exactly where a new name would take
    /// serial 2^32 - 1; then nothing changes. It costs one look into an index.
    #[tactic(auto, unfolding(crate::specs::Handed::handed))]
    pub fn hand_out(&mut self, kind: Kind, node: NodeName) -> Result<Id, IdFault>
        requires unspent { self.old.spent ≡ false }
        requires node_kind { is_node_kind kind ≡ true }
        ensures ok { IfOk result (λ id. handed self.old kind node ≡ Some (id, self.new)) }
        ensures full { result ≡ Err IdFault.Full → (handed self.old kind node ≡ None) × (self.new ≡ self.old) }
        ensures memory { result ≡ Err IdFault.Memory → self.new.spent ≡ true }
        ensures unspent { OnOk result (self.new.spent ≡ false) }
    {
        if let Some(entry) = entry_named(&self.entries, kind, node) {
            return Ok(self.ids.at(kind, entry.serial));
        }
        let serial = self.ids.serial();
        let id = self.ids.next(kind)?;
        let entry = Entry {
            kind,
            name: node,
            serial,
        };
        match add_entry(&mut self.entries, entry) {
            Ok(()) => Ok(id),
            Err(Memory) => {
                self.spent = true;
                Err(IdFault::Memory)
            }
        }
    }

    /// The node that was handed out under that kind, which is `Element` or `Shadow`, with an
    /// identifier of that text. `None` exactly where there is none. It takes no memory, and goes
    /// over all that was handed out.
    pub fn find(&self, kind: Kind, text: &str) -> Option<NodeName>
        requires unspent { self.now.spent ≡ false }
        requires node_kind { is_node_kind kind ≡ true }
        ensures { result ≡ name_with self.now kind text.now }
    {
        match entry_with(self.entries.as_slice(), &self.ids, kind, text) {
            Some(entry) => Some(entry.name),
            None => None,
        }
    }

    /// Whether that name was handed out under that kind. It takes no memory, and one look into an index.
    pub fn holds(&self, kind: Kind, node: NodeName) -> bool
        requires unspent { self.now.spent ≡ false }
        ensures { result ≡ is_some (find (is_named kind node) self.now.entries) }
    {
        entry_named(&self.entries, kind, node).is_some()
    }

    /// How many serials are left: 2^32 - 1 less the next one. It takes no memory.
    pub fn left(&self) -> u32
        requires unspent { self.now.spent ≡ false }
        ensures { result ≡ last_serial - self.now.ids.next }
    {
        u32::MAX - self.ids.serial()
    }

    // How many entries there are.
    pub(crate) fn count(&self) -> usize
        ensures count { result ≡ length self.now.entries }
        ensures issued { AreIssued self.now }
    {
        self.entries.len()
    }

    // The next serial.
    pub(crate) fn serial(&self) -> u32
        ensures { result ≡ self.now.ids.next }
    {
        self.ids.serial()
    }

    // An empty list.
    pub(crate) fn no_ids(&self) -> IdList
        ensures { result ≡ [] }
    {
        IdList::new(self.alloc)
    }

    // Adds the identifier to the list. After `Memory` the references are spent.
    pub(crate) fn add(&mut self, ids: &mut IdList, id: Id) -> Result<(), Memory>
        ensures added { OnOk result (ids.new ≡ ids.old ++ id ∷ []) }
        ensures same { OnOk result (self.new ≡ self.old) }
        ensures memory { OnErr result (self.new.spent ≡ true) }
    {
        if ids.push(id).is_err() {
            self.spent = true;
            return Err(Memory);
        }
        Ok(())
    }

    // Leaves the first `count` entries alone, with that serial as the next.
    pub(crate) fn take_back(&mut self, count: usize, serial: u32)
        requires { AreIssued (taken_back self.old count serial) }
        ensures { self.new ≡ taken_back self.old count serial }
    {
        self.entries.truncate(count);
        self.ids.go_back(serial);
    }
}
