//! Handing out a list of nodes: all of them get references, or none does.

ghost use Rattle.std.specs.Prelude.{◌≡◌, ◌+◌, ◌<◌, ◌≤◌, IfOk, OnOk, true, false, Some, None};
ghost use Rattle.references.specs.Handed.{is_node_kind};
ghost use Rattle.references.specs.HandedAll.{handed_all, new_count, serials_left, Extends};

use crate::fault::IdFault;
use crate::id::IdList;
use crate::kind::Kind;
use crate::known::Known;
use crate::name::NodeName;
use wd_json::NodeList;

impl Known {
    /// The references of nodes of one document, in their order, under that kind, which is `Element`
    /// or `Shadow`: each as `hand_out` gives it. `Full` exactly where fewer serials are left than
    /// there are nodes without a reference, each counted once; then nothing changes. For each node
    /// it takes one look into an index.
    pub fn hand_out_all(
        &mut self,
        kind: Kind,
        document: u64,
        nodes: &NodeList,
    ) -> Result<IdList, IdFault>
        requires unspent { self.old.spent ≡ false }
        requires node_kind { is_node_kind kind ≡ true }
        ensures ok { IfOk result (λ ids. handed_all self.old kind document nodes.now ≡ Some (ids, self.new)) }
        ensures taken { OnOk result (self.new.ids.next ≡ self.old.ids.next + new_count self.old kind document nodes.now) }
        ensures enough { OnOk result (new_count self.old kind document nodes.now ≤ serials_left self.old.ids) }
        ensures full { result ≡ Err IdFault.Full
            → (serials_left self.old.ids < new_count self.old kind document nodes.now) × (self.new ≡ self.old) }
        ensures memory { result ≡ Err IdFault.Memory → self.new.spent ≡ true }
        ensures unspent { OnOk result (self.new.spent ≡ false) }
    {
        let count = self.count();
        let serial = self.serial();
        match self.hand_out_each(kind, document, nodes) {
            Ok(ids) => Ok(ids),
            Err(IdFault::Full) => {
                self.take_back(count, serial);
                Err(IdFault::Full)
            }
            Err(IdFault::Memory) => Err(IdFault::Memory),
        }
    }

    // The same, but after `Full` the nodes before the one that got none keep theirs.
    fn hand_out_each(
        &mut self,
        kind: Kind,
        document: u64,
        nodes: &NodeList,
    ) -> Result<IdList, IdFault>
        requires unspent { self.old.spent ≡ false }
        requires node_kind { is_node_kind kind ≡ true }
        ensures ok { IfOk result (λ ids. handed_all self.old kind document nodes.now ≡ Some (ids, self.new)) }
        ensures full { result ≡ Err IdFault.Full → (handed_all self.old kind document nodes.now ≡ None) × Extends self.old self.new }
        ensures memory { result ≡ Err IdFault.Memory → self.new.spent ≡ true }
    {
        let mut ids = self.no_ids();
        for node in nodes.as_slice() {
            let name = NodeName {
                document,
                node: node.number(),
            };
            let id = self.hand_out(kind, name)?;
            self.add(&mut ids, id)?;
        }
        Ok(ids)
    }
}
