//! The pending timers of a page, in the order in which they run.

ghost use Rattle.std.specs.Prelude.{◌≡◌, [], ◌∷◌, length, IfSome, IfNone, OnOk};
ghost use Rattle.page_engine.specs.Timers.{AreInOrder, first_due, with_timer};

use crate::due::Due;
use crate::effect::EffectList;
use std::alloc::Global;
use std::collections::BTreeMap;
use std::marker::Model;
use wd_json::Memory;

/// The pending timers in the order in which they run: by the due moment, at one moment by the number,
/// and of two that have both the one that was made earlier first. Contracts see the list of them.
#[derive(Drop)]
pub struct Timers {
    /// By the due moment and the number, and by how many were made before.
    turns: BTreeMap<((u64, u64), u64), EffectList>,
    /// How many were made.
    made: u64,
}

impl Model for Timers {
    ghost use Rattle.std.specs.Prelude.{List, ◌<◌};
    ghost use Rattle.std.specs.List.{AllByRecursion};
    ghost use Rattle.std.specs.Coded.{codes};
    ghost use Rattle.page_engine.specs.Timers.{Timer, timers_in};
    ghost use Rattle.page_engine.specs.contracts.effect.Effect as effect;

    ghost Value = { List Timer };

    ghost coded = { Prim.hlevel (codes, effect.the_row.coded) };

    ghost view = { λ t. timers_in t.turns.entries };

    ghost invariant = { λ t. AllByRecursion (λ entry. entry.0.1 < t.made) t.turns.entries };
}

impl Timers {
    /// No timers. It takes no memory.
    pub fn new(alloc: Global) -> Timers
        ensures { result ≡ [] }
    {
        Timers {
            turns: BTreeMap::new(alloc),
            made: 0,
        }
    }

    /// How many there are.
    pub fn len(&self) -> usize
        ensures { result ≡ length self.now }
    {
        self.turns.len()
    }

    /// When the first is due, and its number. It takes no memory.
    pub fn first_due(&self) -> Option<Due>
        ensures { result ≡ first_due self.now }
    {
        match self.turns.first_key_value() {
            Some((turn, _)) => Some(Due {
                moment: turn.0.0,
                number: turn.0.1,
            }),
            None => None,
        }
    }

    /// Adds a timer with its due moment and its number. `Memory` where there is none for it, and after
    /// 2^64 - 1 timers.
    pub fn insert(&mut self, due: (u64, u64), effects: EffectList) -> Result<(), Memory>
        ensures { OnOk result (self.new ≡ with_timer (due, effects) self.old) }
    {
        match self.made.checked_add(1) {
            Some(made) => {
                drop(self.turns.insert((due, self.made), effects)?);
                self.made = made;
                Ok(())
            }
            None => Err(Memory),
        }
    }

    /// Takes the first timer away. It takes no memory.
    pub fn pop_first(&mut self) -> Option<((u64, u64), EffectList)>
        ensures some { IfSome result (λ timer. self.old ≡ timer ∷ self.new) }
        ensures none { IfNone result (self.old ≡ []) }
    {
        match self.turns.pop_first() {
            Some((turn, effects)) => Some((turn.0, effects)),
            None => None,
        }
    }

    /// A law: they stand in the order in which they run.
    pub fn law(&self)
        ensures { AreInOrder self.now }
    {
        let _ = self.turns.len();
    }
}
