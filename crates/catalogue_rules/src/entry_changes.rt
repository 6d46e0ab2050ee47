//! What is to become of the records that a message names.

ghost use Rattle.std.specs.Prelude.{◌≡◌, ◌<◌, IfSome, IfNone, OnOk, Some, None, ℕ, List};
ghost use Rattle.std.specs.Option.{option_copied};
ghost use Rattle.std.specs.FinMap as map;

use crate::entry::Entry;
use std::alloc::{AllocError, Global};
use std::collections::BTreeMap;
use std::marker::Model;

/// What is to become of some references: the entry that each then has, or none. The references are
/// borrowed from the products, so that none is copied.
#[derive(Drop)]
pub struct EntryChanges<'a> {
    changes: BTreeMap<&'a str, Option<Entry>>,
}

impl<'a> Model for EntryChanges<'a> {
    ghost use Rattle.std.specs.Prelude.{ℕ};
    ghost use Rattle.std.specs.FinMap as map;
    ghost use Rattle.std.specs.Coded.{coded_ℕ, coded_list, coded_option};
    ghost use Rattle.catalogue_rules.specs.contracts.entry.Entry as e;
    ghost use Rattle.catalogue_rules.specs.Records.{map_by};
    ghost use Rattle.catalogue_rules.specs.Plans.{Changes, str_bytes};

    ghost Value = { Changes };

    ghost coded = { map.code (coded_list coded_ℕ) (coded_option e.the_row.coded) };

    ghost view = { λ d. map_by str_bytes d.changes.entries };
}

impl<'a> EntryChanges<'a> {
    /// No change. It does not allocate.
    pub fn new(alloc: Global) -> EntryChanges<'a>
        ensures { result ≡ map.empty }
    {
        EntryChanges {
            changes: BTreeMap::new(alloc),
        }
    }

    /// What is to become of a reference, or `None` where it stays as it is.
    pub fn get(&self, reference: &str) -> Option<&Option<Entry>>
        ensures { option_copied result ≡ map.get self.now reference.now }
    {
        self.changes.get(reference)
    }

    /// Sets what is to become of a reference, in place of what was set before.
    pub fn set(&mut self, reference: &'a str, change: Option<Entry>) -> Result<(), AllocError>
        ensures { OnOk result (self.new ≡ map.insert self.old reference.now change) }
    {
        self.changes.insert(reference, change)?;
        Ok(())
    }

    /// Removes one change and gives it, or `None` if there is none.
    pub fn pop(&mut self) -> Option<(&'a str, Option<Entry>)>
        ensures none { IfNone result ((q : List ℕ) → map.get self.old q ≡ None) }
        ensures some { IfSome result (λ p. map.get self.old p.0.now ≡ Some p.1) }
        ensures rest { IfSome result (λ p. self.new ≡ map.remove self.old p.0.now) }
        ensures fewer { IfSome result (λ p. map.len self.new < map.len self.old) }
    {
        let Some((reference, change)) = self.changes.pop_first() else {
            return None
        };
        Some((reference, change))
    }
}
