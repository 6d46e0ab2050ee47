//! The changes of a message, planned before the catalogue is touched.

ghost use Rattle.std.specs.Prelude.{◌≡◌, ◌↔◌, ◌+◌, ◌<◌, ◌^◌, [], IfOk, OnOk, IsTrue, IsSome, Some, None, Option, length};
ghost use Rattle.std.specs.Option.{option_copied};
ghost use Rattle.std.specs.FinMap as map;
ghost use Rattle.catalogue_rules.specs.Records.{ByReference};
ghost use Rattle.catalogue_rules.specs.Effects.{after, after_product, change_of, counted, effect_of, entry_after, no_effect, with_entry};
ghost use Rattle.catalogue_rules.specs.Plans.{IsPlan, all_bytes, entry_now, total};

use crate::catalogue::Catalogue;
use crate::change::{Change, counted};
use crate::entry::Entry;
use crate::entry_changes::EntryChanges;
use onix_message::Effect;
use onix_message::parts::Product;
use std::alloc::{AllocError, Global};

/// What products are to change of a catalogue, which stays as it is while the plan is made. The
/// references are borrowed from the products.
#[derive(Drop)]
pub struct Plan<'a> {
    /// The changes.
    pub draft: EntryChanges<'a>,
    /// Those of their references that the catalogue lacks, each once.
    pub new_references: Vec<&'a str>,
    /// What the products did.
    pub effect: Effect,
}

// What a product makes of the entry of its reference, or `None` where it leaves that alone.
fn change_by(
    change: Change,
    product: &Product,
    was: Option<&Entry>,
) -> Result<Option<Option<Entry>>, AllocError>
    ensures { IfOk result
        (λ now. entry_now (option_copied was.entry) now
        ≡ entry_after change product.now (option_copied was.entry)) }
{
    match change {
        Change::Replace => Ok(Some(Some(Entry::copy_of(&product.ids, &product.supplies)?))),
        Change::Update => match was {
            Some(entry) if !product.supplies.is_empty() => {
                Ok(Some(Some(Entry::copy_of(&entry.ids, &product.supplies)?)))
            }
            _ => Ok(None),
        },
        Change::Delete => match was {
            Some(_) => Ok(Some(None)),
            None => Ok(None),
        },
        Change::Ignore => Ok(None),
    }
}

impl<'a> Plan<'a> {
    /// A plan that changes nothing.
    fn new(alloc: Global) -> Plan<'a>
        ensures plan { (base : ByReference)
            → IsPlan base result.draft (all_bytes result.new_references.items) base }
        ensures effect { result.effect ≡ no_effect }
    {
        Plan {
            draft: EntryChanges::new(alloc),
            new_references: Vec::new(alloc),
            effect: Effect::none(),
        }
    }

    /// The entry that a reference has after the changes.
    fn entry_of<'e>(&'e self, catalogue: &'e Catalogue, reference: &str) -> Option<&'e Entry>
        ensures { option_copied result
            ≡ entry_now (map.get catalogue.now reference.now)
            (map.get self.now.draft reference.now) }
    {
        match self.draft.get(reference) {
            Some(Some(entry)) => Some(entry),
            Some(None) => None,
            None => catalogue.get(reference),
        }
    }

    /// Whether neither the catalogue nor the changes have a reference.
    fn is_new(&self, catalogue: &Catalogue, reference: &str) -> bool
        ensures { IsTrue result
            ↔ ((map.get catalogue.now reference.now ≡ None)
            × (map.get self.now.draft reference.now ≡ None)) }
    {
        catalogue.get(reference).is_none() && self.draft.get(reference).is_none()
    }

    /// Sets what is to become of a reference.
    fn put(
        &mut self,
        catalogue: &Catalogue,
        reference: &'a str,
        change: Option<Entry>,
    ) -> Result<(), AllocError>
        ensures plan { OnOk result
            ((m : ByReference)
            → IsPlan catalogue.now self.old.draft (all_bytes self.old.new_references.items) m
            → IsPlan catalogue.now self.new.draft (all_bytes self.new.new_references.items)
            (with_entry m reference.now change)) }
        ensures effect { OnOk result (self.new.effect ≡ self.old.effect) }
    {
        if self.is_new(catalogue, reference) {
            self.new_references.push(reference)?;
        }
        self.draft.set(reference, change)?;
        Ok(())
    }

    /// Adds what one product changes.
    fn add(&mut self, catalogue: &Catalogue, product: &'a Product) -> Result<(), AllocError>
        requires { total self.old.effect + 1 < 2 ^ 32 }
        ensures plan { OnOk result
            ((m : ByReference)
            → IsPlan catalogue.now self.old.draft (all_bytes self.old.new_references.items) m
            → IsPlan catalogue.now self.new.draft (all_bytes self.new.new_references.items)
            (after_product m product.now)) }
        ensures effect { OnOk result
            ((m : ByReference)
            → IsPlan catalogue.now self.old.draft (all_bytes self.old.new_references.items) m
            → self.new.effect
            ≡ counted (change_of product.now.notification)
            (map.get m product.now.reference) self.old.effect) }
    {
        let reference = product.reference.as_str();
        let change = Change::of(product.notification);
        let was = self.entry_of(catalogue, reference);
        let is_known = was.is_some();
        if let Some(now) = change_by(change, product, was)? {
            self.put(catalogue, reference, now)?;
        }
        self.effect = counted(self.effect, change, is_known);
        Ok(())
    }

    /// The plan of products, one after the other.
    pub fn of(
        alloc: Global,
        catalogue: &Catalogue,
        products: &'a [Product],
    ) -> Result<Plan<'a>, AllocError>
        requires { length products.now < 2 ^ 32 }
        ensures plan { IfOk result
            (λ p. IsPlan catalogue.now p.draft (all_bytes p.new_references.items)
            (after catalogue.now products.now)) }
        ensures effect { IfOk result (λ p. p.effect ≡ effect_of catalogue.now products.now) }
    {
        let mut plan = Plan::new(alloc);
        for product in products {
            plan.add(catalogue, product)?;
        }
        Ok(plan)
    }
}
