//! The catalogue of a series.

ghost use Rattle.std.specs.Prelude.{◌≡◌, ◌↔◌, IfOk, IfSome, IsTrue, OnOk, OnErr, IsSome, None, ℕ, List, All, Contains, fold};
ghost use Rattle.std.specs.Option.{option_copied};
ghost use Rattle.std.specs.FinMap as map;
ghost use Rattle.catalogue_rules.specs.Records.{EachHas, HasFewDetails, by_bytes, records_of};
ghost use Rattle.catalogue_rules.specs.Effects.{after, effect_of};
ghost use Rattle.catalogue_rules.specs.Offers.{offers_in};
ghost use Rattle.catalogue_rules.specs.Plans.{IsReady, all_bytes, entry_now};

use crate::entry::Entry;
use crate::entry_changes::EntryChanges;
use crate::offers::collect_record;
use crate::plan::Plan;
use onix_message::Effect;
use onix_message::contents::Contents;
use onix_terms::isbn13::Isbn13;
use onix_terms::items::Items;
use onix_terms::series_name::SeriesName;
use price_rules::collector::OfferCollector;
use price_rules::offer::Offer;
use std::alloc::{AllocError, Global};
use std::collections::{BTreeMap, btree_map};
use std::marker::Model;

/// The records of a series by their references, which contracts see as a finite map. Each has at
/// most 20,000 SupplyDetails.
#[derive(Drop)]
pub struct Catalogue {
    alloc: Global,
    records: BTreeMap<String, Entry>,
}

impl Model for Catalogue {
    ghost use Rattle.std.specs.Prelude.{ℕ};
    ghost use Rattle.std.specs.FinMap as map;
    ghost use Rattle.std.specs.Coded.{coded_ℕ, coded_list};
    ghost use Rattle.catalogue_rules.specs.contracts.entry.Entry as e;
    ghost use Rattle.catalogue_rules.specs.Records.{ByReference, EachHas, HasFewDetails, map_of};

    ghost Value = { ByReference };

    ghost coded = { map.code (coded_list coded_ℕ) e.the_row.coded };

    ghost view = { λ c. map_of c.records.entries };

    ghost invariant = { λ c. EachHas HasFewDetails (map_of c.records.entries) };
}

impl Clone for Catalogue {
    ghost is_clone = { λ x y. y ≡ x };

    /// A copy of the records, made in one pass.
    fn clone(&self) -> Result<Catalogue, AllocError> {
        Ok(Catalogue {
            alloc: self.alloc,
            records: self.records.clone()?,
        })
    }
}

impl Catalogue {
    /// A catalogue without records. It does not allocate.
    pub fn new(alloc: Global) -> Catalogue
        ensures { result ≡ map.empty }
    {
        Catalogue {
            alloc,
            records: BTreeMap::new(alloc),
        }
    }

    /// What the catalogue keeps of a reference.
    pub fn get(&self, reference: &str) -> Option<&Entry>
        ensures entry { option_copied result ≡ map.get self.now reference.now }
        ensures few { IfSome (option_copied result) HasFewDetails }
    {
        self.records.get(reference)
    }

    /// Puts an entry of at most 20,000 SupplyDetails in the place of what the reference had. Where
    /// memory runs out, the catalogue stays as it was.
    pub fn put(&mut self, reference: &str, entry: Entry) -> Result<(), AllocError>
        requires { HasFewDetails entry }
        ensures ok { OnOk result (self.new ≡ map.insert self.old reference.now entry) }
        ensures err { OnErr result (self.new ≡ self.old) }
    {
        let key = String::from_str(self.alloc, reference)?;
        self.records.insert(key, entry)?;
        Ok(())
    }

    // Puts the entry in the place of the one that the reference has, which keeps its key and does
    // not allocate.
    fn replace(&mut self, reference: &str, entry: Entry)
        requires there { IsSome (map.get self.old reference.now) }
        requires few { HasFewDetails entry }
        ensures { self.new ≡ map.insert self.old reference.now entry }
    {
        *self.records.get_mut(reference).unwrap() = entry;
    }

    // Removes what the reference had.
    fn remove(&mut self, reference: &str)
        ensures { self.new ≡ map.remove self.old reference.now }
    {
        self.records.remove(reference);
    }

    // Puts an empty entry at each of these references, as far as memory allows.
    fn put_all(&mut self, alloc: Global, new_references: &[&str]) -> Result<(), AllocError>
        ensures others { (q : List ℕ) → (Contains (all_bytes new_references.now) q → ⊥)
            → map.get self.new q ≡ map.get self.old q }
        ensures there { OnOk result
            (All (λ k. IsSome (map.get self.new k)) (all_bytes new_references.now)) }
    {
        for reference in new_references {
            self.put(
                *reference,
                Entry {
                    ids: Items::new(alloc),
                    supplies: Items::new(alloc),
                },
            )?;
        }
        Ok(())
    }

    // Removes what these references had.
    fn remove_all(&mut self, new_references: &[&str])
        ensures others { (q : List ℕ) → (Contains (all_bytes new_references.now) q → ⊥)
            → map.get self.new q ≡ map.get self.old q }
        ensures gone { All (λ k. map.get self.new k ≡ None) (all_bytes new_references.now) }
    {
        for reference in new_references {
            self.remove(*reference);
        }
    }

    // Makes a place for each of these new references, or leaves the catalogue as it was.
    fn make_room(&mut self, alloc: Global, new_references: &[&str]) -> Result<(), AllocError>
        requires { All (λ k. map.get self.old k ≡ None) (all_bytes new_references.now) }
        ensures err { OnErr result (self.new ≡ self.old) }
        ensures others { OnOk result
            ((q : List ℕ) → (Contains (all_bytes new_references.now) q → ⊥)
            → map.get self.new q ≡ map.get self.old q) }
        ensures there { OnOk result
            (All (λ k. IsSome (map.get self.new k)) (all_bytes new_references.now)) }
    {
        if let Err(refused) = self.put_all(alloc, new_references) {
            self.remove_all(new_references);
            return Err(refused);
        }
        Ok(())
    }

    // Carries out the changes, which does not allocate if each new reference has its place.
    fn apply_draft(&mut self, draft: EntryChanges<'_>)
        requires ready { (q : List ℕ) → IsReady (map.get self.old q) (map.get draft q) }
        requires few { EachHas (λ w. IfSome w HasFewDetails) draft }
        ensures { (q : List ℕ)
            → map.get self.new q ≡ entry_now (map.get self.old q) (map.get draft.entry q) }
    {
        let mut rest = draft;
        while let Some((reference, change)) = rest.pop() {
            match change {
                Some(entry) => self.replace(reference, entry),
                None => self.remove(reference),
            }
        }
    }

    /// Applies a message: its products one after the other, or none of them if memory runs out.
    /// Gives how many products did what.
    pub fn apply(&mut self, contents: &Contents) -> Result<Effect, AllocError>
        ensures ok { OnOk result (self.new ≡ after self.old contents.now) }
        ensures effect { IfOk result (λ e. e ≡ effect_of self.old contents.now) }
        ensures err { OnErr result (self.new ≡ self.old) }
    {
        let alloc = self.alloc;
        let Plan {
            draft,
            new_references,
            effect,
        } = Plan::of(alloc, self, contents.products())?;
        self.make_room(alloc, new_references.as_slice())?;
        self.apply_draft(draft);
        Ok(effect)
    }

    /// The records in order of reference, each as its reference and its entry.
    pub fn entries(&self) -> btree_map::Iter<'_, String, Entry>
        ensures records { by_bytes result ≡ records_of self.now }
        ensures few { All (λ r. HasFewDetails r.1) (records_of self.now) }
    {
        self.records.iter()
    }

    /// Collects the article's offers under the name of a series: those of each record that has an
    /// identifier of type 03 or 15 with this value, in order of reference and place.
    pub fn collect_offers<C: OfferCollector>(
        &self,
        series: &SeriesName,
        isbn: &Isbn13,
        collector: &mut C,
    ) -> Result<(), AllocError>
        ensures { OnOk result
            (collector.new
            ≡ fold C.collected collector.old (offers_in series.now self.now isbn.now)) }
    {
        let alloc = self.alloc;
        for (reference, entry) in self.entries() {
            collect_record(alloc, collector, series, isbn, reference.as_str(), entry)?;
        }
        Ok(())
    }

    /// The list of these offers.
    pub fn offers_of(&self, series: &SeriesName, isbn: &Isbn13) -> Result<Items<Offer>, AllocError>
        ensures { IfOk result (λ offers. offers ≡ offers_in series.now self.now isbn.now) }
    {
        let mut offers = Items::new(self.alloc);
        self.collect_offers(series, isbn, &mut offers)?;
        Ok(offers)
    }

    /// How many records there are.
    pub fn len(&self) -> usize
        ensures { result ≡ map.len self.now }
    {
        self.records.len()
    }

    /// Whether there are none.
    pub fn is_empty(&self) -> bool
        ensures { IsTrue result ↔ (map.len self.now ≡ 0) }
    {
        self.len() == 0
    }
}
