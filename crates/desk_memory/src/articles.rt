//! The articles of one series: which records have them.

ghost use Rattle.std.specs.Prelude.{◌≡◌, ◌+◌, ◌-◌, [], ℕ, List, OnErr, OnOk, Some, fold, length, slice_get};
ghost use Rattle.std.specs.BTreeMap.{get};
ghost use Rattle.std.specs.FinMap as map;
ghost use Rattle.std.specs.Ordering.{nat_cmp};
ghost use Rattle.catalogue_rules.specs.ArticleIndex.{IsIndexOf};
ghost use Rattle.catalogue_rules.specs.Offers.{offers_in};
ghost use Rattle.catalogue_rules.specs.Records.{ByReference};
ghost use Rattle.desk_memory.specs.Listed.{IsListed};
ghost use Rattle.series_rules.specs.declared.requests.Standing.{Standing};
ghost use Rattle.series_rules.specs.Series.{BeginsWith, after_all, after_standing};

use catalogue_rules::article_index::ArticleIndex;
use catalogue_rules::catalogue::Catalogue;
use onix_terms::isbn13::Isbn13;
use onix_terms::number::Number;
use onix_terms::series_name::SeriesName;
use price_rules::collector::OfferCollector;
use series_rules::requests::Standing;
use std::alloc::{AllocError, Global};
use std::collections::BTreeMap;

/// The articles of what stands at the first numbers of a series, each message listed once, as far
/// as questions about prices needed it.
#[derive(Drop)]
pub(crate) struct Articles {
    pub(crate) index: ArticleIndex,
    /// The first number that is not listed.
    pub(crate) next: u32,
}

// Lists the articles of one of what stands.
fn list_standing(index: &mut ArticleIndex, standing: &Standing) -> Result<(), AllocError>
    ensures ok { (m : ByReference) → IsIndexOf index.old m
        → OnOk result (IsIndexOf index.new (after_standing m standing.now)) }
    ensures err { (m : ByReference) → IsIndexOf index.old m → OnErr result (IsIndexOf index.new m) }
{
    match standing {
        Standing::Message(contents) => index.list(contents),
        Standing::Waived => Ok(()),
    }
}

impl Articles {
    /// Those of nothing. It does not allocate.
    pub(crate) fn new(alloc: Global, from: Number) -> Articles
        ensures { IsListed from [] result }
    {
        Articles {
            index: ArticleIndex::new(alloc),
            next: from.value(),
        }
    }

    // Lists those of what stands at the next number.
    fn list(&mut self, number: Number, standing: &Standing) -> Result<(), AllocError>
        requires { number ≡ self.old.next }
        ensures listed { (from : ℕ) (hs : List Standing) → IsListed from hs self.old
            → slice_get hs (number - from) ≡ Some standing.now → IsListed from hs self.new }
        ensures next { OnOk result (self.new.next ≡ number + 1) }
    {
        list_standing(&mut self.index, standing)?;
        self.next = number.value() + 1;
        Ok(())
    }

    /// Goes on up to that number, as far as memory allows.
    pub(crate) fn go_on(&mut self, numbers: &BTreeMap<Number, Standing>, until: u32)
        ensures { (from : ℕ) (hs : List Standing) → BeginsWith (get nat_cmp numbers.now) from hs
            → until ≡ from + length hs → IsListed from hs self.old → IsListed from hs self.new }
    {
        for next in self.next..until {
            let Some(number) = Number::from_value(next) else {
                return;
            };
            let Some(standing) = numbers.get(&number) else {
                return;
            };
            let Ok(()) = self.list(number, standing) else {
                return;
            };
        }
    }

    /// Collects the article's offers in the catalogue of what stands below a number: by a look at the
    /// records that have it, where all are listed, and else at each record.
    pub(crate) fn collect_offers<C: OfferCollector>(
        &self,
        catalogue: &Catalogue,
        next: u32,
        series: &SeriesName,
        isbn: &Isbn13,
        collector: &mut C,
    ) -> Result<(), AllocError>
        ensures { (from : ℕ) (hs : List Standing) → IsListed from hs self.now
            → next ≡ from + length hs → catalogue.now ≡ after_all map.empty hs →
            OnOk result
            (collector.new
            ≡ fold C.collected collector.old (offers_in series.now catalogue.now isbn.now)) }
    {
        if self.next == next {
            return self
                .index
                .collect_offers(catalogue, series, isbn, collector);
        }
        catalogue.collect_offers(series, isbn, collector)
    }
}
