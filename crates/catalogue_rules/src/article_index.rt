//! Which records of a catalogue may be of an article.

ghost use Rattle.std.specs.Prelude.{◌≡◌, ℕ, List, OnOk, OnErr, fold, true};
ghost use Rattle.std.specs.FinMap as map;
ghost use Rattle.onix_records.specs.Product as product;
ghost use Rattle.catalogue_rules.specs.ArticleIndex.{IsIndexOf, ListsArticles, ListsAsBefore, is_listed, offers_there};
ghost use Rattle.catalogue_rules.specs.Effects.{after};
ghost use Rattle.catalogue_rules.specs.Offers.{offers_in};
ghost use Rattle.catalogue_rules.specs.Records.{ByReference};

use crate::catalogue::Catalogue;
use crate::listing::Listing;
use crate::offers::collect_record;
use onix_message::articles::is_article_type;
use onix_message::contents::Contents;
use onix_message::parts::{Product, ProductIdentifier};
use onix_terms::isbn13::Isbn13;
use onix_terms::series_name::SeriesName;
use onix_terms::text::Text;
use price_rules::collector::OfferCollector;
use std::alloc::{AllocError, Global};
use std::collections::BTreeSet;

/// The references of records, each at the values of its identifiers of types 03 and 15, in one
/// ordered set. A listing stays where its record no longer has the identifier, so a caller has to
/// look at each listed record.
#[derive(Drop)]
pub struct ArticleIndex {
    alloc: Global,
    listings: BTreeSet<Listing>,
}

// Collects the article's offers of the record that a reference has, if it has one.
fn collect_listed<C: OfferCollector>(
    alloc: Global,
    collector: &mut C,
    series: &SeriesName,
    isbn: &Isbn13,
    catalogue: &Catalogue,
    reference: &str,
) -> Result<(), AllocError>
    ensures { OnOk result
        (collector.new
        ≡ fold C.collected collector.old
        (offers_there series.now isbn.now reference.now
        (map.get catalogue.now reference.now))) }
{
    if let Some(entry) = catalogue.get(reference) {
        collect_record(alloc, collector, series, isbn, reference, entry)?;
    }
    Ok(())
}

impl ArticleIndex {
    /// An index that lists nothing. It does not allocate.
    pub fn new(alloc: Global) -> ArticleIndex
        ensures { IsIndexOf result map.empty }
    {
        ArticleIndex {
            alloc,
            listings: BTreeSet::new(alloc),
        }
    }

    // Lists a reference at an article.
    fn list_reference(&mut self, isbn: &str, reference: &str) -> Result<(), AllocError>
        ensures kept { ListsAsBefore self.old.listings self.new.listings }
        ensures ok { OnOk result (is_listed self.new.listings isbn.now reference.now ≡ true) }
    {
        let isbn = Text::from_str(self.alloc, isbn)?;
        let reference = Text::from_str(self.alloc, reference)?;
        self.listings.insert(Listing { isbn, reference })?;
        Ok(())
    }

    // Lists a reference at the value of an identifier, if that is of type 03 or 15.
    fn list_identifier(&mut self, id: &ProductIdentifier, reference: &str) -> Result<(), AllocError>
        ensures kept { ListsAsBefore self.old.listings self.new.listings }
        ensures ok { OnOk result
            (product.is_article_type id.now.id_type ≡ true
            → is_listed self.new.listings id.now.id_value reference.now ≡ true) }
    {
        if !is_article_type(&id.id_type) {
            return Ok(());
        }
        self.list_reference(id.id_value.as_str(), reference)
    }

    // Lists a product at the values of its identifiers of types 03 and 15.
    fn list_product(&mut self, product: &Product) -> Result<(), AllocError>
        ensures kept { ListsAsBefore self.old.listings self.new.listings }
        ensures ok { OnOk result
            (ListsArticles self.new.listings product.now.reference product.now.ids) }
    {
        for id in product.ids.as_slice() {
            self.list_identifier(id, product.reference.as_str())?;
        }
        Ok(())
    }

    /// Lists the products of a message, whatever they ask for, so that an index of a catalogue is
    /// one of the catalogue after the message. If memory runs out, it stays one of the
    /// catalogue.
    pub fn list(&mut self, contents: &Contents) -> Result<(), AllocError>
        ensures ok { (m : ByReference) → IsIndexOf self.old m
            → OnOk result (IsIndexOf self.new (after m contents.now)) }
        ensures err { (m : ByReference) → IsIndexOf self.old m
            → OnErr result (IsIndexOf self.new m) }
    {
        for product in contents.products() {
            self.list_product(product)?;
        }
        Ok(())
    }

    /// Collects the article's offers under the name of a series, as the catalogue gives them, by a
    /// look at the listed records alone.
    pub fn collect_offers<C: OfferCollector>(
        &self,
        catalogue: &Catalogue,
        series: &SeriesName,
        isbn: &Isbn13,
        collector: &mut C,
    ) -> Result<(), AllocError>
        ensures { IsIndexOf self.now catalogue.now → OnOk result
            (collector.new
            ≡ fold C.collected collector.old (offers_in series.now catalogue.now isbn.now)) }
    {
        let alloc = self.alloc;
        let digits = isbn.as_str();
        let value = Text::from_str(alloc, digits)?;
        let first = Listing {
            isbn: value,
            reference: Text::new(alloc),
        };
        for listing in self.listings.range(first..) {
            if !listing.is_at(digits) {
                break;
            }
            let reference = listing.reference.as_str();
            collect_listed(alloc, collector, series, isbn, catalogue, reference)?;
        }
        Ok(())
    }
}
