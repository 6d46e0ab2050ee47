//! One listing of an index of articles.

ghost use Rattle.std.proofs.Common.{refl};
ghost use Rattle.std.specs.Prelude.{◌≡◌, Some};
ghost use Rattle.std.specs.Cmp.{partial_equiv_from_equiv, po};
ghost use Rattle.std.specs.Str.{bytes_eq};
ghost use Rattle.catalogue_rules.specs.Listings.{is_same_listing, listing_cmp, listing_equiv, listing_ties, listing_total};

use onix_terms::text::Text;
use std::cmp::Ordering;

/// A reference of a record at an article that the record may have. Listings are in order of
/// article, and those of an article in order of reference.
#[derive(Drop)]
pub(crate) struct Listing {
    pub(crate) isbn: Text,
    pub(crate) reference: Text,
}

impl PartialEq for Listing {
    ghost eq = { is_same_listing };

    ghost laws = { partial_equiv_from_equiv listing_equiv };

    fn eq(&self, other: &Listing) -> bool {
        self.isbn == other.isbn && self.reference == other.reference
    }
}

impl Eq for Listing {
    ghost laws = { listing_equiv };
}

impl PartialOrd for Listing {
    ghost partial_cmp = { λ x y. Some (listing_cmp x y) };

    ghost laws = { po listing_total listing_ties };

    fn partial_cmp(&self, other: &Listing) -> Option<Ordering> {
        Some(self.cmp(other))
    }
}

impl Ord for Listing {
    ghost cmp = { listing_cmp };

    ghost total = { listing_total };

    ghost matches_partial_cmp = { λ x y. refl };

    ghost matches_eq = { listing_ties };

    fn cmp(&self, other: &Listing) -> Ordering {
        self.isbn
            .compare(&other.isbn)
            .then_with(|| self.reference.compare(&other.reference))
    }
}

impl Listing {
    /// Whether it is at this article.
    pub(crate) fn is_at(&self, isbn: &str) -> bool
        ensures { result ≡ bytes_eq isbn.now self.now.isbn }
    {
        isbn == self.isbn.as_str()
    }
}
