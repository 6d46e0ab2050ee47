//! The words of each reason for which something is left out, emptied, or written with a note.

ghost use Rattle.std.specs.Prelude.{◌≡◌, ◌++◌, OnOk, string_bytes};
ghost use Rattle.feed_files.specs.Lines.{fate_text};

use crate::shown::{push_value, push_words};
use feed_mapping::{Foreign, ReasonKind, Wrong};
use std::alloc::AllocError;

/// That an element is a stranger, of this name.
pub(crate) const STRANGER: &str = "an element in another namespace or spelling: *";

/// What becomes of an element for a reason.
#[derive(Clone, Copy, PartialEq, Eq)]
pub(crate) enum Fate {
    /// It is left out.
    LeftOut,
    /// It is a Product, and left out.
    Lost,
    /// It is a Product, and written without its supplies.
    Emptied,
    /// It is written.
    Written,
    /// It is counted, and has no line.
    Counted,
    /// It is a discount, and counted too, but with terms it is read.
    Discount,
}

/// A reason, what becomes of an element for it, and its words: what the feed has stands in the place
/// of their star.
pub(crate) struct Told {
    pub(crate) kind: ReasonKind,
    pub(crate) fate: Fate,
    pub(crate) words: &'static str,
}

macro_rules! reasons {
    ($($of:ident $kind:ident $fate:ident $words:expr),* $(,)?) => {
        [$(Told { kind: ReasonKind::$of($of::$kind), fate: Fate::$fate, words: $words }),*]
    };
}

static REASONS: [Told; 69] = reasons! {
    Foreign PriceQualifier LeftOut "PriceQualifier *",
    Foreign PricePer LeftOut "PricePer *",
    Foreign PriceCondition LeftOut "PriceConditionType *",
    Foreign PriceConstraint LeftOut "PriceConstraintType *",
    Foreign PriceCoded LeftOut "PriceCoded",
    Foreign CurrencyZone LeftOut "CurrencyZone *",
    Foreign EpubLicense LeftOut "EpubLicense",
    Foreign EpubLicenseWithDate LeftOut "EpubLicenseWithDate",
    Foreign DateFormat LeftOut "PriceDate in format *",
    Foreign NoCharge LeftOut "PriceAmount * is no price",
    Foreign BesideDates LeftOut "beside a Price that is left out for its PriceDates",
    Foreign LongTerritory LeftOut
    "CountriesExcluded with the countries of Prices beside it has more than 1,024 bytes",
    Foreign RegionAlone LeftOut "the region * without a country or WORLD",
    Foreign RegionOfNoCountry LeftOut "the region *, no part of a country",
    Foreign RegionIncluded LeftOut "the region * beside a country or WORLD",
    Foreign RegionExcluded LeftOut "the region *, a part of a country",
    Foreign CountryName Written "with the country * by another code",
    Foreign Discount Discount "not read",
    Foreign DiscountCoded Discount "not read",
    Foreign Rounded Counted "rounded",
    Foreign OfOthers LeftOut "of other suppliers alone",
    Foreign NoTerm Counted "that no term fits",
    Foreign NothingToPay Written "with a computed price of 0",
    Foreign HeldBack Counted "with a computed price held back",
    Foreign NoSupplyDetail LeftOut "no SupplyDetail",
    Foreign NoMarketLeft LeftOut "every Market is left out",
    Foreign LongMarkets LeftOut "its Markets together have more than 1,024 bytes",
    Foreign NoSupplyLeft Emptied "no ProductSupply is left",
    Foreign IdentifierType LeftOut "ProductIDType *",
    Foreign IdentifierValue LeftOut "IDValue *",
    Foreign NoIsbn Written "without an ISBN of thirteen digits",
    Foreign Ignored Written "of NotificationType *, which the desk ignores",
    Wrong OldElement LeftOut "* of ONIX 2.1",
    Wrong ComesAgain LeftOut "* comes again",
    Wrong NoTerritory LeftOut "no Territory",
    Wrong EmptyTerritory LeftOut "an empty Territory",
    Wrong CountryAsRegion LeftOut "the region *, a country",
    Wrong DateRole LeftOut "PriceDateRole *",
    Wrong OtherDay LeftOut "two of its PriceDates give another day",
    Wrong NoDate LeftOut "PriceDate of role * without Date",
    Wrong NotTwoDays LeftOut "Date * is not two days",
    Wrong Day LeftOut "Date * is no day",
    Wrong Month LeftOut "Date * is no month",
    Wrong Year LeftOut "Date * is no year",
    Wrong PriceType LeftOut "PriceType *",
    Wrong Amount LeftOut "PriceAmount *",
    Wrong Currency LeftOut "CurrencyCode *",
    Wrong CountriesIncluded LeftOut "CountriesIncluded *",
    Wrong CountriesExcluded LeftOut "CountriesExcluded *",
    Wrong Territory LeftOut "CountriesIncluded or CountriesExcluded",
    Wrong Quantity LeftOut "MinimumOrderQuantity *",
    Wrong SupplierRole LeftOut "SupplierRole *",
    Wrong SupplierType LeftOut "SupplierIDType *",
    Wrong SupplierValue LeftOut "SupplierIdentifier with IDValue *",
    Wrong SupplierName LeftOut "SupplierName *",
    Wrong Supplier LeftOut "Supplier without identifier and name",
    Wrong Availability LeftOut "ProductAvailability *",
    Wrong Unpriced LeftOut "UnpricedItemType *",
    Wrong SupplyDetail LeftOut "a text of its Supplier",
    Wrong NoMarketLeft LeftOut "every Market is left out",
    Wrong NoDetailLeft LeftOut "every SupplyDetail is left out",
    Wrong IdentifierType LeftOut "ProductIDType *",
    Wrong IdentifierValue LeftOut "IDValue *",
    Wrong RecordReference Lost "RecordReference *",
    Wrong NotificationType Emptied "NotificationType *",
    Wrong NoIdentifierLeft Emptied "no right ProductIdentifier",
    Wrong OtherNamespace Emptied STRANGER,
    Wrong NoSupplyLeft Emptied "no ProductSupply is left",
    Wrong TooLarge Emptied "too large for a message of 20,000 records and 4,194,304 bytes",
};

// Of any other.
static OTHER: Told = Told {
    kind: ReasonKind::Wrong(Wrong::Price),
    fate: Fate::LeftOut,
    words: "a text of it",
};

/// What is told of a reason.
pub(crate) fn told_of(kind: ReasonKind) -> &'static Told {
    for told in REASONS.iter() {
        if told.kind == kind {
            return told;
        }
    }
    &OTHER
}

/// Adds what becomes of an element of that name, and why, with what the feed has there.
pub(crate) fn push_fate(
    line: &mut String,
    name: &[u8],
    told: &Told,
    value: &[u8],
) -> Result<(), AllocError>
    ensures { OnOk result (string_bytes line.new ≡ string_bytes line.old
        ++ fate_text told.now.fate name.now told.now.words.now value.now) }
{
    push_value(line, name)?;
    line.push_str(match told.fate {
        Fate::Emptied => " emptied: ",
        Fate::LeftOut if name == b"Territory".as_slice() => " without ",
        Fate::LeftOut | Fate::Lost => " left out: ",
        Fate::Written | Fate::Counted | Fate::Discount => " ",
    })?;
    push_words(line, told.words, value)
}
