//! The elements of ONIX that say something to the desk.

ghost use Rattle.std.specs.Prelude.{◌≡◌};
ghost use Rattle.feed_mapping.specs.Vocabulary.{desk_vocabulary, terms_vocabulary};
ghost use Rattle.feed_outline.specs.Views.{vocabulary_view};

use feed_outline::{Vocabulary, Word, words};

// Of the message, and of a Product.
static WORDS: [Word; 43] = words! {
    b"ONIXMessage": b"Header" = b"header", b"Product" = b"product", b"NoProduct" = b"x507";
    b"Header": b"Sender" = b"sender", b"Addressee" = b"addressee", b"MessageNumber" = b"m180",
        b"MessageRepeat" = b"m181", b"SentDateTime" = b"x307", b"DefaultPriceType" = b"x310",
        b"DefaultCurrencyCode" = b"m186";
    b"Sender": b"SenderIdentifier" = b"senderidentifier";
    b"SenderIdentifier": b"SenderIDType" = b"m379", b"IDValue" = b"b244";
    b"Addressee": b"AddresseeIdentifier" = b"addresseeidentifier";
    b"AddresseeIdentifier": b"AddresseeIDType" = b"m380", b"IDValue" = b"b244";
    b"Product": b"RecordReference" = b"a001", b"NotificationType" = b"a002",
        b"ProductIdentifier" = b"productidentifier", b"ProductSupply" = b"productsupply";
    b"ProductIdentifier": b"ProductIDType" = b"b221", b"IDValue" = b"b244";
    b"ProductSupply": b"Market" = b"market", b"SupplyDetail" = b"supplydetail";
    b"Market": b"Territory" = b"territory";
    b"Territory": b"CountriesIncluded" = b"x449", b"RegionsIncluded" = b"x450",
        b"CountriesExcluded" = b"x451", b"RegionsExcluded" = b"x452";
    b"SupplyDetail": b"OrderQuantityMinimum" = b"x532", b"Supplier" = b"supplier",
        b"ProductAvailability" = b"j396", b"UnpricedItemType" = b"j192", b"Price" = b"price",
        b"SupplyToCountry" = b"j138", b"SupplyToRegion" = b"j139",
        b"SupplyToCountryExcluded" = b"j140", b"SupplyToTerritory" = b"j397";
    b"Supplier": b"SupplierRole" = b"j292", b"SupplierIdentifier" = b"supplieridentifier",
        b"SupplierName" = b"j137";
    b"SupplierIdentifier": b"SupplierIDType" = b"j345", b"IDValue" = b"b244";
};

// Of a Price, and what is counted alone.
static OTHER_WORDS: [Word; 32] = words! {
    b"Price": b"PriceType" = b"x462", b"PriceQualifier" = b"j261", b"PricePer" = b"j239",
        b"PriceCondition" = b"pricecondition", b"PriceConstraint" = b"priceconstraint",
        b"MinimumOrderQuantity" = b"j263", b"PriceCoded" = b"pricecoded", b"PriceAmount" = b"j151",
        b"UnpricedItemType" = b"j192", b"CurrencyCode" = b"j152", b"CurrencyZone" = b"x475",
        b"EpubLicense" = b"epublicense", b"EpubLicenseWithDate" = b"epublicensewithdate",
        b"PriceTypeCode" = b"j148", b"ClassOfTrade" = b"j149", b"PriceEffectiveFrom" = b"j161",
        b"PriceEffectiveUntil" = b"j162", b"CountryCode" = b"b251", b"CountryExcluded" = b"j304",
        b"TerritoryExcluded" = b"j308", b"(j303)" = b"j303", b"Territory" = b"territory",
        b"PriceDate" = b"pricedate";
    b"PriceCondition": b"PriceConditionType" = b"x463";
    b"PriceConstraint": b"PriceConstraintType" = b"x529";
    b"PriceDate": b"PriceDateRole" = b"x476", b"DateFormat" = b"j260", b"Date" = b"b306";
    b"Product": b"PublishingDetail" ~ b"publishingdetail";
    b"PublishingDetail": b"SalesRights" ~ b"salesrights";
    b"Price": b"Discount" ~ b"discount", b"DiscountCoded" ~ b"discountcoded";
};

/// The elements that say something to the desk.
#[tactic(auto, unfolding(crate::specs::Vocabulary::desk_vocabulary))]
pub fn desk_vocabulary() -> Vocabulary
    ensures { vocabulary_view result ≡ desk_vocabulary }
{
    Vocabulary {
        first: &WORDS,
        others: &OTHER_WORDS,
        apart: &[],
    }
}

// What the terms of the shop ask of a Price besides.
static TERMS_WORDS: [Word; 11] = words! {
    b"Price": b"DiscountCoded" ^ b"discountcoded", b"Discount" ^ b"discount", b"Tax" ^ b"tax";
    b"DiscountCoded": b"DiscountCodeType" ^ b"j363", b"DiscountCodeTypeName" ^ b"j378",
        b"DiscountCode" ^ b"j364";
    b"Discount": b"DiscountType" ^ b"x467", b"Quantity" ^ b"x320", b"DiscountPercent" ^ b"j267";
    b"Tax": b"TaxRateCode" ^ b"x471", b"TaxRatePercent" ^ b"x472";
};

/// The same, and those that say something to the terms of the shop.
#[tactic(auto, unfolding(crate::specs::Vocabulary::desk_vocabulary, crate::specs::Vocabulary::terms_vocabulary))]
pub fn terms_vocabulary() -> Vocabulary
    ensures { vocabulary_view result ≡ terms_vocabulary }
{
    Vocabulary {
        first: &WORDS,
        others: &OTHER_WORDS,
        apart: &TERMS_WORDS,
    }
}
