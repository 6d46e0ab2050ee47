//! Notes on what of a message is left out, or read as another than it stands.

ghost use Rattle.std.specs.Prelude.{◌≡◌, ◌++◌, ◌∷◌, [], OnOk, option_map, option_to_list};
ghost use Rattle.feed_mapping.specs.Notes.{foreign, is_of_others, is_wrong, note_views, reason_view, wrong};

use feed_outline::Line;
use std::alloc::AllocError;

/// What the desk has no field for.
#[derive(Clone, Copy, Debug, PartialEq, Eq)]
pub enum Foreign {
    /// A Price with a PriceQualifier, which is the text.
    PriceQualifier,
    /// A Price that is not for one copy: its PricePer is the text.
    PricePer,
    /// A Price with a PriceCondition of the type that is the text, or of none.
    PriceCondition,
    /// A Price with a PriceConstraint of the type that is the text, or of none.
    PriceConstraint,
    /// A Price with PriceCoded.
    PriceCoded,
    /// A Price with a CurrencyZone, which is the text.
    CurrencyZone,
    /// A Price with an EpubLicense.
    EpubLicense,
    /// A Price with an EpubLicenseWithDate.
    EpubLicenseWithDate,
    /// A Price with a PriceDate in a format that its role does not have: the format is the text.
    DateFormat,
    /// A Price whose amount, the text, is 0.
    NoCharge,
    /// A Price of a type and a currency of which another Price beside it is left out for its
    /// PriceDates alone, and may stand in its place.
    BesideDates,
    /// A Price of the world whose countries excluded, with those of the Prices beside it that go
    /// before it, are longer than a field of the desk.
    LongTerritory,
    /// A Price or Market that holds in a region, the text, without a country and without the
    /// world.
    RegionAlone,
    /// A Price or Market that does not hold in a region, the text, that is no part of a country.
    RegionOfNoCountry,
    /// A region in RegionsIncluded beside a country or the world: without it the territory is
    /// smaller, or the same.
    RegionIncluded,
    /// A region in RegionsExcluded that is a part of a country.
    RegionExcluded,
    /// A country of a Territory, the text, that is read by its code in ISO 3166: UK as GB, EL as
    /// GR.
    CountryName,
    /// A Discount of a Price, which is not read and would make another price.
    Discount,
    /// A DiscountCoded of a Price, likewise.
    DiscountCoded,
    /// A Price whose amount has more than three decimals, and is written with three.
    Rounded,
    /// A Price of a type of the terms of the shop that none of these fits.
    NoTerm,
    /// A Price of which the terms compute an amount of 0.
    NothingToPay,
    /// A price that the terms compute of a Price, and that is held back: the feed gives one in its
    /// place, or closes its type and currency.
    HeldBack,
    /// A ProductSupply without SupplyDetail.
    NoSupplyDetail,
    /// A ProductSupply whose Markets are all left out, one of them as foreign.
    NoMarketLeft,
    /// A ProductSupply whose Markets together are longer than a field of the desk.
    LongMarkets,
    /// A Product of which no ProductSupply is left: the first that had a SupplyDetail is foreign.
    NoSupplyLeft,
    /// A ProductIdentifier whose type, the text, is no code, beside a GTIN-13 or an ISBN-13.
    IdentifierType,
    /// A ProductIdentifier whose value, the text, the desk would not take, beside such a one.
    IdentifierValue,
    /// A Product without a GTIN-13 or ISBN-13 of thirteen digits, by which the desk would find it.
    NoIsbn,
    /// A Product of a NotificationType, the text, that the desk ignores.
    Ignored,
    /// A Product that is written without supplies, since all of its SupplyDetails are of others than
    /// the supplier that is named. It is counted alone.
    OfOthers,
}

/// What the desk would not take.
#[derive(Clone, Copy, Debug, PartialEq, Eq)]
pub enum Wrong {
    /// A Price or SupplyDetail with an element of ONIX 2.1, whose name is the text.
    OldElement,
    /// A Price or Market in which an element that does not repeat comes again: the text is its
    /// name.
    ComesAgain,
    /// A Market without a Territory.
    NoTerritory,
    /// A Price or Market whose Territory says nothing.
    EmptyTerritory,
    /// A region, the text, that is the two letters of a country: of a Price or Market, or of a
    /// Territory that is written without it.
    CountryAsRegion,
    /// A Price with a PriceDate whose role, the text, does not count; it is empty where it has
    /// none.
    DateRole,
    /// A Price with two PriceDates that give two first or two last days.
    OtherDay,
    /// A Price with a PriceDate without Date, whose role is the text.
    NoDate,
    /// A Price with a PriceDate that is to have two days: the text, its Date, is not 16 bytes long.
    NotTwoDays,
    /// A Price that holds from or until a day, the text, that is none.
    Day,
    /// A Price that holds from or until a month, the text, that is none.
    Month,
    /// A Price that holds from or until a year, the text, that is none.
    Year,
    /// A Price whose PriceType, the text, is no code; where it is empty the Header has no default.
    PriceType,
    /// A Price whose amount, the text, is none.
    Amount,
    /// A Price whose currency, the text, is none; where it is empty the Header has no default.
    Currency,
    /// A Price or Market whose CountriesIncluded, the text, are no countries.
    CountriesIncluded,
    /// A Price or Market whose CountriesExcluded, the text, are no countries.
    CountriesExcluded,
    /// A Price or Market whose Territory the desk would not take for another reason.
    Territory,
    /// A Price whose MinimumOrderQuantity, the text, is none.
    Quantity,
    /// A Price that the desk would not take for another reason.
    Price,
    /// A SupplyDetail whose SupplierRole, the text, is no code.
    SupplierRole,
    /// A SupplyDetail with an identifier of the supplier whose type, the text, is no code.
    SupplierType,
    /// A SupplyDetail with an identifier of the supplier whose value, the text, the desk would not
    /// take.
    SupplierValue,
    /// A SupplyDetail with a SupplierName, the text, that the desk would not take.
    SupplierName,
    /// A SupplyDetail with neither an identifier nor a name of the supplier.
    Supplier,
    /// A SupplyDetail whose ProductAvailability, the text, is no code.
    Availability,
    /// A SupplyDetail whose UnpricedItemType, the text, is no code.
    Unpriced,
    /// A SupplyDetail that the desk would not take for another reason.
    SupplyDetail,
    /// A ProductSupply whose Markets are all left out, none of them as foreign.
    NoMarketLeft,
    /// A ProductSupply whose SupplyDetails are all left out.
    NoDetailLeft,
    /// A ProductIdentifier whose type, the text, is no code.
    IdentifierType,
    /// A ProductIdentifier whose value, the text, the desk would not take.
    IdentifierValue,
    /// A Product whose RecordReference, the text, the desk would not take.
    RecordReference,
    /// A Product whose NotificationType, the text, is no code.
    NotificationType,
    /// A Product of which no identifier is left.
    NoIdentifierLeft,
    /// A Product with a stranger: an element that is called as one that counts there, and does not
    /// there.
    OtherNamespace,
    /// A Product of which no ProductSupply is left: the first that had a SupplyDetail is wrong.
    NoSupplyLeft,
    /// A Product that alone is too large for a message.
    TooLarge,
}

/// Why something is left out.
#[derive(Clone, Copy, Debug, PartialEq, Eq)]
pub enum ReasonKind {
    Foreign(Foreign),
    Wrong(Wrong),
}

impl ReasonKind {
    /// Whether the desk would not take it; else the desk has no field for it.
    pub fn is_wrong(self) -> bool
        ensures { result ≡ is_wrong self }
    {
        match self {
            ReasonKind::Foreign(_) => false,
            ReasonKind::Wrong(_) => true,
        }
    }

    /// Whether a product is of other suppliers alone.
    pub fn is_of_others(self) -> bool
        ensures { result ≡ is_of_others self }
    {
        matches!(self, ReasonKind::Foreign(Foreign::OfOthers))
    }
}

/// Why something is left out, and the text that is the reason, where there is one.
#[derive(Clone, Copy, Debug)]
pub struct Reason<'a> {
    pub kind: ReasonKind,
    pub text: &'a [u8],
}

impl<'a> Reason<'a> {
    /// That the desk has no field for something, with the text that the reason is about.
    pub(crate) fn foreign(kind: Foreign, text: &'a [u8]) -> Reason<'a>
        ensures { reason_view result ≡ foreign kind text.now }
    {
        Reason {
            kind: ReasonKind::Foreign(kind),
            text,
        }
    }

    /// That the desk would not take something, with the text that the reason is about.
    pub(crate) fn wrong(kind: Wrong, text: &'a [u8]) -> Reason<'a>
        ensures { reason_view result ≡ wrong kind text.now }
    {
        Reason {
            kind: ReasonKind::Wrong(kind),
            text,
        }
    }
}

/// That something is left out or wrong: the line of what the note speaks of, and the reason. What is
/// said beside that is an aside: nothing of a message depends on it.
#[derive(Clone, Copy)]
pub struct Note<'a> {
    pub line: &'a Line,
    pub reason: Reason<'a>,
    pub is_aside: bool,
}

/// Adds a note on the element of a line.
pub(crate) fn push_note<'a>(
    notes: &mut Vec<Note<'a>>,
    line: &'a Line,
    reason: Reason<'a>,
) -> Result<(), AllocError>
    ensures { OnOk result (note_views notes.new.items ≡ note_views notes.old.items
        ++ reason_view reason.entry ∷ []) }
{
    notes.push(Note {
        line,
        reason,
        is_aside: false,
    })?;
    Ok(())
}

/// Adds an aside on the element of a line, with the text that it is about.
pub(crate) fn push_aside<'a>(
    notes: &mut Vec<Note<'a>>,
    line: &'a Line,
    kind: Foreign,
    text: &'a [u8],
) -> Result<(), AllocError>
    ensures { OnOk result (note_views notes.new.items ≡ note_views notes.old.items) }
{
    notes.push(Note {
        line,
        reason: Reason::foreign(kind, text),
        is_aside: true,
    })?;
    Ok(())
}

/// Adds a note on the element of a line, where there is a reason.
pub(crate) fn push_reason<'a>(
    notes: &mut Vec<Note<'a>>,
    line: &'a Line,
    reason: Option<Reason<'a>>,
) -> Result<(), AllocError>
    ensures { OnOk result (note_views notes.new.items ≡ note_views notes.old.items
        ++ option_to_list (option_map reason_view reason.entry)) }
{
    match reason {
        None => Ok(()),
        Some(reason) => push_note(notes, line, reason),
    }
}
