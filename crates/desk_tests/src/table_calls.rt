//! Each call of the tables once, in one transaction on an empty database: a series, a message of it that waits and
//! is applied then, and the record that it brings. Each question is answered by what was put.

use crate::cases::{expect, found, made};
use desk_tables::EffectRow;
use desk_tables::articles::ArticleRow;
use desk_tables::offers::OfferRow;
use desk_tables::prices::PriceRow;
use desk_tables::records::RecordRow;
use desk_tables::series::SeriesRow;
use desk_tables::tables::Tables;
use desk_tables::work::Work;
use onix_message::Agreement;
use onix_message::parts::{Price, Supplier};
use onix_terms::amount::Amount;
use onix_terms::code::{Code2, Currency};
use onix_terms::isbn13::Isbn13;
use onix_terms::number::Number;
use onix_terms::party::Party;
use onix_terms::quantity::Quantity;
use onix_terms::series_name::SeriesName;
use onix_terms::territory::Territory;
use onix_terms::text::Text;
use price_rules::offer::Offer;
use sqlite::{Alter, Connection};
use std::alloc::Global;
use std::process::Abort;

const CONTENTS: &str = "Product,R1,03,15,9781234567897
ProductSupply,GB IE,,
SupplyDetail,04,06,4012345000009,North Books,21,
Price,02,12.990,GBP,,WORLD,,,
";

// What the message did: its one product added a record.
const COUNTS: EffectRow = EffectRow {
    replaced: 1,
    updated: 0,
    deleted: 0,
    unknown: 0,
    ignored: 0,
};

const REFERENCE: &str = "R1";

const ISBN: &str = "9781234567897";

fn text(alloc: Global, stop: &impl Abort, text: &str) -> Text {
    made(stop, Text::from_str(alloc, text))
}

fn code(stop: &impl Abort, text: &str) -> Code2 {
    found(stop, Code2::read(text), text)
}

fn party(alloc: Global, stop: &impl Abort, value: &str) -> Party {
    Party {
        id_type: code(stop, "06"),
        id_value: text(alloc, stop, value),
    }
}

fn series(alloc: Global, stop: &impl Abort) -> SeriesRow {
    SeriesRow {
        agreement: Agreement {
            name: found(stop, SeriesName::read("north"), "a series"),
            sender: party(alloc, stop, "4012345000009"),
            addressee: Some(party(alloc, stop, "5012345678900")),
            first: found(stop, Number::read("1"), "a number"),
        },
        next: 1,
    }
}

fn article(alloc: Global, stop: &impl Abort, series: SeriesName) -> ArticleRow {
    ArticleRow {
        series,
        reference: text(alloc, stop, REFERENCE),
        id_place: 1,
        id_type: code(stop, "15"),
        id_value: text(alloc, stop, ISBN),
    }
}

fn offer(alloc: Global, stop: &impl Abort, series: SeriesName) -> OfferRow {
    OfferRow {
        series,
        reference: text(alloc, stop, REFERENCE),
        place: 1,
        supply: 1,
        market: made(stop, Territory::read(alloc, "GB IE", "", "")),
        supplier: Supplier {
            role: code(stop, "04"),
            party: Some(party(alloc, stop, "4012345000009")),
            name: text(alloc, stop, "North Books"),
        },
        availability: code(stop, "21"),
        unpriced: None,
    }
}

// It holds from one copy on.
fn price(alloc: Global, stop: &impl Abort, series: SeriesName) -> PriceRow {
    PriceRow {
        series,
        reference: text(alloc, stop, REFERENCE),
        place: 1,
        price_place: 1,
        price: Price {
            price_type: code(stop, "02"),
            amount: found(stop, Amount::read("12.99"), "an amount"),
            currency: found(stop, Currency::read("GBP"), "a currency"),
            territory: made(stop, Territory::read(alloc, "", "WORLD", "")),
            minimum: found(stop, Quantity::read("1"), "a number of copies"),
            from: None,
            until: None,
        },
    }
}

// The one row that is found.
fn only<'a, T>(stop: &impl Abort, rows: &'a [T]) -> &'a T {
    match rows {
        [row] => row,
        _ => stop.panic("one row"),
    }
}

fn is_article(row: &ArticleRow, put: &ArticleRow) -> bool {
    row.series == put.series
        && row.reference == put.reference
        && row.id_place == put.id_place
        && row.id_type == put.id_type
        && row.id_value == put.id_value
}

fn is_offer_row(row: &OfferRow, put: &OfferRow) -> bool {
    row.series == put.series
        && row.reference == put.reference
        && row.place == put.place
        && row.supply == put.supply
        && row.market == put.market
        && row.supplier == put.supplier
        && row.availability == put.availability
        && row.unpriced == put.unpriced
}

fn is_price_row(row: &PriceRow, put: &PriceRow) -> bool {
    row.series == put.series
        && row.reference == put.reference
        && row.place == put.place
        && row.price_place == put.price_place
        && row.price == put.price
}

fn is_offer(offer: &Offer, put: &OfferRow) -> bool {
    offer.series == put.series
        && offer.reference == put.reference
        && offer.place == put.place
        && offer.market == put.market
        && offer.supplier == put.supplier
        && offer.availability == put.availability
}

fn create<S: Alter>(stop: &impl Abort, work: &mut Work<'_, S>) {
    made(stop, work.create());
    let version = made(stop, work.version());
    expect(stop, matches!(version, Some(2)), "version");
}

fn agree<S: Alter>(stop: &impl Abort, work: &mut Work<'_, S>, put: &SeriesRow) {
    let agreement = &put.agreement;
    made(stop, work.put_series(agreement));
    let named = made(stop, work.series_by_name(&agreement.name));
    expect(stop, found(stop, named, "name") == *put, "name");
    let addressee = agreement.addressee.as_ref();
    let agreed = made(stop, work.series_by_parties(&agreement.sender, addressee));
    expect(stop, found(stop, agreed, "parties") == *put, "parties");
    let rows = made(stop, work.series_rows());
    expect(stop, *only(stop, rows.as_slice()) == *put, "series");
}

fn hold<S: Alter>(stop: &impl Abort, work: &mut Work<'_, S>, north: &SeriesName, first: Number) {
    made(stop, work.put_held(north, first, CONTENTS));
    let next = found(stop, made(stop, work.next_held(north, first)), "next");
    expect(stop, next.as_str() == CONTENTS, "next");
    let numbers = made(stop, work.gap_rows(north));
    expect(stop, *only(stop, numbers.as_slice()) == first, "number");
    let taken = found(stop, made(stop, work.take_held(north, first)), "taken");
    expect(stop, taken.as_str() == CONTENTS, "taken");
}

fn apply<S: Alter>(stop: &impl Abort, work: &mut Work<'_, S>, north: &SeriesName, first: Number) {
    made(stop, work.put_applied(north, first, CONTENTS, &COUNTS));
    let applied = made(stop, work.applied_at(north, first));
    let (contents, counts) = found(stop, applied, "applied");
    expect(stop, contents.as_str() == CONTENTS, "applied");
    expect(stop, counts == COUNTS, "counts");
    made(stop, work.set_next(north, 2));
}

fn put_record<S: Alter>(stop: &impl Abort, work: &mut Work<'_, S>, put: &RecordRow) {
    made(stop, work.put_record(&put.series, put.reference.as_str()));
    let is_there = work.has_record(&put.series, put.reference.as_str());
    expect(stop, made(stop, is_there), "record");
}

// The offer of the article, with its price.
fn ask_article<S: Alter>(
    alloc: Global,
    stop: &impl Abort,
    work: &mut Work<'_, S>,
    put: &OfferRow,
    price: &Price,
) {
    let isbn = found(stop, Isbn13::read(ISBN), "article");
    let offers = made(stop, work.offers_by_article(alloc, &isbn));
    let offer = only(stop, offers.as_slice());
    expect(stop, is_offer(offer, put), "offer");
    expect(
        stop,
        *only(stop, offer.prices.as_slice()) == *price,
        "price",
    );
}

fn ask_record<S: Alter>(stop: &impl Abort, work: &mut Work<'_, S>, put: &RecordRow) {
    let rows = made(stop, work.record_rows(&put.series));
    expect(stop, *only(stop, rows.as_slice()) == *put, "record");
}

fn ask_rows<S: Alter>(
    stop: &impl Abort,
    work: &mut Work<'_, S>,
    article: &ArticleRow,
    offer: &OfferRow,
    price: &PriceRow,
) {
    let articles = made(stop, work.article_rows(&article.series));
    let row = only(stop, articles.as_slice());
    expect(stop, is_article(row, article), "article");
    let offers = made(stop, work.offer_rows(&offer.series));
    let row = only(stop, offers.as_slice());
    expect(stop, is_offer_row(row, offer), "offer");
    let prices = made(stop, work.price_rows(&price.series));
    let row = only(stop, prices.as_slice());
    expect(stop, is_price_row(row, price), "price");
}

fn remove<S: Alter>(stop: &impl Abort, work: &mut Work<'_, S>, put: &RecordRow) {
    let reference = put.reference.as_str();
    made(stop, work.delete_articles(&put.series, reference));
    made(stop, work.delete_offers(&put.series, reference));
    made(stop, work.delete_record(&put.series, reference));
}

// The record's rows are put, asked for and removed.
fn keep_record<S: Alter>(
    alloc: Global,
    stop: &impl Abort,
    work: &mut Work<'_, S>,
    north: SeriesName,
) {
    let record = RecordRow {
        series: north,
        reference: text(alloc, stop, REFERENCE),
    };
    let article = article(alloc, stop, north);
    let offer = offer(alloc, stop, north);
    let price = price(alloc, stop, north);
    put_record(stop, work, &record);
    made(stop, work.put_article(&article));
    made(stop, work.put_offer(&offer));
    made(stop, work.put_price(&price));
    ask_article(alloc, stop, work, &offer, &price.price);
    ask_record(stop, work, &record);
    ask_rows(stop, work, &article, &offer, &price);
    remove(stop, work, &record);
}

fn make_calls<S: Alter>(alloc: Global, stop: &impl Abort, tables: &mut Tables<S>) {
    let mut work = made(stop, tables.work());
    create(stop, &mut work);
    let north = series(alloc, stop);
    let agreement = &north.agreement;
    agree(stop, &mut work, &north);
    hold(stop, &mut work, &agreement.name, agreement.first);
    apply(stop, &mut work, &agreement.name, agreement.first);
    keep_record(alloc, stop, &mut work, agreement.name);
    made(stop, work.commit());
}

#[test]
fn each_call_of_the_tables(rt: HostRuntime) {
    let connection = made(&rt, Connection::open_in_memory(rt.alloc()));
    make_calls(rt.alloc(), &rt, &mut Tables::new(connection));
}
