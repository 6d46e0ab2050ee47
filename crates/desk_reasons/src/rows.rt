//! The records of requests and of messages: the names of their fields, and what each has to be.

ghost use Rattle.std.specs.Prelude.{◌≡◌, ◌+◌, ◌-◌, ◌%◌, ◌<◌, ◌≤◌, None, length, slice_get};

use crate::fields::{Field, Kind};

/// What records of a name have behind it.
pub(crate) struct Form {
    pub(crate) name: &'static str,
    /// How many fields, and their names, in brackets one that may be left out.
    pub(crate) text: &'static str,
    pub(crate) fields: &'static [Field],
}

// A text that a field of a kind may have, and what its text has to be.
macro_rules! rule {
    (Series) => { ("a", "1 to 32 characters of a to z, 0 to 9 and -") };
    (Code) => { ("02", "two digits") };
    (Type) => { ("02", "two digits") };
    (Filled) => { ("a", "a text that is not empty") };
    (Anything) => { ("a", "a text") };
    (Value) => { ("a", "a text") };
    (SupplierName) => { ("a", "a text") };
    (Number) => { ("1", "a number of 1 or more, in at most 9 digits") };
    (FirstNumber) => { ("1", "a number of 1 or more, in at most 9 digits") };
    (Digits) => { ("1", "1 to 9 digits") };
    (Isbn) => { ("9781234567897", "thirteen digits") };
    (Day) => { ("20250301", "a day of the calendar, YYYYMMDD") };
    (Country) => { ("GB", "two capital letters") };
    (Currency) => { ("GBP", "three capital letters") };
    (Quantity) => { ("1", "a number of 1 or more, in at most 6 digits") };
    (Amount) => { ("1", "1 to 9 digits, and at most 3 behind a point") };
    (Countries) => { ("", "countries of two capital letters with spaces between them") };
    (World) => { ("", "WORLD or empty") };
    (Form) => { ("1", "1 or 2") };
}

// A form: its name, how many fields, and each by its name and what it has to be; the one behind a
// semicolon may be left out.
macro_rules! form {
    ($form:literal $count:literal $(, $name:literal: $kind:ident)*
        $(; $last:literal: $other:ident)?) => {
        Form {
            name: $form,
            text: concat!($count, ": ", $form $(, ",", $name)* $(, "[,", $last, "]")?),
            fields: &[
                $(Field { name: $name, kind: Kind::$kind, rule: rule!($kind) },)*
                $(Field { name: $last, kind: Kind::$other, rule: rule!($other) },)?
            ],
        }
    };
}

/// The forms of what begins a request.
pub(crate) static REQUESTS: [Form; 8] = [
    form! {
        "Agree" "6", "Series": Series, "SenderIDType": Code, "SenderIDValue": Filled,
        "AddresseeIDType": Type, "AddresseeIDValue": Value, "FirstNumber": FirstNumber
    },
    form! { "Waive" "2", "Series": Series, "Number": Number },
    form! {
        "AskPrice" "5 or 6", "Article": Isbn, "Day": Day, "Country": Country, "Currency": Currency,
        "PriceType": Code; "Quantity": Quantity
    },
    form! {
        "AskChoice" "5 or 6", "Article": Isbn, "Day": Day, "Country": Country,
        "Currency": Currency, "PriceType": Code; "Quantity": Quantity
    },
    form! {
        "AskCalendar" "6 or 7", "Article": Isbn, "FirstDay": Day, "LastDay": Day,
        "Country": Country, "Currency": Currency, "PriceType": Code; "Quantity": Quantity
    },
    form! { "AskGaps" "1", "Series": Series },
    form! { "AskCatalogue" "1", "Series": Series },
    form! {
        "Message" "10", "Form": Form, "SenderIDType": Code, "SenderIDValue": Filled,
        "AddresseeIDType": Type, "AddresseeIDValue": Value, "MessageNumber": Number,
        "MessageRepeat": Digits, "SentDateTime": Anything, "DefaultPriceType": Code,
        "DefaultCurrencyCode": Currency
    },
];

/// A record behind the Message of a message: its form, records that lead to it, and behind what it
/// has to stand, empty where that is all but a ProductSupply.
pub(crate) struct Part {
    pub(crate) form: Form,
    pub(crate) leading: &'static str,
    pub(crate) behind: &'static str,
}

pub(crate) static PARTS: [Part; 5] = [
    Part {
        form: form! {
            "Product" "4 or more", "RecordReference": Filled, "NotificationType": Code,
            "ProductIDType": Code, "IDValue": Filled
        },
        leading: "",
        behind: "",
    },
    Part {
        form: form! {
            "ProductSupply" "3", "CountriesIncluded": Countries, "RegionsIncluded": World,
            "CountriesExcluded": Countries
        },
        leading: "Product,a,03,15,9781234567897",
        behind: "it has to follow a Product, a SupplyDetail or a Price",
    },
    Part {
        form: form! {
            "SupplyDetail" "6", "SupplierRole": Code, "SupplierIDType": Type,
            "SupplierIDValue": Value, "SupplierName": SupplierName, "ProductAvailability": Code,
            "UnpricedItemType": Code
        },
        leading: "Product,a,03,15,9781234567897\nProductSupply,,,",
        behind: "it has to follow a ProductSupply, a SupplyDetail or a Price",
    },
    Part {
        form: form! {
            "Price" "8, or 9 in form 2", "PriceType": Code, "PriceAmount": Amount,
            "CurrencyCode": Currency, "CountriesIncluded": Countries, "RegionsIncluded": World,
            "CountriesExcluded": Countries, "From": Day, "Until": Day;
            "MinimumOrderQuantity": Quantity
        },
        leading: "Product,a,03,15,9781234567897\nProductSupply,,,\nSupplyDetail,04,,,a,21,",
        behind: "it has to follow a SupplyDetail or a Price",
    },
    Part {
        form: form! { "EndMessage" "1", "Count": Digits },
        leading: "",
        behind: "",
    },
];

/// The forms of questions over HTTP, about a price and about a calendar, by the names of their keys.
pub(crate) static QUESTIONS: [Form; 2] = [
    form! {
        "AskPrice" "5 or 6", "the article": Isbn, "day": Day, "country": Country,
        "currency": Currency, "type": Code; "quantity": Quantity
    },
    form! {
        "AskCalendar" "6 or 7", "the article": Isbn, "from": Day, "to": Day, "country": Country,
        "currency": Currency, "type": Code; "quantity": Quantity
    },
];

impl Form {
    /// The field at a place, which is 0 for the name. The last two of a Product come again and again.
    pub(crate) fn field(&self, place: usize) -> Option<Field>
        ensures none { place ≡ 0 → result ≡ None }
        ensures own { 0 < place → place ≤ length self.now.fields.now
            → result ≡ slice_get self.now.fields.now (place - 1) }
        ensures again { length self.now.fields.now < place
            → result ≡ slice_get self.now.fields.now (2 + (place - 1) % 2) }
    {
        let place = place.checked_sub(1)?;
        let at = if place < self.fields.len() {
            place
        } else {
            2 + place % 2
        };
        self.fields.get(at).copied()
    }
}
