//! The one text of contents.

ghost use Rattle.std.specs.Prelude.{◌≡◌, [], IfOk, IsErrOf, List, OnOk};
ghost use Rattle.std.specs.Str.{bytes_eq};
ghost use Rattle.std.specs.String.{string_bytes};
ghost use Rattle.csv_records.specs.RecordTexts.{records_of};
ghost use Rattle.onix_records.specs.ContentsText.{IsContents, contents_text, framed};
ghost use Rattle.onix_records.specs.Grammar.{IsMessage};
ghost use Rattle.onix_records.specs.Product.{content_records};
ghost use Rattle.onix_records.specs.declared.parts.Header.{Header};
ghost use Rattle.onix_records.specs.declared.parts.Product.{Product};

use crate::message::{MessageFault, read_message};
use csv_records::buffer::RecordBuffer;
use csv_records::fields::FieldBuffer;
use csv_records::laws::one_text;
use csv_records::reading::append_text;
use csv_records::writing::write_records;
use itoa::Buffer;
use onix_records::laws::equal_contents;
use onix_records::parts::Product;
use onix_records::product::append_product;
use onix_terms::items::Items;
use std::alloc::{AllocError, Global};
use std::marker::Model;
use thiserror::Error;

/// Why a text is no contents text.
#[derive(Debug, Drop, Error)]
pub enum ContentsFault {
    /// No contents have this text.
    #[error("the text of no contents")]
    NotContents,
    /// Memory ran out.
    #[error("out of memory")]
    Memory,
}

impl From<AllocError> for ContentsFault {
    ghost use Rattle.onix_message.specs.declared.contents.ContentsFault.TheVariants.{Memory};

    ghost from_gives = { λ _ e. e ≡ Memory };

    fn from(_e: AllocError) -> ContentsFault {
        ContentsFault::Memory
    }
}

#[tactic(auto, unfolding(onix_records::specs::Product::content_records))]
fn records_of_contents(alloc: Global, products: &[Product]) -> Result<RecordBuffer, AllocError>
    ensures { IfOk result (λ records. records ≡ content_records products.now) }
{
    // Room for products of common size.
    let count = products.len();
    let mut records = RecordBuffer::with_capacity(
        alloc,
        count.saturating_mul(16),
        count.saturating_mul(128),
        count.saturating_mul(512),
    )?;
    let mut fields = FieldBuffer::new(alloc);
    for product in products {
        append_product(alloc, &mut fields, &mut records, product)?;
    }
    Ok(records)
}

/// The contents text: one record for each part, in order, with each value written in its one
/// way. Fails only if memory runs out.
#[tactic(auto, unfolding(onix_records::specs::ContentsText::contents_text))]
pub fn write_contents(alloc: Global, contents: &Contents) -> Result<String, AllocError>
    ensures { IfOk result (λ text. string_bytes text ≡ contents_text contents.now) }
{
    let records = records_of_contents(alloc, contents.products())?;
    write_records(alloc, &records.as_records())
}

// Puts the records of a text between a Message record without defaults and the right end, into a
// borrowed buffer, so that no early return drops it.
#[tactic(auto, unfolding(onix_records::specs::ContentsText::framed))]
fn frame(alloc: Global, whole: &mut RecordBuffer, text: &str) -> Result<(), AllocError>
    ensures { whole.old ≡ [] → OnOk result (whole.new ≡ framed (records_of text.now)) }
{
    whole.push_fields(&["Message", "2", "01", "x", "", "", "", "", "", "", ""])?;
    append_text(alloc, whole, text)?;
    let mut buffer = Buffer::new();
    let count = whole.len();
    whole.push_fields(&["EndMessage", buffer.format(count)])?;
    Ok(())
}

// The records of a text between a Message record without defaults and the right end.
fn framed_records(alloc: Global, text: &str) -> Result<RecordBuffer, AllocError>
    ensures { IfOk result (λ whole. whole ≡ framed (records_of text.now)) }
{
    let mut whole = RecordBuffer::new(alloc);
    frame(alloc, &mut whole, text)?;
    Ok(whole)
}

// Whether contents have this text.
fn has_text(alloc: Global, contents: &Contents, text: &str) -> Result<bool, AllocError>
    ensures { IfOk result (λ same. same ≡ bytes_eq (contents_text contents.now) text.now) }
{
    let own = write_contents(alloc, contents)?;
    Ok(own.as_str() == text)
}

// The contents of the message that the records of a text are, with a Message record without
// defaults and the right end.
fn read_framed(alloc: Global, text: &str) -> Result<Contents, ContentsFault>
    ensures found { IfOk result (λ c. (h : Header) × IsMessage (framed (records_of text.now)) h c) }
    ensures none { IsErrOf result ContentsFault.NotContents → (h : Header) (c : List Product)
        → IsMessage (framed (records_of text.now)) h c → ⊥ }
{
    let records = framed_records(alloc, text)?;
    match read_message(alloc, &records.as_records()) {
        Ok((header, contents)) => {
            drop(header);
            Ok(contents)
        }
        Err(MessageFault::Malformed { row: _ }) => Err(ContentsFault::NotContents),
        Err(MessageFault::Memory) => Err(ContentsFault::Memory),
    }
}

/// The contents that have this text. `NotContents` exactly if no contents have it; `Memory`
/// if memory ran out.
pub fn read_contents(alloc: Global, text: &str) -> Result<Contents, ContentsFault>
    ensures contents { IfOk result (λ c. IsContents c × (contents_text c ≡ text.now)) }
    ensures none { IsErrOf result ContentsFault.NotContents → (c : List Product) → IsContents c
        → contents_text c ≡ text.now → ⊥ }
{
    one_text();
    let contents = match read_framed(alloc, text) {
        Ok(contents) => contents,
        Err(ContentsFault::NotContents) => return Err(ContentsFault::NotContents),
        Err(ContentsFault::Memory) => return Err(ContentsFault::Memory),
    };
    contents.can_be_read_back();
    let same = has_text(alloc, &contents, text)?;
    if same {
        Ok(contents)
    } else {
        Err(ContentsFault::NotContents)
    }
}

/// The products of a message, with the defaults of its header filled in. Contracts see them as
/// a list.
#[derive(Drop)]
pub struct Contents {
    products: Items<Product>,
}

impl Model for Contents {
    ghost use Rattle.std.specs.Prelude.{List};
    ghost use Rattle.onix_records.specs.ContentsText.{IsContents};
    ghost use Rattle.onix_records.specs.declared.parts.Product.{Product};

    ghost Value = { List Product };

    ghost view = { λ c. c.products };

    ghost invariant = { λ c. IsContents c.products };
}

impl Contents {
    ghost use Rattle.std.specs.Prelude.{◌≡◌, ◌≤◌, ◌↔◌, All, IsTrue, length};
    ghost use Rattle.onix_records.specs.ContentsText.{IsContents};
    ghost use Rattle.onix_records.specs.DetailCount.{detail_count};
    ghost use Rattle.onix_records.specs.PartRows.{content_rows};
    ghost use Rattle.onix_records.specs.SameContents.{same_contents};

    // The contents of a message that was read.
    pub(crate) fn from_products(products: Items<Product>) -> Contents
        requires { IsContents products }
        ensures { result ≡ products }
    {
        Contents { products }
    }

    /// A law, with nothing to run: the records of contents are those of a message, so their text
    /// can be read back.
    pub fn can_be_read_back(&self)
        ensures { IsContents self.now }
    {
        let _products = &self.products;
    }

    /// The products in their order.
    pub fn products(&self) -> &[Product]
        ensures products { result.now ≡ self.now }
        ensures few { length self.now ≤ 19998 }
        ensures few_rows { length (content_rows self.now) ≤ 19998 }
        ensures few_details { All (λ p. detail_count p.supplies ≤ 19998) self.now }
    {
        self.products.as_slice()
    }

    #[tactic(auto, unfolding(onix_records::specs::SameContents::same_contents))]
    fn has_same_products(&self, other: &Contents) -> bool
        ensures { result ≡ same_contents self.now other.now }
    {
        self.products == other.products
    }

    /// Whether two contents are equal in all parts.
    pub fn is_same(&self, other: &Contents) -> bool
        ensures meaning { IsTrue result ↔ (self.now ≡ other.now) }
        ensures value { result ≡ same_contents self.now other.now }
    {
        equal_contents();
        self.has_same_products(other)
    }
}
