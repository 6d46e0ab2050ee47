//! Why no messages come of a feed.

use feed_mapping::HeaderRefusal;
use feed_outline::RefusalHints;
use feed_xml::Position;
use onix_terms::items::Items;

/// Why a message that was read is refused.
#[derive(Debug, Drop)]
pub enum Refusal {
    /// It has no Header before its first Product, which stands at the place, where it has one.
    NoHeader(Option<Position>),
    /// For what its Header says, which stands at the place and has this MessageNumber, empty where
    /// it has none.
    Header(HeaderRefusal, Items<u8>, Position),
    /// It has a second Header, which stands at the place.
    SecondHeader(Position),
    /// A stranger stands at the place, or in the Header that stands there: an element that is
    /// called as one that counts in its place, and does not count.
    OtherNamespace(Position),
    /// So many are wrong of so many Products, the first of which has this RecordReference and
    /// stands at the place.
    Wrong(u32, u32, Items<u8>, Position),
    /// It needs so many parts: for the Product at the place, and those behind it, there is none.
    Parts(u32, Position),
}

/// Why no messages come of a feed.
#[derive(Debug, Drop)]
pub enum Fault {
    /// It was not read: why, and what was told until then.
    Unread(feed_outline::Fault, RefusalHints),
    /// It is refused.
    Refused(Refusal),
    /// Memory ran out, or the target took no more.
    Memory,
}
