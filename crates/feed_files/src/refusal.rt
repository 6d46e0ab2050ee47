//! Why the message of a FILE is refused.

use crate::notes::{Notes, push_place};
use crate::reasons::STRANGER;
use crate::shown::push_words;
use feed_conversion::{Fault, Options, Refusal};
use feed_mapping::HeaderRefusal;
use feed_outline::{RefusalHints, Wrong};
use feed_xml::Position;
use program_files::FileFault;
use std::alloc::AllocError;

const AGREED: &str =
    "the number of parts is a part of the agreement on the series, and with another one its \
    numbers no longer follow each other";

/// What is known of a FILE that was not converted, beside its fault.
#[derive(Clone, Copy)]
pub struct RefusedFile<'a> {
    pub file: &'a str,
    pub options: &'a Options<'a>,
    /// The notes on what is left out of it.
    pub notes: &'a Notes<'a>,
    /// Why a read failed, where one did.
    pub unread: &'a Option<FileFault>,
}

const NOTHING: &[u8] = b"";

// Words, and what the feed has in the place of their star.
type Words<'a> = (&'static str, &'a [u8]);

// Why a file is no document. Where nothing else is told it is malformed by its end alone.
fn of_document<'a>(fault: &'a feed_xml::Fault, told: &'a RefusalHints) -> Words<'a> {
    match (fault, &told.stuck) {
        (feed_xml::Fault::UnknownEncoding(name), _) => match name.as_slice() {
            b"UTF-16" => ("encoding *; iconv -f UTF-16 -t UTF-8 recodes it", b"UTF-16"),
            name => ("encoding * is not read", name),
        },
        (feed_xml::Fault::Malformed, Some(rest)) => ("no well-formed XML at *", rest.as_slice()),
        (feed_xml::Fault::NotText, _) => (
            "what is no text of XML in its encoding, as of a packed file or of another encoding",
            NOTHING,
        ),
        (feed_xml::Fault::TooDeep, _) => ("more than 1,000 elements within one another", NOTHING),
        (feed_xml::Fault::TooLong, _) => {
            (
                "a tag, name or comment of more than 4,194,304 bytes",
                NOTHING,
            )
        }
        (feed_xml::Fault::LargeTag, _) => {
            (
                "a tag with more than 64 attributes, or 65,536 bytes of them",
                NOTHING,
            )
        }
        _ => ("the file ends too early", NOTHING),
    }
}

// Why a feed is not read.
fn of_unread<'a>(fault: &'a feed_outline::Fault, told: &'a RefusalHints) -> Words<'a> {
    match fault {
        feed_outline::Fault::Document(fault) => of_document(fault, told),
        feed_outline::Fault::Message(Wrong::Root(name)) => {
            (
                "root * is neither ONIXMessage nor ONIXmessage",
                name.as_slice(),
            )
        }
        feed_outline::Fault::Message(Wrong::Release(release, _)) => {
            let release = match release {
                Some(release) => release.as_slice(),
                None => NOTHING,
            };
            ("release *, not 3.0 or 3.1", release)
        }
        feed_outline::Fault::Reference => {
            let name = match &told.reference {
                Some(name) => name.as_slice(),
                None => NOTHING,
            };
            ("&*; stands for nothing", name)
        }
        feed_outline::Fault::TooLarge => {
            (
                "a Header or a Product of more than 4,194,304 bytes",
                NOTHING,
            )
        }
    }
}

// Why a message is refused for its Header, with its MessageNumber or the field that the desk would
// not take.
fn of_header(refusal: HeaderRefusal) -> &'static str {
    match refusal {
        HeaderRefusal::NoSender => "no sender identifier; --sender TYPE,VALUE gives one",
        HeaderRefusal::SeveralAddressees => {
            "several addressees; --addressee TYPE,VALUE picks one"
        }
        HeaderRefusal::NoSuchAddressee => "none of several addressees is that of --addressee",
        HeaderRefusal::NoNumber => "no MessageNumber; --number N gives one",
        HeaderRefusal::WrongNumber => "MessageNumber * is none; --number N gives one",
        HeaderRefusal::NumberTooGreat => "MessageNumber * and --number-offset exceed 999999999",
        HeaderRefusal::LastNumberTooGreat => "the number of its last part exceeds 999999999",
        HeaderRefusal::Malformed => "a Header that the desk would call malformed: *",
    }
}

// Why a message is refused, and where what it is refused for stands. Of wrong products and of parts
// their numbers go before.
fn of_refused<'a>(refusal: &'a Refusal, notes: &'a Notes<'_>) -> (Position, Words<'a>) {
    match refusal {
        Refusal::NoHeader(place) => {
            let place = match place {
                Some(place) => place.copied(),
                None => Position::first(),
            };
            (place, ("no Header before the first Product", NOTHING))
        }
        Refusal::Header(refusal, number, place) => {
            let value = match refusal {
                HeaderRefusal::Malformed => notes.header.as_bytes(),
                _ => number.as_slice(),
            };
            (place.copied(), (of_header(*refusal), value))
        }
        Refusal::SecondHeader(place) => (place.copied(), ("a second Header", NOTHING)),
        Refusal::OtherNamespace(place) => (place.copied(), (STRANGER, notes.stranger.as_bytes())),
        Refusal::Wrong(_, _, reference, place) => {
            let words = " products wrong; --wrong all lets them through; the first: *";
            (place.copied(), (words, reference.as_slice()))
        }
        Refusal::Parts(_, place) => (place.copied(), (AGREED, NOTHING)),
    }
}

/// Adds the line of a FILE that was not converted, unless memory ran out; before it the lines on
/// wrong products, where it is refused for these.
pub(crate) fn push_refusal(
    line: &mut String,
    known: &RefusedFile<'_>,
    fault: &Fault,
) -> Result<(), AllocError> {
    let (place, (words, value)) = match fault {
        Fault::Unread(fault, told) => (told.place.copied(), of_unread(fault, told)),
        Fault::Refused(refusal) => of_refused(refusal, known.notes),
        Fault::Memory => return Ok(()),
    };
    if let Fault::Refused(Refusal::Wrong(_, _, _, _)) = fault {
        line.push_str(known.notes.of_wrong.text.as_str())?;
    }
    push_place(line, known.file, &place)?;
    line.push_str("refused: ")?;
    match fault {
        Fault::Refused(Refusal::Wrong(wrong, products, _, _)) => {
            write!(line, "{wrong} of {products}")?;
        }
        Fault::Refused(Refusal::Parts(count, _)) => {
            let parts = known.options.choices.parts;
            write!(line, "the message needs {count} parts, not {parts}; ")?;
        }
        _ => {}
    }
    push_words(line, words, value)?;
    line.push_str("\n")
}

/// Adds the line of a FILE that is packed by its name.
pub(crate) fn push_packed(line: &mut String, file: &str) -> Result<(), AllocError> {
    push_place(line, file, &Position::first())?;
    line.push_str("refused: packed; gunzip -c or unzip -p unpacks it\n")
}
