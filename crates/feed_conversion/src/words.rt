//! The elements of a message that count.

use feed_mapping::{desk_vocabulary, terms_vocabulary};
use feed_outline::Vocabulary;

/// Which elements count.
pub trait Words {
    ghost use Rattle.std.specs.Prelude.{◌≡◌, List};
    ghost use Rattle.feed_outline.specs.Names.{Word};
    ghost use Rattle.feed_outline.specs.Views.{vocabulary_view};

    /// The elements that count.
    ghost words: { List Word };

    /// The elements that count.
    fn vocabulary() -> Vocabulary
        ensures { vocabulary_view result ≡ words };
}

/// The elements that say something to the desk.
#[derive(Drop)]
pub struct DeskWords;

impl Words for DeskWords {
    ghost use Rattle.feed_mapping.specs.Vocabulary.{desk_vocabulary};

    ghost words = { desk_vocabulary };

    fn vocabulary() -> Vocabulary {
        desk_vocabulary()
    }
}

/// The same, and those that say something to the terms of the shop.
#[derive(Drop)]
pub struct TermsWords;

impl Words for TermsWords {
    ghost use Rattle.feed_mapping.specs.Vocabulary.{terms_vocabulary};

    ghost words = { terms_vocabulary };

    fn vocabulary() -> Vocabulary {
        terms_vocabulary()
    }
}
