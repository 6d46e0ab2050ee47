//! Laws of the definitions: contracts of functions that have nothing to run.

ghost use Rattle.std.specs.Prelude.{◌≡◌, ℕ, List, ◌++◌, true, Ok, Err, Option};
ghost use Rattle.feed_xml.specs.declared.stop.Stop.TheVariants.{More, Never};
ghost use Rattle.feed_xml.specs.Grammar.{Token, spelling, is_token};
ghost use Rattle.feed_xml.specs.Reading.{token_at};
ghost use Rattle.feed_xml.specs.Sections.{section_around};
ghost use Rattle.feed_xml.specs.Documents.{IsDocument};
ghost use Rattle.feed_xml.specs.Tree.{Content};
ghost use Rattle.feed_xml.specs.Trees.{IsTree};

/// What is read is spelled so, and what is spelled so is read, whatever follows, in the section in
/// which it stands, if it stands in one.
pub fn tokens_are_read()
    ensures takes { (section : Option ℕ) (bytes rest : List ℕ) (token : Token)
        → token_at section bytes ≡ Ok (token, rest)
        → (bytes ≡ spelling token ++ rest) × (is_token token ≡ true)
        × (section_around token ≡ section) }
    ensures again { (token : Token) (rest : List ℕ) → is_token token ≡ true
        → token_at (section_around token) (spelling token ++ rest) ≡ Ok (token, rest) }
    ensures never { (section : Option ℕ) (bytes more : List ℕ) → token_at section bytes ≡ Err Never
        → token_at section (bytes ++ more) ≡ Err Never }
{}

/// A text is a document in one way at most.
pub fn one_document()
    ensures { (bytes : List ℕ) (a b : List Token) → IsDocument bytes a → IsDocument bytes b
        → a ≡ b }
{}

/// The tokens of a document are those of one tree, whose content is this.
pub fn one_tree()
    ensures { (tokens : List Token) (name other : List ℕ) (a b : Content)
        → IsTree tokens name a → IsTree tokens other b → a ≡ b }
{}
