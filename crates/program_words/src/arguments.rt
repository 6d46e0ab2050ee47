//! The options and operands of a command, by their names, as clap found them.

ghost use Rattle.std.specs.Prelude.{◌≡◌, map, option_map};
ghost use Rattle.program_words.specs.Words.{has_flag, text_in, texts_in, words_in};

use clap::ArgMatches;

/// The text of an option or operand, where it has one.
pub fn text_in<'a>(words: &ArgMatches<'a>, name: &str) -> Option<&'a str>
    ensures { option_map (λ text. text.now) result ≡ text_in (words_in words.now) name.now }
{
    words.get_str(name)
}

/// The texts of an operand, where it has some.
pub fn texts_in<'m, 'a>(words: &'m ArgMatches<'a>, name: &str) -> Option<&'m [&'a str]>
    ensures { option_map (λ texts. map (λ text. text.now) texts.now) result
        ≡ texts_in (words_in words.now) name.now }
{
    words.get_strs(name)
}

/// Whether an option without a text is there.
pub fn has_flag(words: &ArgMatches<'_>, name: &str) -> bool
    ensures { result ≡ has_flag (words_in words.now) name.now }
{
    match text_in(words, name) {
        Some(text) => text == "true",
        None => false,
    }
}
