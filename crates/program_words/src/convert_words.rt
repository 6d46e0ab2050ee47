//! The words of the command `convert`.

ghost use Rattle.std.specs.Prelude.{◌≡◌, ◌≢◌, IfErr, IfOk, Some, codes, map, option_map};
ghost use Rattle.onix_terms.specs.Code.{code2_of};
ghost use Rattle.onix_terms.specs.Digits.{digits_of};
ghost use Rattle.onix_terms.specs.Number.{number_of};
ghost use Rattle.feed_mapping.specs.PartyViews.{pair_view};
ghost use Rattle.feed_conversion.specs.Views.{options_view};
ghost use Rattle.feed_conversion.specs.declared.options.Allowed.TheVariants.{FewWrong};
ghost use Rattle.program_words.specs.ConvertWords.{AreOptions, AsksFor, AsksNothing, IsOf, IsUnread, allowed_of, asked_view, files_named, has_two_numbers, identifier_of, inputs_in, is_value, word_as, word_or};
ghost use Rattle.program_words.specs.Words.{words_in};

use crate::arguments::{text_in, texts_in};
use clap::ArgMatches;
use feed_conversion::{Allowed, Options};
use feed_mapping::{Choices, Pair};
use onix_records::fields::is_clean;
use onix_terms::code::Code2;
use onix_terms::digits::read_digits;
use onix_terms::number::Number;
use program_files::STANDARD_INPUT;
use std::alloc::{AllocError, Global};

/// The type of identifier that is preferred without `--id-type`: GLN.
const GLN: &[u8] = b"06";

/// An option whose word has a rule.
#[derive(Clone, Copy, Debug, PartialEq, Eq)]
pub enum OptionName {
    Parts,
    Number,
    NumberOffset,
    Sender,
    Addressee,
    Supplier,
    IdType,
    Wrong,
}

impl OptionName {
    // The option as the help shows it, and what its word has to be.
    fn shown(self) -> (&'static str, &'static str) {
        match self {
            OptionName::Parts => ("--parts <P>", NINE_DIGITS),
            OptionName::Number => ("--number <N>", NINE_DIGITS),
            OptionName::NumberOffset => ("--number-offset <K>", NINE_DIGITS),
            OptionName::Sender => ("--sender <TYPE,VALUE>", IDENTIFIER),
            OptionName::Addressee => ("--addressee <TYPE,VALUE>", IDENTIFIER),
            OptionName::Supplier => ("--supplier <TYPE,VALUE>", IDENTIFIER),
            OptionName::IdType => ("--id-type <TT>", "two digits"),
            OptionName::Wrong => ("--wrong <none|few|all>", "none, few or all"),
        }
    }
}

const NINE_DIGITS: &str = "a number in at most 9 digits";

const IDENTIFIER: &str =
    "TYPE,VALUE with a TYPE of two digits and a VALUE of at most 1024 bytes without control characters";

/// What `convert` is asked to do.
#[derive(Drop)]
pub struct Conversion<'a> {
    /// How each message is converted: without terms, since their file is not read yet.
    pub options: Options<'a>,
    /// The folder that takes the messages, or none where they go to standard output.
    pub folder: Option<&'a str>,
    /// The file of the shop's terms, where they are given.
    pub terms: Option<&'a str>,
    pub files: Vec<&'a str>,
}

/// Why the words of `convert` are no command line.
#[derive(Drop)]
pub enum BadWords<'a> {
    /// The word of an option is not what it has to be.
    Value { option: OptionName, word: &'a str },
    /// `--number` beside `--number-offset`.
    TwoNumbers,
    /// Several FILEs without a folder.
    NoFolder,
    /// `--number` with several FILEs.
    OneNumber,
    /// Standard input is named twice.
    OneInput,
    /// Memory ran out.
    Memory,
}

impl From<AllocError> for BadWords<'_> {
    ghost use Rattle.program_words.specs.declared.convert_words.BadWords.TheVariants.{Memory};

    ghost from_gives = { λ _ bad. bad ≡ Memory };

    fn from(_: AllocError) -> Self {
        BadWords::Memory
    }
}

impl<'a> BadWords<'a> {
    ghost use Rattle.program_words.specs.declared.convert_words.BadWords.TheVariants.{Memory};

    /// What is said of it, but of memory that ran out.
    pub fn text(&self, alloc: Global) -> Result<String, AllocError>
        ensures { IfOk result (λ _. self.now ≢ Memory) }
    {
        match self {
            BadWords::Value { option, word } => {
                let (option, rule) = option.shown();
                format!(in alloc; "error: invalid value '{word}' for '{option}': not {rule}\n")
            }
            BadWords::TwoNumbers => {
                String::from_str(
                    alloc,
                    "error: --number and --number-offset exclude each other\n",
                )
            }
            BadWords::NoFolder => String::from_str(alloc, "error: several FILEs need -o FOLDER\n"),
            BadWords::OneNumber => {
                String::from_str(alloc, "error: --number is for one FILE alone\n")
            }
            BadWords::OneInput => {
                String::from_str(alloc, "error: - is standard input, and read once\n")
            }
            BadWords::Memory => Err(AllocError),
        }
    }
}

// The number that is given for an option, or the default.
fn number_or<'a>(
    words: &ArgMatches<'a>,
    name: &str,
    option: OptionName,
    default: u32,
) -> Result<u32, BadWords<'a>>
    ensures ok { IfOk result (λ n. word_or digits_of default (words_in words.now) name.now
        ≡ Some n) }
    ensures err { IfErr result (IsOf option (IsUnread digits_of (words_in words.now) name.now)) }
{
    let Some(word) = text_in(words, name) else {
        return Ok(default);
    };
    match read_digits(word) {
        Some(number) => Ok(number),
        None => Err(BadWords::Value { option, word }),
    }
}

// The number of the message, where it is given.
fn number_of<'a>(words: &ArgMatches<'a>) -> Result<Option<Number>, BadWords<'a>>
    ensures ok { IfOk result (λ n. word_as number_of (words_in words.now) (codes "number")
        ≡ Some n) }
    ensures err { IfErr result (IsOf OptionName.Number
        (IsUnread number_of (words_in words.now) (codes "number"))) }
{
    let Some(word) = text_in(words, "number") else {
        return Ok(None);
    };
    match Number::read(word) {
        Some(number) => Ok(Some(number)),
        None => Err(BadWords::Value {
            option: OptionName::Number,
            word,
        }),
    }
}

// Whether a text may be the value of an identifier.
fn is_value(text: &[u8]) -> bool
    ensures { result ≡ is_value text.now }
{
    !text.is_empty() && is_clean(text)
}

// The identifier that a word is.
fn identifier_of(word: &[u8]) -> Option<Pair<'_>>
    ensures { option_map pair_view result ≡ identifier_of word.now }
{
    let [first, second, comma, id_value @ ..] = word else {
        return None;
    };
    let is_type = first.is_ascii_digit() && second.is_ascii_digit();
    if is_type && *comma == b',' && is_value(id_value) {
        let id_type = &word[..2];
        Some(Pair { id_type, id_value })
    } else {
        None
    }
}

// The identifier that is given for an option.
fn pair_of<'a>(
    words: &ArgMatches<'a>,
    name: &str,
    option: OptionName,
) -> Result<Option<Pair<'a>>, BadWords<'a>>
    ensures ok { IfOk result (λ p. word_as identifier_of (words_in words.now) name.now
        ≡ Some (option_map pair_view p)) }
    ensures err { IfErr result (IsOf option
        (IsUnread identifier_of (words_in words.now) name.now)) }
{
    let Some(word) = text_in(words, name) else {
        return Ok(None);
    };
    match identifier_of(word.as_bytes()) {
        Some(pair) => Ok(Some(pair)),
        None => Err(BadWords::Value { option, word }),
    }
}

// The type of identifier that is preferred.
fn id_type_of<'a>(words: &ArgMatches<'a>) -> Result<&'a [u8], BadWords<'a>>
    ensures ok { IfOk result (λ t. word_or code2_of (codes "06") (words_in words.now)
        (codes "id-type") ≡ Some t.now) }
    ensures err { IfErr result (IsOf OptionName.IdType
        (IsUnread code2_of (words_in words.now) (codes "id-type"))) }
{
    let Some(word) = text_in(words, "id-type") else {
        return Ok(GLN);
    };
    match Code2::read(word) {
        Some(_) => Ok(word.as_bytes()),
        None => Err(BadWords::Value {
            option: OptionName::IdType,
            word,
        }),
    }
}

// Of how many wrong products a message is taken, by its word.
fn allowed_of(word: &str) -> Option<Allowed>
    ensures { result ≡ allowed_of word.now }
{
    match word {
        "none" => Some(Allowed::NoWrong),
        "few" => Some(Allowed::FewWrong),
        "all" => Some(Allowed::AllWrong),
        _ => None,
    }
}

// Of how many wrong products a message is taken.
fn wrong_of<'a>(words: &ArgMatches<'a>) -> Result<Allowed, BadWords<'a>>
    ensures ok { IfOk result (λ a. word_or allowed_of FewWrong (words_in words.now)
        (codes "wrong") ≡ Some a) }
    ensures err { IfErr result (IsOf OptionName.Wrong
        (IsUnread allowed_of (words_in words.now) (codes "wrong"))) }
{
    let Some(word) = text_in(words, "wrong") else {
        return Ok(Allowed::FewWrong);
    };
    match allowed_of(word) {
        Some(allowed) => Ok(allowed),
        None => Err(BadWords::Value {
            option: OptionName::Wrong,
            word,
        }),
    }
}

// The files that are named, or standard input where none is.
fn files_of<'a>(alloc: Global, words: &ArgMatches<'a>) -> Result<Vec<&'a str>, AllocError>
    ensures { IfOk result (λ files. map (λ name. name.now) files.items
        ≡ files_named (words_in words.now)) }
{
    match texts_in(words, "file") {
        Some(files) => files.to_vec(alloc),
        None => {
            let mut files = Vec::new(alloc);
            files.push(STANDARD_INPUT)?;
            Ok(files)
        }
    }
}

// How many of the FILEs are standard input.
fn inputs_in(files: &[&str]) -> usize
    ensures { result ≡ inputs_in (map (λ name. name.now) files.now) }
{
    let mut count = 0;
    for file in files {
        if *file == STANDARD_INPUT {
            count += 1;
        }
    }
    count
}

// How each message is converted.
fn options_of<'a>(words: &ArgMatches<'a>) -> Result<Options<'a>, BadWords<'a>>
    ensures ok { IfOk result (λ o. AreOptions (words_in words.now) (options_view o)) }
    ensures err { IfErr result (AsksNothing (words_in words.now)) }
{
    let parts = number_or(words, "parts", OptionName::Parts, 1)?;
    let number = number_of(words)?;
    let offset = number_or(words, "number-offset", OptionName::NumberOffset, 0)?;
    let sender = pair_of(words, "sender", OptionName::Sender)?;
    let addressee = pair_of(words, "addressee", OptionName::Addressee)?;
    let supplier = pair_of(words, "supplier", OptionName::Supplier)?;
    let id_type = id_type_of(words)?;
    let wrong = wrong_of(words)?;
    let choices = Choices {
        parts,
        number,
        offset,
        sender,
        addressee,
        supplier,
        id_type,
    };
    let terms = None;
    Ok(Options {
        choices,
        wrong,
        terms,
    })
}

// Whether a number is given, and what is added to that of the message.
fn has_two_numbers(words: &ArgMatches<'_>) -> bool
    ensures { result ≡ has_two_numbers (words_in words.now) }
{
    text_in(words, "number").is_some() && text_in(words, "number-offset").is_some()
}

/// What words that clap let pass ask of `convert`: each is read by its rule, and what is not there has
/// its default. Of words that break their rules it tells one, and else that two numbers are named, that
/// several FILEs need a folder or have no number in common, or that standard input is named twice.
pub fn conversion_of<'a>(
    alloc: Global,
    words: &ArgMatches<'a>,
) -> Result<Conversion<'a>, BadWords<'a>>
    ensures ok { IfOk result (λ c. AsksFor (words_in words.now) (asked_view c)) }
    ensures err { IfErr result (AsksNothing (words_in words.now)) }
{
    let options = match options_of(words) {
        Ok(options) => options,
        Err(bad) => return Err(bad),
    };
    if has_two_numbers(words) {
        return Err(BadWords::TwoNumbers);
    }
    let files = files_of(alloc, words)?;
    let folder = text_in(words, "folder");
    if files.len() > 1 && folder.is_none() {
        return Err(BadWords::NoFolder);
    }
    if files.len() > 1 && options.choices.number.is_some() {
        return Err(BadWords::OneNumber);
    }
    if inputs_in(files.as_slice()) > 1 {
        return Err(BadWords::OneInput);
    }
    Ok(Conversion {
        options,
        folder,
        terms: text_in(words, "terms"),
        files,
    })
}
