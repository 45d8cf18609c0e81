//! The options of a command line, which stand before its files.

ghost use Rattle.std.specs.Prelude.{◌≡◌, ◌↔◌, ◌++◌, if◌then◌else◌, ◌∷◌, ℕ, List, Bool, is_some, map, Some, None, IsTrue, All, MatchOption, string_bytes};
ghost use Rattle.std.specs.Option.{option_copied};
ghost use Rattle.guard_words.specs.declared.options.OptionName.{OptionName};
ghost use Rattle.guard_words.specs.Words.{IsFileName, Setting, AreArranged, word_of, same_option};
ghost use Rattle.guard_words.specs.Arranged.{value_in, BeginsWith, AreOptions};

/// The name of an option.
#[derive(Clone, Copy, Debug)]
pub(crate) enum OptionName {
    Base,
    Room,
    Entry,
    Argument,
    Steps,
    Skip,
    Seed,
}

/// The values of the options that are there.
#[derive(Clone, Copy, Debug)]
pub(crate) struct Options<'a> {
    pub base: Option<&'a str>,
    pub room: Option<&'a str>,
    pub entry: Option<&'a str>,
    pub argument: Option<&'a str>,
    pub steps: Option<&'a str>,
    pub skip: Option<&'a str>,
    pub seed: Option<&'a str>,
}

/// No options.
fn no_options<'a>() -> Options<'a>
    ensures { (name : OptionName) → value_in result name ≡ None }
{
    Options {
        base: None,
        room: None,
        entry: None,
        argument: None,
        steps: None,
        skip: None,
        seed: None,
    }
}

/// Whether an option is there.
fn is_given(options: &Options<'_>, name: OptionName) -> bool
    ensures { result ≡ is_some (value_in options.now name) }
{
    match name {
        OptionName::Base => options.base.is_some(),
        OptionName::Room => options.room.is_some(),
        OptionName::Entry => options.entry.is_some(),
        OptionName::Argument => options.argument.is_some(),
        OptionName::Steps => options.steps.is_some(),
        OptionName::Skip => options.skip.is_some(),
        OptionName::Seed => options.seed.is_some(),
    }
}

/// The options with one more.
fn with_option<'a>(options: &Options<'a>, name: OptionName, value: &'a str) -> Options<'a>
    ensures { (other : OptionName) → value_in result other ≡ (if same_option name other then Some value.now else value_in options.now other) }
{
    let mut more = *options;
    match name {
        OptionName::Base => more.base = Some(value),
        OptionName::Room => more.room = Some(value),
        OptionName::Entry => more.entry = Some(value),
        OptionName::Argument => more.argument = Some(value),
        OptionName::Steps => more.steps = Some(value),
        OptionName::Skip => more.skip = Some(value),
        OptionName::Seed => more.seed = Some(value),
    }
    more
}

/// The option of this word.
fn option_of(word: &str) -> Option<OptionName>
    ensures { MatchOption result ((name : OptionName) → word.now ≡ word_of name → ⊥) (λ name. word.now ≡ word_of name) }
{
    if word == "--base" {
        Some(OptionName::Base)
    } else if word == "--room" {
        Some(OptionName::Room)
    } else if word == "--entry" {
        Some(OptionName::Entry)
    } else if word == "--arg" {
        Some(OptionName::Argument)
    } else if word == "--steps" {
        Some(OptionName::Steps)
    } else if word == "--skip" {
        Some(OptionName::Skip)
    } else if word == "--seed" {
        Some(OptionName::Seed)
    } else {
        None
    }
}

/// An option at the front of words, and the words behind it.
#[derive(Clone, Copy, Debug)]
struct Front<'a> {
    name: OptionName,
    value: &'a str,
    rest: &'a [String],
}

/// The option that words begin with.
fn front_of<'a>(words: &'a [String]) -> Option<Front<'a>>
    ensures { MatchOption result ((s : Setting) (rest : List (List ℕ)) → BeginsWith (map string_bytes words.now) s rest → ⊥)
        (λ f. (joined : Bool) × BeginsWith (map string_bytes words.now) (record { name = f.name; value = f.value.now; joined = joined }) (map string_bytes f.rest.now)) }
{
    let (word, rest) = words.split_first()?;
    match word.as_str().split_once('=') {
        Some((name, value)) => joined_front(name, value, rest),
        None => parted_front(word.as_str(), rest),
    }
}

/// An option with its value in one word.
fn joined_front<'a>(name: &str, value: &'a str, rest: &'a [String]) -> Option<Front<'a>>
    ensures { MatchOption result ((n : OptionName) → name.now ≡ word_of n → IsFileName value.now → ⊥)
        (λ f. (name.now ≡ word_of f.name) × (f.value.now ≡ value.now) × IsFileName f.value.now × (map string_bytes f.rest.now ≡ map string_bytes rest.now)) }
{
    let name = option_of(name)?;
    if is_value(value) {
        Some(Front { name, value, rest })
    } else {
        None
    }
}

/// An option with its value in the next word.
fn parted_front<'a>(word: &str, rest: &'a [String]) -> Option<Front<'a>>
    ensures { MatchOption result ((n : OptionName) (value : List ℕ) (behind : List (List ℕ)) → word.now ≡ word_of n → map string_bytes rest.now ≡ value ∷ behind → IsFileName value → ⊥)
        (λ f. (word.now ≡ word_of f.name) × (map string_bytes rest.now ≡ f.value.now ∷ map string_bytes f.rest.now) × IsFileName f.value.now) }
{
    let name = option_of(word)?;
    let (value, rest) = rest.split_first()?;
    let value = value.as_str();
    if is_value(value) {
        Some(Front { name, value, rest })
    } else {
        None
    }
}

/// Options, and the files behind them.
#[derive(Clone, Copy, Debug)]
pub(crate) struct Arranged<'a> {
    pub options: Options<'a>,
    pub files: &'a [String],
}

/// The options and files that words are.
pub(crate) fn arrange<'a>(words: &'a [String]) -> Option<Arranged<'a>>
    ensures { MatchOption result ((settings : List Setting) (files : List (List ℕ)) → AreArranged (map string_bytes words.now) settings files → ⊥)
        (λ a. (settings : List Setting) × AreArranged (map string_bytes words.now) settings (map string_bytes a.files.now) × AreOptions a.options settings) }
{
    let mut options = no_options();
    let mut rest = words;
    'fronts: while let Some(front) = front_of(rest) {
        if is_given(&options, front.name) {
            return None;
        }
        options = with_option(&options, front.name, front.value);
        rest = front.rest;
    }
    if are_file_names(rest) {
        Some(Arranged {
            options,
            files: rest,
        })
    } else {
        None
    }
}

/// Whether each of these may be a file's name.
pub(crate) fn are_file_names(names: &[String]) -> bool
    ensures { IsTrue result ↔ All (λ name. IsFileName (string_bytes name)) names.now }
{
    names.iter().all(is_file_name)
}

/// Whether a file may have this name.
fn is_file_name(name: &String) -> bool
    ensures { IsTrue result ↔ IsFileName (string_bytes name.now) }
{
    is_value(name.as_str())
}

/// Whether a text may be a value or a file's name: it is not empty, and does not begin as an option does.
fn is_value(text: &str) -> bool
    ensures { IsTrue result ↔ IsFileName text.now }
{
    match text.as_bytes().first() {
        Some(first) => *first != b'-',
        None => false,
    }
}
