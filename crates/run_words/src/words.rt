//! A form of words, and the one that words are of.
ghost use Rattle.std.specs.Prelude.{◌≡◌, ◌<◌, ◌↔◌, ◌∷◌, [], map, string_bytes, decimal, IsTrue};
ghost use Rattle.run_words.specs.Forms.{areas_form, form_of, load_form, number_of};

use itoa::Buffer;

/// A form of words.
#[derive(Clone, Copy, Debug, PartialEq, Eq)]
pub enum Form {
    /// `run A B` with two names that differ.
    Run,
    /// `check A B` with two names that differ.
    Check,
    /// `gen N`, with the number N.
    Generate(u32),
    /// `load N A B` with the number N and two names that differ.
    Load(u32),
    /// `--help` alone.
    Help,
    /// `--version` alone.
    Version,
}

/// The form that the words are of, if any.
pub fn form_of(words: &[String]) -> Option<Form>
    ensures { result ≡ form_of (map string_bytes words.now) }
{
    match words {
        [word] => of_one(word.as_str()),
        [word, number] => of_two(word.as_str(), number.as_str()),
        [word, left, right] => of_three(word.as_str(), left.as_str(), right.as_str()),
        [word, number, left, right] => of_four(
            word.as_str(),
            number.as_str(),
            left.as_str(),
            right.as_str(),
        ),
        _ => None,
    }
}

fn of_one(word: &str) -> Option<Form>
    ensures { result ≡ form_of (word.now ∷ []) }
{
    if word == "--help" {
        return Some(Form::Help);
    }
    if word == "--version" {
        return Some(Form::Version);
    }
    None
}

fn of_two(word: &str, number: &str) -> Option<Form>
    ensures { result ≡ form_of (word.now ∷ number.now ∷ []) }
{
    if word == "gen" {
        return Some(Form::Generate(number_of(number)?));
    }
    None
}

/// The number that the word is in decimal: of at most nine digits, and without a leading zero but in `0` itself.
fn number_of(word: &str) -> Option<u32>
    ensures { result ≡ number_of word.now }
{
    let Ok(number) = word.parse::<u32>() else {
        return None;
    };
    if is_number(word, number) {
        Some(number)
    } else {
        None
    }
}

/// Whether the word is this number in decimal, and has at most nine digits.
fn is_number(word: &str, number: u32) -> bool
    ensures { IsTrue result ↔ ((number < 1000000000) × (word.now ≡ decimal number)) }
{
    let mut buffer = Buffer::new();
    number < 1_000_000_000 && word == buffer.format(number)
}

fn of_three(word: &str, left: &str, right: &str) -> Option<Form>
    ensures { result ≡ form_of (word.now ∷ left.now ∷ right.now ∷ []) }
{
    if left == right {
        return None;
    }
    of_areas(word)
}

/// The form of a word before the names of two areas.
fn of_areas(word: &str) -> Option<Form>
    ensures { result ≡ areas_form word.now }
{
    if word == "run" {
        return Some(Form::Run);
    }
    if word == "check" {
        return Some(Form::Check);
    }
    None
}

fn of_four(word: &str, number: &str, left: &str, right: &str) -> Option<Form>
    ensures { result ≡ form_of (word.now ∷ number.now ∷ left.now ∷ right.now ∷ []) }
{
    if left == right {
        return None;
    }
    of_load(word, number)
}

/// The form of a word and a number before the names of two areas.
fn of_load(word: &str, number: &str) -> Option<Form>
    ensures { result ≡ load_form word.now number.now }
{
    if word == "load" {
        return Some(Form::Load(number_of(number)?));
    }
    None
}
