//! The options and values in the arguments of a command line.
ghost use Rattle.std.specs.Prelude.{◌≡◌, ◌∷◌, [], List, ℕ, IfOk, length, map, option_map, string_bytes, unwrap_or};
ghost use Rattle.command_lines.specs.Words.{asks_help, is_given, is_help, is_option, last_pair, last_said, pair_of, said, texts_of, values_in, values_then};

use std::alloc::{AllocError, Global};

/// The number of values of each option of a program.
pub trait Arity {
    /// The number of values of an option.
    ghost number: { List ℕ → ℕ };

    /// Returns the number of arguments after an option that are its values.
    fn number_of_values(option: &str) -> usize
        ensures { result ≡ number option.now };
}

/// A command line as a list of values in order, each with its option. The option of a positional argument is
/// the empty text.
#[derive(Drop)]
pub struct Line<'a> {
    values: Vec<(&'a str, &'a str)>,
}

impl<'a> Line<'a> {
    /// Parses the arguments. `A` gives the number of values of each option.
    ///
    /// An argument that begins with `--` is an option, unless it is the value of an option before it.
    /// `--name=value` is an option with its value. All arguments after `--` are positional.
    pub fn read<A: Arity>(alloc: Global, words: &'a [String]) -> Result<Line<'a>, AllocError>
        ensures { IfOk result (λ line. texts_of line ≡ values_in A.number [] 0 (map string_bytes words.now)) }
    {
        let mut values = Vec::new(alloc);
        let mut awaited = Awaited {
            option: "",
            number: 0,
        };
        let mut rest = words;
        while let [word, after @ ..] = rest {
            rest = after;
            if let Some(value) = read_word::<A>(&mut awaited, word.as_str(), after.len()) {
                values.push(value)?;
            }
        }
        Ok(Line { values })
    }

    /// Returns the values of `option`, in order.
    pub fn values_of(&self, alloc: Global, option: &str) -> Result<Vec<&'a str>, AllocError>
        ensures { IfOk result (λ values. map (λ v. v.now) values.items ≡ said option.now (texts_of self.now)) }
    {
        let mut values = Vec::new(alloc);
        for (of, value) in &self.values {
            if *of == option {
                values.push(*value)?;
            }
        }
        Ok(values)
    }

    /// Whether `option` is present.
    pub fn has(&self, option: &str) -> bool
        ensures { result ≡ is_given option.now (texts_of self.now) }
    {
        for (of, _value) in &self.values {
            if *of == option {
                return true;
            }
        }
        false
    }
}

/// The option that the next arguments are values of, and the number of these values.
#[derive(Drop)]
struct Awaited<'a> {
    option: &'a str,
    number: usize,
}

/// Returns the value that an argument contains, with its option. Returns `None` if the argument contains no
/// value. `after` is the number of arguments after `word`.
fn read_word<'a, A: Arity>(
    awaited: &mut Awaited<'a>,
    word: &'a str,
    after: usize,
) -> Option<(&'a str, &'a str)>
    ensures { (words : List (List ℕ)) → length words ≡ after
        → values_in A.number awaited.old.option.now awaited.old.number (word.entry.now ∷ words)
        ≡ values_then result (values_in A.number awaited.new.option.now awaited.new.number words) }
{
    if 0 < awaited.number {
        awaited.number -= 1;
        return Some((awaited.option, word));
    }
    awaited.option = "";
    if word == "--" {
        awaited.number = after;
        return None;
    }
    if !is_option(word) {
        return Some(("", word));
    }
    if let Some(value) = word.split_once('=') {
        return Some(value);
    }
    let number = A::number_of_values(word);
    if number == 0 {
        return Some((word, ""));
    }
    awaited.option = word;
    awaited.number = number;
    None
}

/// Whether an argument that is not a value is an option: whether it begins with two hyphens.
fn is_option(word: &str) -> bool
    ensures { result ≡ is_option word.now }
{
    word.as_bytes().starts_with(b"--".as_slice())
}

/// Returns the last value, or `usual` if there are none.
pub fn last_of<'a>(values: &[&'a str], usual: &'a str) -> &'a str
    ensures { result.now ≡ last_said usual.entry.now (map (λ v. v.now) values.now) }
{
    match values.last() {
        Some(value) => value,
        None => usual,
    }
}

/// Returns the last two values, or `None` if there are fewer than two.
pub fn last_pair<'a>(values: &[&'a str]) -> Option<(&'a str, &'a str)>
    ensures { option_map pair_of result ≡ last_pair (map (λ v. v.now) values.now) }
{
    match &values[values.len().saturating_sub(2)..] {
        [first, second] => Some((*first, *second)),
        _ => None,
    }
}

/// Whether any argument asks for the help or the version.
pub fn asks_help(words: &[String]) -> bool
    ensures { result ≡ asks_help (map string_bytes words.now) }
{
    for word in words {
        if is_help(word.as_str()) {
            return true;
        }
    }
    false
}

/// Whether an argument asks for the help or the version, if it is not a value. Other letters may follow `-h` or
/// `-V`.
fn is_help(word: &str) -> bool
    ensures { result ≡ is_help word.now }
{
    let bytes = word.as_bytes();
    bytes.starts_with(b"-h".as_slice())
        || bytes.starts_with(b"-V".as_slice())
        || word == "--help"
        || word == "--version"
}
