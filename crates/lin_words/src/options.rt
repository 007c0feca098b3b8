//! What the options of the command line give.
ghost use Rattle.std.specs.Prelude.{◌≡◌, ◌≤◌, IfSome, option_map};
ghost use Rattle.std.specs.Char.{is_ascii_digit};
ghost use Rattle.std.specs.List.{list_all};
ghost use Rattle.clap.specs.Words.{found_of, rows_of};
ghost use Rattle.lin_words.specs.Options.{all_options, ending_named, ending_or_end, is_number, method_named, method_or_auto, number_of, number_or, options_in};

use crate::command_line::value_of;
use clap::ArgMatches;
use lin_driver::{Ending, Method};

/// What the options give, each by its value or by its default.
#[derive(Clone, Copy, Debug, PartialEq, Eq)]
pub struct Options {
    /// How the components are encoded.
    pub method: Method,
    /// The uses of equations that a rewriting has.
    pub fuel: u64,
    /// The values that are tried of a sum.
    pub bound: u64,
    /// The number from which a walk is picked.
    pub seed: u64,
    /// The steps of a walk.
    pub depth: u64,
    /// Whether the end of a process is a step.
    pub ending: Ending,
}

/// The options in the matches, where each is one.
pub fn options_of(matches: &ArgMatches<'_>) -> Option<Options>
    ensures { result ≡ options_in (rows_of (found_of matches.now)) }
{
    let method = method_given(value_of(matches, "method"));
    let fuel = number_given(value_of(matches, "fuel"), 100_000, u64::MAX);
    let bound = number_given(value_of(matches, "bound"), 16, 65_536);
    let seed = number_given(value_of(matches, "seed"), 1, u64::MAX);
    let depth = number_given(value_of(matches, "depth"), 10, 1_000_000);
    let ending = ending_given(value_of(matches, "ending"));
    all(method, fuel, bound, seed, depth, ending)
}

fn all(
    method: Option<Method>,
    fuel: Option<u64>,
    bound: Option<u64>,
    seed: Option<u64>,
    depth: Option<u64>,
    ending: Option<Ending>,
) -> Option<Options>
    ensures { result ≡ all_options method fuel bound seed depth ending }
{
    Some(Options {
        method: method?,
        fuel: fuel?,
        bound: bound?,
        seed: seed?,
        depth: depth?,
        ending: ending?,
    })
}

fn method_given(word: Option<&str>) -> Option<Method>
    ensures { result ≡ method_or_auto (option_map (λ s. s.now) word.entry) }
{
    match word {
        Some(word) => method_of(word),
        None => Some(Method::Auto),
    }
}

fn method_of(word: &str) -> Option<Method>
    ensures { result ≡ method_named word.now }
{
    match word {
        "auto" => Some(Method::Auto),
        "regular" => Some(Method::Regular),
        "stack" => Some(Method::Stack),
        _ => None,
    }
}

fn ending_given(word: Option<&str>) -> Option<Ending>
    ensures { result ≡ ending_or_end (option_map (λ s. s.now) word.entry) }
{
    match word {
        Some(word) => ending_of(word),
        None => Some(Ending::End),
    }
}

fn ending_of(word: &str) -> Option<Ending>
    ensures { result ≡ ending_named word.now }
{
    match word {
        "end" => Some(Ending::End),
        "terminate" => Some(Ending::Terminate),
        _ => None,
    }
}

fn number_given(text: Option<&str>, default: u64, greatest: u64) -> Option<u64>
    ensures { result ≡ number_or default greatest (option_map (λ s. s.now) text.entry) }
{
    match text {
        Some(text) => number(text, greatest),
        None => Some(default),
    }
}

/// The number that a text is, where it is one up to the greatest: digits alone, without leading zeros.
pub fn number(text: &str, greatest: u64) -> Option<u64>
    ensures value { result ≡ number_of greatest text.now }
    ensures within { IfSome result (λ n. n ≤ greatest) }
{
    if !is_plain_number(text.as_bytes()) {
        return None;
    }
    match text.parse::<u64>() {
        Ok(n) if n <= greatest => Some(n),
        _ => None,
    }
}

fn is_plain_number(bytes: &[u8]) -> bool
    ensures { result ≡ is_number bytes.now }
{
    match bytes {
        [] => false,
        [first, rest @ ..] => all_digits(bytes) && (*first != b'0' || rest.is_empty()),
    }
}

fn all_digits(bytes: &[u8]) -> bool
    ensures { result ≡ list_all is_ascii_digit bytes.now }
{
    bytes.iter().all(|b| b.is_ascii_digit())
}
