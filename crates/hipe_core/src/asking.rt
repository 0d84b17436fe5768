//! What the words of a command line ask.

ghost use Rattle.asm_text.specs.Entry.{entry_of};
ghost use Rattle.hipe_core.specs.Asking.{IsAsked, number_from, three_in};
ghost use Rattle.hipe_core.specs.Words as spec;
ghost use Rattle.mode_switch.specs.Call.{IsInRange};
ghost use Rattle.std.specs.List.{list_all};
ghost use Rattle.std.specs.Option.{option_copied};
ghost use Rattle.std.specs.Prelude.{◌≡◌, ◌≤◌, map, slice_get, string_bytes, IfSome};

use asm_text::is_entry;
use beam_code::Limits;
use mode_switch::{MOST_REDUCTIONS, MOST_WORDS};

/// The beginnings of options.
const NATIVE: &[u8] = b"--native=";

const REDUCTIONS: &[u8] = b"--reductions=";

const HEAP: &[u8] = b"--heap=";

const STACK: &[u8] = b"--stack=";

/// The choice of all functions.
const ALL: &[u8] = b"all";

/// The reductions of a call that names none, and the words of its heap and of its stack.
pub const REDUCTIONS_DEFAULT: u32 = 1_000_000;

pub const WORDS_DEFAULT: u32 = 1_048_576;

/// Which functions are to be in native form.
#[derive(Clone, Copy, PartialEq, Eq, Debug)]
pub enum Chosen {
    All,
}

/// What the words of a command line ask.
pub enum Asked<'a> {
    /// Nothing that the program knows.
    Nothing,
    /// To check the files that these words name.
    Check(&'a [String]),
    /// To compile the files that those of these words name which are no options.
    Compile(Chosen, &'a [String]),
    /// To run on this image the function with this entry on these arguments, under these limits.
    Run(&'a str, &'a str, &'a str, Limits),
}

/// The words of `run` that are no options.
#[derive(Drop)]
pub struct RunWords<'a> {
    pub image: &'a str,
    pub entry: &'a str,
    pub args: &'a str,
}

/// What stands behind the beginning of a word, where it begins so.
fn behind<'a>(front: &[u8], word: &'a [u8]) -> Option<&'a [u8]>
    ensures { option_copied result ≡ spec.behind front.now word.now }
{
    word.strip_prefix(front)
}

pub fn is_option(word: &[u8]) -> bool
    ensures { result ≡ spec.is_option word.now }
{
    behind(b"--", word).is_some()
}

/// A word that is no option, by its place among them.
pub fn other(words: &[String], place: usize) -> Option<&str>
    ensures { option_copied result ≡ slice_get (spec.others (map string_bytes words.now)) place }
{
    let mut skip = place;
    let mut left = words;
    while let Some((first, more)) = left.split_first() {
        let word = first.as_str();
        if !is_option(word.as_bytes()) {
            if skip == 0 {
                return Some(word);
            }
            skip -= 1;
        }
        left = more;
    }
    None
}

/// A value of an option, by its place among them.
fn value<'a>(option: &[u8], words: &'a [String], place: usize) -> Option<&'a [u8]>
    ensures { option_copied result ≡ slice_get (spec.values option.now (map string_bytes words.now)) place }
{
    let mut skip = place;
    let mut left = words;
    while let Some((first, more)) = left.split_first() {
        if let Some(value) = behind(option, first.as_str().as_bytes()) {
            if skip == 0 {
                return Some(value);
            }
            skip -= 1;
        }
        left = more;
    }
    None
}

/// Whether a word is none that `compile` does not have.
fn fits_compile(word: &[u8]) -> bool
    ensures { result ≡ spec.fits_compile word.now }
{
    if is_option(word) {
        behind(NATIVE, word).is_some()
    } else {
        true
    }
}

/// Whether a word is none that `run` does not have.
fn fits_run(word: &[u8]) -> bool
    ensures { result ≡ spec.fits_run word.now }
{
    if is_option(word) {
        behind(REDUCTIONS, word).is_some()
            || behind(HEAP, word).is_some()
            || behind(STACK, word).is_some()
    } else {
        true
    }
}

fn all_fit_check(words: &[String]) -> bool
    ensures { result ≡ list_all spec.fits_check (map string_bytes words.now) }
{
    for word in words {
        if is_option(word.as_str().as_bytes()) {
            return false;
        }
    }
    true
}

fn all_fit_compile(words: &[String]) -> bool
    ensures { result ≡ list_all spec.fits_compile (map string_bytes words.now) }
{
    for word in words {
        if !fits_compile(word.as_str().as_bytes()) {
            return false;
        }
    }
    true
}

fn all_fit_run(words: &[String]) -> bool
    ensures { result ≡ list_all spec.fits_run (map string_bytes words.now) }
{
    for word in words {
        if !fits_run(word.as_str().as_bytes()) {
            return false;
        }
    }
    true
}

fn is_digit(byte: u8) -> bool
    ensures { result ≡ spec.is_digit byte }
{
    byte >= b'0' && byte <= b'9'
}

/// The number that digits write, unless it passes `most` or a byte is no digit.
fn number_from(most: u32, digits: &[u8]) -> Option<u32>
    ensures number { result ≡ number_from most 0 digits.now }
    ensures within { IfSome result (λ n. n ≤ most) }
{
    let mut value = 0u64;
    let mut left = digits;
    while let Some((first, more)) = left.split_first() {
        let digit = *first;
        if !is_digit(digit) {
            return None;
        }
        let next = value * 10 + u64::from(digit - b'0');
        if next > u64::from(most) {
            return None;
        }
        value = next;
        left = more;
    }
    Some(value as u32)
}

#[tactic(auto, using(crate::proofs::Numbers::number_steps))]
fn number_in(most: u32, digits: &[u8]) -> Option<u32>
    ensures number { result ≡ spec.number_in most digits.now }
    ensures within { IfSome result (λ n. n ≤ most) }
{
    if digits.is_empty() {
        None
    } else {
        number_from(most, digits)
    }
}

/// A limit: the value of its option, or what holds without one.
fn limit(option: &[u8], default: u32, most: u32, words: &[String]) -> Option<u32>
    requires { default ≤ most }
    ensures limit { result ≡ spec.limit default most (spec.values option.now (map string_bytes words.now)) }
    ensures within { IfSome result (λ n. n ≤ most) }
{
    let Some(digits) = value(option, words, 0) else {
        return Some(default);
    };
    match value(option, words, 1) {
        None => number_in(most, digits),
        Some(_) => None,
    }
}

fn limits_of(words: &[String]) -> Option<Limits>
    ensures limits { result ≡ spec.limits_of (map string_bytes words.now) }
    ensures within { IfSome result IsInRange }
{
    let reductions = limit(REDUCTIONS, REDUCTIONS_DEFAULT, MOST_REDUCTIONS, words)?;
    let heap = limit(HEAP, WORDS_DEFAULT, MOST_WORDS, words)?;
    let stack = limit(STACK, WORDS_DEFAULT, MOST_WORDS, words)?;
    Some(Limits {
        reductions,
        heap,
        stack,
    })
}

/// The three words that are no options, where there are just three.
fn three(words: &[String]) -> Option<RunWords<'_>>
    ensures { three_in result ≡ spec.three_of (spec.others (map string_bytes words.now)) }
{
    let image = other(words, 0)?;
    let entry = other(words, 1)?;
    let args = other(words, 2)?;
    match other(words, 3) {
        None => Some(RunWords { image, entry, args }),
        Some(_) => None,
    }
}

/// The value of an option that stands once.
fn once<'a>(option: &[u8], words: &'a [String]) -> Option<&'a [u8]>
    ensures { option_copied result ≡ spec.only_of (spec.values option.now (map string_bytes words.now)) }
{
    let first = value(option, words, 0)?;
    match value(option, words, 1) {
        None => Some(first),
        Some(_) => None,
    }
}

fn ask_check(words: &[String]) -> Asked<'_>
    ensures { IsAsked result (spec.check_of (map string_bytes words.now)) }
{
    if !all_fit_check(words) {
        return Asked::Nothing;
    }
    match other(words, 0) {
        None => Asked::Nothing,
        Some(_) => Asked::Check(words),
    }
}

fn ask_compile(words: &[String]) -> Asked<'_>
    ensures { IsAsked result (spec.compile_of (map string_bytes words.now)) }
{
    if !all_fit_compile(words) {
        return Asked::Nothing;
    }
    let Some(choice) = once(NATIVE, words) else {
        return Asked::Nothing;
    };
    match other(words, 0) {
        None => Asked::Nothing,
        Some(_) => {
            if choice == ALL {
                Asked::Compile(Chosen::All, words)
            } else {
                Asked::Nothing
            }
        }
    }
}

fn ask_run(words: &[String]) -> Asked<'_>
    ensures { IsAsked result (spec.run_of (map string_bytes words.now)) }
{
    if !all_fit_run(words) {
        return Asked::Nothing;
    }
    let Some(limits) = limits_of(words) else {
        return Asked::Nothing;
    };
    let Some(run) = three(words) else {
        return Asked::Nothing;
    };
    if is_entry(run.entry.as_bytes()) {
        Asked::Run(run.image, run.entry, run.args, limits)
    } else {
        Asked::Nothing
    }
}

/// What the words ask.
pub fn ask(words: &[String]) -> Asked<'_>
    ensures { IsAsked result (spec.asked (map string_bytes words.now)) }
{
    match words.split_first() {
        None => Asked::Nothing,
        Some((command, words)) => {
            if command.as_str() == "check" {
                ask_check(words)
            } else if command.as_str() == "compile" {
                ask_compile(words)
            } else if command.as_str() == "run" {
                ask_run(words)
            } else {
                Asked::Nothing
            }
        }
    }
}
