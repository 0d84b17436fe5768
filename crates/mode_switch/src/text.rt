//! The printed line of an outcome.

ghost use Rattle.mode_switch.specs.Text as says;
ghost use Rattle.std.specs.Fmt.{digit_glyph};
ghost use Rattle.std.specs.Prelude.{◌≡◌, ◌<◌, ◌∷◌, ◌++◌, [], true, IfOk, OnOk, codes, length, string_bytes};
ghost use Rattle.tagged_words.specs.Store.{words_in};
ghost use Rattle.term_tree.specs.Text.{text_of};
ghost use Rattle.term_tree.specs.Tree as t;
ghost use Rattle.word_walks.specs.Texts.{spelling_of};

use crate::outcome::{End, FaultKind, Outcome};
use beam_code::RaiseClass;
use std::alloc::{AllocError, Global};
use std::fmt::Write;
use tagged_words::{Atoms, Words};
use term_tree::name_text;
use word_walks::{Scratch, WordText, word_text};

/// A term of more nodes than this is printed as three dots.
pub const MOST_PRINTED: u32 = 1_000_000;
/// The status of a value.
pub const VALUE_STATUS: u8 = 0;
/// The status of an exception.
pub const RAISE_STATUS: u8 = 1;
/// The status of an end.
pub const END_STATUS: u8 = 2;
/// The status of what is not printed yet.
pub const NOT_BUILT_STATUS: u8 = 11;

/// The digit of a number below 16.
fn digit(number: u32) -> &'static str
    requires { number < 16 }
    ensures { result.now ≡ digit_glyph true number ∷ [] }
{
    match number {
        0 => "0",
        1 => "1",
        2 => "2",
        3 => "3",
        4 => "4",
        5 => "5",
        6 => "6",
        7 => "7",
        8 => "8",
        9 => "9",
        10 => "A",
        11 => "B",
        12 => "C",
        13 => "D",
        14 => "E",
        _ => "F",
    }
}

fn put_byte(out: &mut String, byte: u32) -> Result<(), AllocError>
    requires { byte < 256 }
    ensures { OnOk result (string_bytes out.new ≡ string_bytes out.old ++ says.byte_text byte) }
{
    out.push_str(digit(byte / 16))?;
    out.push_str(digit(byte % 16))
}

fn put_half(out: &mut String, half: u32) -> Result<(), AllocError>
    requires { half < 65536 }
    ensures { OnOk result (string_bytes out.new ≡ string_bytes out.old ++ says.half_text half) }
{
    put_byte(out, half / 256)?;
    put_byte(out, half % 256)
}

/// Adds the eight digits of a word.
fn put_word(out: &mut String, word: u32) -> Result<(), AllocError>
    ensures { OnOk result (string_bytes out.new ≡ string_bytes out.old ++ says.word_text word) }
{
    put_half(out, word / 65536)?;
    put_half(out, word % 65536)
}

fn kind_name(kind: FaultKind) -> &'static str
    ensures { result.now ≡ says.kind_name kind }
{
    match kind {
        FaultKind::Illegal => "illegal",
        FaultKind::Unaligned => "unaligned",
        FaultKind::Range => "range",
        FaultKind::Fetch => "fetch",
        FaultKind::Term => "term",
        FaultKind::Frame => "frame",
    }
}

/// A line of a text behind a head.
fn line_of(alloc: Global, head: &str, text: &str) -> Result<String, AllocError>
    ensures { IfOk result (λ line. string_bytes line ≡ head.now ++ text.now ++ codes "\n") }
{
    let mut line = String::from_str(alloc, head)?;
    line.push_str(text)?;
    line.push_str("\n")?;
    Ok(line)
}

/// The line of an end with this name.
fn end_line(alloc: Global, name: &str) -> Result<String, AllocError>
    ensures { IfOk result (λ line. string_bytes line ≡ codes "end " ++ name.now ++ codes "\n") }
{
    line_of(alloc, "end ", name)
}

/// The line of a fault.
fn fault_line(alloc: Global, kind: FaultKind, at: u32) -> Result<String, AllocError>
    ensures { IfOk result (λ line. string_bytes line ≡ codes "end " ++ says.machine_fault kind at ++ codes "\n") }
{
    let mut line = String::from_str(alloc, "end machine_fault ")?;
    line.push_str(kind_name(kind))?;
    line.push_str(" ")?;
    put_word(&mut line, at)?;
    line.push_str("\n")?;
    Ok(line)
}

/// Adds the atom with a number.
fn put_name(alloc: Global, line: &mut String, atoms: &Atoms, number: u32) -> Result<(), AllocError>
    requires { number < length atoms.now }
    ensures { OnOk result (string_bytes line.new ≡ string_bytes line.old ++ text_of (t.Atom (says.name_at atoms.now number))) }
{
    let text = name_text(alloc, &atoms.names()[number as usize])?;
    line.push_str(text.as_str())
}

/// The line of a call to a function that is not provided.
fn not_provided_line(
    alloc: Global,
    atoms: &Atoms,
    owner: u32,
    name: u32,
    arity: u32,
) -> Result<String, AllocError>
    requires owner { owner < length atoms.now }
    requires name { name < length atoms.now }
    ensures { IfOk result (λ line. string_bytes line ≡ codes "end " ++ says.not_provided (says.name_at atoms.now owner) (says.name_at atoms.now name) arity ++ codes "\n") }
{
    let mut line = String::from_str(alloc, "end not_provided ")?;
    put_name(alloc, &mut line, atoms, owner)?;
    line.push_str(":")?;
    put_name(alloc, &mut line, atoms, name)?;
    line.push_str("/")?;
    write!(line, "{arity}")?;
    line.push_str("\n")?;
    Ok(line)
}

/// What is said of an end that is not printed yet.
fn not_built(alloc: Global) -> (String, u8)
    ensures { (string_bytes result.0, result.1) ≡ says.not_built }
{
    (String::new(alloc), NOT_BUILT_STATUS)
}

fn end_text(alloc: Global, atoms: &Atoms, end: &End) -> Result<(String, u8), AllocError>
    requires { says.IsEndAtoms atoms.now end.now }
    ensures { IfOk result (λ t. says.end_text atoms.now end.now ≡ (string_bytes t.0, t.1)) }
{
    let line = match end {
        End::Bignum => end_line(alloc, "bignum")?,
        End::HeapFull => end_line(alloc, "heap_full")?,
        End::StackFull => end_line(alloc, "stack_full")?,
        End::OutOfReductions => end_line(alloc, "out_of_reductions")?,
        End::BadOperand => end_line(alloc, "bad_operand")?,
        End::NotProvided {
            module,
            function,
            arity,
        } => not_provided_line(alloc, atoms, *module, *function, *arity)?,
        End::MachineFault { kind, address } => fault_line(alloc, *kind, *address)?,
        End::StepsSpent => end_line(alloc, "steps_spent")?,
        End::NotBuilt { .. } => return Ok(not_built(alloc)),
    };
    Ok((line, END_STATUS))
}

/// What stands before the reason of an exception of a class.
fn raise_head(class: RaiseClass) -> &'static str
    ensures { result.now ≡ says.raise_head class }
{
    match class {
        RaiseClass::Error => "raise error ",
        RaiseClass::Exit => "raise exit ",
        RaiseClass::Throw => "raise throw ",
    }
}

/// The line of a term, given its text.
fn term_line(
    alloc: Global,
    head: &str,
    status: u8,
    text: &WordText,
) -> Result<(String, u8), AllocError>
    ensures { IfOk result (λ t. says.term_line head.now status (spelling_of text.now) ≡ (string_bytes t.0, t.1)) }
{
    match text {
        WordText::Text { text, .. } => Ok((line_of(alloc, head, text.as_str())?, status)),
        WordText::Large => Ok((line_of(alloc, head, "...")?, status)),
        WordText::NotATerm { word } => {
            Ok((fault_line(alloc, FaultKind::Term, *word)?, END_STATUS))
        }
    }
}

/// The line of the term of a word.
fn word_line<W: Words>(
    alloc: Global,
    words: &W,
    atoms: &Atoms,
    scratch: &mut Scratch,
    head: &str,
    status: u8,
    word: u32,
) -> Result<(String, u8), AllocError>
    requires room { words_in (W.store words.now) < length scratch.old }
    ensures line { IfOk result (λ t. says.IsTermLine (W.store words.now) atoms.now head.now status word (string_bytes t.0, t.1)) }
    ensures same { length scratch.new ≡ length scratch.old }
{
    let text = word_text(alloc, words, atoms, word, MOST_PRINTED, scratch)?;
    term_line(alloc, head, status, &text)
}

/// The line of an outcome, ended by a line feed, and its status; the empty text and a status of
/// its own for an end that is not built yet.
pub(crate) fn text_of_outcome<W: Words>(
    alloc: Global,
    words: &W,
    atoms: &Atoms,
    scratch: &mut Scratch,
    outcome: &Outcome,
) -> Result<(String, u8), AllocError>
    requires room { words_in (W.store words.now) < length scratch.old }
    requires atoms { says.IsAtomsOf atoms.now outcome.now }
    ensures said { IfOk result (λ t. says.IsLineIn (W.store words.now) atoms.now outcome.now (string_bytes t.0, t.1)) }
    ensures same { length scratch.new ≡ length scratch.old }
{
    match outcome {
        Outcome::Returned(word) => {
            word_line(alloc, words, atoms, scratch, "return ", VALUE_STATUS, *word)
        }
        Outcome::Raised { class, reason } => {
            let head = raise_head(*class);
            word_line(alloc, words, atoms, scratch, head, RAISE_STATUS, *reason)
        }
        Outcome::Ended(end) => end_text(alloc, atoms, end),
    }
}
