ghost use Rattle.std.specs.Prelude.{◌≡◌, ◌++◌, string_bytes, IfOk, OnOk};
ghost use Rattle.std.specs.List.{list_all, list_any, flat_map};
ghost use Rattle.std.specs.Str.{bytes_eq, chars};
ghost use Rattle.term_tree.specs.Text as spelling;

use crate::Name;
use std::alloc::{AllocError, Global};
use std::fmt::Write;

/// The reserved words of the language.
const RESERVED: [&str; 27] = [
    "after", "and", "andalso", "band", "begin", "bnot", "bor", "bsl", "bsr", "bxor", "case",
    "catch", "cond", "div", "end", "fun", "if", "let", "not", "of", "or", "orelse", "receive",
    "rem", "try", "when", "xor",
];

/// Whether a text is a reserved word.
#[tactic(auto, unfolding(crate::specs::Text::is_reserved))]
fn is_reserved(text: &str) -> bool
    ensures { result ≡ spelling.is_reserved text.now }
{
    is_among(&RESERVED, text)
}

/// Whether a text is one of these words.
fn is_among(words: &[&str], text: &str) -> bool
    ensures { result ≡ list_any (λ word. bytes_eq word.now text.now) words.now }
{
    words.iter().any(|word| *word == text)
}

/// Whether a text is a small letter and then letters, digits, `_` and `@`.
fn is_bare(text: &str) -> bool
    ensures { result ≡ spelling.is_bare text.now }
{
    match text.as_bytes() {
        [] => false,
        [first, rest @ ..] => first.is_ascii_lowercase() && are_name_bytes(rest),
    }
}

/// Whether each byte is a letter, a digit, `_` or `@`.
fn are_name_bytes(bytes: &[u8]) -> bool
    ensures { result ≡ list_all spelling.is_name_character bytes.now }
{
    bytes.iter().all(|byte| is_name_byte(*byte))
}

/// Whether a byte is a letter, a digit, `_` or `@`.
fn is_name_byte(byte: u8) -> bool
    ensures { result ≡ spelling.is_name_character byte }
{
    matches!(byte, b'a'..=b'z' | b'A'..=b'Z' | b'0'..=b'9' | b'_' | b'@')
}

/// Adds a character as it stands between the quotes of an atom.
fn put_quoted(out: &mut String, c: char) -> Result<(), AllocError>
    ensures { OnOk result (string_bytes out.new ≡ string_bytes out.old ++ spelling.quoted_character c) }
{
    match c {
        '\'' => out.push_str("\\'"),
        '\\' => out.push_str("\\\\"),
        ' '..='~' => out.push(c),
        _ => {
            let code = u32::from(c);
            write!(out, "\\x{{{code:X}}}")
        }
    }
}

/// Adds a text as it stands between the quotes of an atom.
fn put_all_quoted(out: &mut String, text: &str) -> Result<(), AllocError>
    ensures { OnOk result (string_bytes out.new ≡ string_bytes out.old ++ flat_map spelling.quoted_character (chars text.now)) }
{
    for c in text.chars() {
        put_quoted(out, c)?;
    }
    Ok(())
}

/// Adds the text of an atom.
#[tactic(auto, unfolding(crate::specs::Text::atom_text))]
pub(crate) fn put_name(out: &mut String, name: &Name) -> Result<(), AllocError>
    ensures { OnOk result (string_bytes out.new ≡ string_bytes out.old ++ spelling.atom_text name.now) }
{
    let text = name.as_str();
    if is_bare(text) && !is_reserved(text) {
        return out.push_str(text);
    }
    out.push('\'')?;
    put_all_quoted(out, text)?;
    out.push('\'')
}

/// The text of an atom: in quotes unless it is bare and no reserved word.
pub fn name_text(alloc: Global, name: &Name) -> Result<String, AllocError>
    ensures { IfOk result (λ text. string_bytes text ≡ spelling.atom_text name.now) }
{
    let mut out = String::new(alloc);
    put_name(&mut out, name)?;
    Ok(out)
}
