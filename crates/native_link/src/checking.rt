//! What the modules of an image ask of its other parts.

ghost use Rattle.beam_code.specs.Function.{all_functions};
ghost use Rattle.native_link.specs.Checking.{all_constants_checked, asked, atom_count_offset, before_atoms, before_descriptors, before_natives, before_roots, checking, constants_checked, first_descriptor_offset, is_foreign, native_offset, none_wrong, root_count_offset, root_offset, wrong_descriptor, wrong_root};
ghost use Rattle.image_format.specs.Cursor.{Gives};
ghost use Rattle.image_format.specs.Fitting.{IsFitting, IsSized};
ghost use Rattle.image_format.specs.Spelling.{text, spelling};
ghost use Rattle.image_format.specs.declared.limits.TheConstants.{MOST_ATOMS, MOST_IMAGE_BYTES};
ghost use Rattle.ir_code.specs.Known.{knows_all};
ghost use Rattle.ir_code.specs.Laying.{literals_in};
ghost use Rattle.ir_code.specs.Shown.{shown};
ghost use Rattle.word_terms.specs.Literals.{literal_store};
ghost use Rattle.std.specs.List.{flat_map};
ghost use Rattle.std.specs.Prelude.{◌≡◌, ◌+◌, ◌<◌, ◌≤◌, IfSome, length, position, nat_eq};

use crate::places::{Frames, costs_of};
use beam_check::Checked;
use image_format::{Flaw, FormatRefusal, Native, Parts, padding_of};
use ir_code::{Mention, are_known, mentions};
use sqlite_items::Items;
use std::alloc::{AllocError, Global};
use tagged_words::{Atoms, has_first_atoms};
use term_tree::Name;
use word_terms::{LiteralWords, stands_for};

/// How many bytes texts take in an image.
fn size_of_texts(texts: &[Items<u8>]) -> usize
    requires { length (flat_map text texts.now) ≤ MOST_IMAGE_BYTES }
    ensures { result ≡ length (flat_map text texts.now) }
{
    let mut size = 0;
    for bytes in texts {
        let len = bytes.len();
        size += 4 + len + padding_of(len);
    }
    size
}

/// How many bytes atoms take in an image.
fn size_of_names(names: &[Name]) -> usize
    requires { length (flat_map text names.now) ≤ MOST_IMAGE_BYTES }
    ensures { result ≡ length (flat_map text names.now) }
{
    let mut size = 0;
    for name in names {
        let len = name.as_str().len();
        size += 4 + len + padding_of(len);
    }
    size
}

/// How many bytes stand before the count of the atoms.
fn bytes_before_atoms(parts: &Parts) -> usize
    requires { length (spelling parts.now) ≤ MOST_IMAGE_BYTES }
    ensures is { result ≡ length (before_atoms parts.now) }
    ensures within { result + 4 ≤ MOST_IMAGE_BYTES }
{
    12 + size_of_texts(parts.texts.as_slice())
}

/// How many bytes stand before the count of the roots.
fn bytes_before_roots(parts: &Parts) -> usize
    requires { length (spelling parts.now) ≤ MOST_IMAGE_BYTES }
    ensures is { result ≡ length (before_roots parts.now) }
    ensures within { result + 4 ≤ MOST_IMAGE_BYTES }
{
    let names = size_of_names(parts.atoms.as_slice());
    bytes_before_atoms(parts) + 8 + names + 4 * parts.literals.len()
}

/// How many bytes stand before the count of the native functions.
fn bytes_before_natives(parts: &Parts) -> usize
    requires { length (spelling parts.now) ≤ MOST_IMAGE_BYTES }
    ensures is { result ≡ length (before_natives parts.now) }
    ensures within { result + 4 ≤ MOST_IMAGE_BYTES }
{
    bytes_before_roots(parts) + 4 + 4 * parts.roots.len()
}

/// Where the first descriptor stands, or would.
fn offset_of_descriptors(parts: &Parts) -> usize
    requires { length (spelling parts.now) ≤ MOST_IMAGE_BYTES }
    ensures is { result ≡ first_descriptor_offset parts.now }
{
    bytes_before_natives(parts) + 12 + 12 * parts.natives.len() + 4 * parts.code.len()
}

fn offset_of_root(parts: &Parts, index: usize) -> u32
    requires size { length (spelling parts.now) ≤ MOST_IMAGE_BYTES }
    requires index { index < length parts.now.roots }
    ensures { result ≡ root_offset parts.now index }
{
    (bytes_before_roots(parts) + 4 + 4 * index) as u32
}

fn offset_of_native(parts: &Parts, index: usize) -> u32
    requires size { length (spelling parts.now) ≤ MOST_IMAGE_BYTES }
    requires index { index < length parts.now.natives }
    ensures { result ≡ native_offset parts.now index }
{
    (bytes_before_natives(parts) + 4 + 12 * index) as u32
}

/// Refuses the field at an offset, unless all is well.
fn ask(holds: bool, offset: u32) -> Result<(), FormatRefusal>
    ensures { Gives (λ u. u) result (asked holds offset) }
{
    if holds {
        Ok(())
    } else {
        let flaw = Flaw::Value;
        Err(FormatRefusal::Field { flaw, offset })
    }
}

fn check_atoms(table: &Atoms, mentions: &[Mention], parts: &Parts) -> Result<(), FormatRefusal>
    requires size { length (spelling parts.now) ≤ MOST_IMAGE_BYTES }
    ensures { Gives (λ u. u) result (asked (knows_all table.now (shown mentions.now)) (atom_count_offset parts.now)) }
{
    ask(are_known(table, mentions), bytes_before_atoms(parts) as u32)
}

/// How many of the mentions are literals.
fn count_literals(mentions: &[Mention]) -> usize
    ensures { result ≡ length (literals_in mentions.now) }
{
    let mut count = 0;
    for mention in mentions {
        if let Mention::Literal(_) = mention {
            count += 1;
        }
    }
    count
}

fn check_root_count(mentions: &[Mention], parts: &Parts) -> Result<(), FormatRefusal>
    requires size { length (spelling parts.now) ≤ MOST_IMAGE_BYTES }
    ensures { Gives (λ u. u) result (asked (nat_eq (length parts.now.roots) (length (literals_in mentions.now))) (root_count_offset parts.now)) }
{
    let as_many = parts.roots.len() == count_literals(mentions);
    ask(as_many, bytes_before_roots(parts) as u32)
}

/// The first root that does not stand for its literal.
fn first_wrong_root(
    literals: &[u32],
    table: &Atoms,
    roots: &[u32],
    mentions: &[Mention],
) -> Option<usize>
    requires { length roots.now ≡ length (literals_in mentions.now) }
    ensures is { result ≡ wrong_root (literal_store literals.now) table.now 0 roots.now (literals_in mentions.now) }
    ensures within { IfSome result (λ i. i < length roots.now) }
{
    let words = LiteralWords::new(literals);
    let mut index = 0;
    for mention in mentions {
        if let Mention::Literal(term) = mention {
            if !stands_for(&words, table, roots[index], term) {
                return Some(index);
            }
            index += 1;
        }
    }
    None
}

fn check_roots(table: &Atoms, mentions: &[Mention], parts: &Parts) -> Result<(), FormatRefusal>
    requires size { length (spelling parts.now) ≤ MOST_IMAGE_BYTES }
    requires count { length parts.now.roots ≡ length (literals_in mentions.now) }
    ensures { Gives (λ u. u) result (none_wrong (root_offset parts.now) (wrong_root (literal_store parts.now.literals) table.now 0 parts.now.roots (literals_in mentions.now))) }
{
    let literals = parts.literals.as_slice();
    match first_wrong_root(literals, table, parts.roots.as_slice(), mentions) {
        None => Ok(()),
        Some(index) => ask(false, offset_of_root(parts, index)),
    }
}

/// Looks at the atoms that are mentioned, and then at the roots.
fn check_constants(table: &Atoms, mentions: &[Mention], parts: &Parts) -> Result<(), FormatRefusal>
    requires size { length (spelling parts.now) ≤ MOST_IMAGE_BYTES }
    ensures { Gives (λ u. u) result (constants_checked parts.now table.now (shown mentions.now)) }
{
    check_atoms(table, mentions, parts)?;
    check_root_count(mentions, parts)?;
    check_roots(table, mentions, parts)
}

/// Looks at the first atoms, at those that are mentioned, and then at the roots.
fn check_constants_of(alloc: Global, parts: &Parts, checked: &Checked) -> Result<(), FormatRefusal>
    requires fitting { IsFitting parts.now }
    requires size { length (spelling parts.now) ≤ MOST_IMAGE_BYTES }
    ensures { Gives (λ u. u) result (all_constants_checked parts.now checked.now) }
{
    if !has_first_atoms(parts.atoms.as_slice()) {
        return ask(false, bytes_before_atoms(parts) as u32);
    }
    let table = Atoms::of(alloc, parts.atoms.as_slice())?;
    let mentions = mentions(alloc, checked.modules())?;
    check_constants(&table, mentions.as_slice(), parts)
}

fn first_foreign(natives: &[Native], functions: u32) -> Option<usize>
    ensures { result ≡ position (is_foreign functions) natives.now }
{
    natives.iter().position(|native| native.fid >= functions)
}

fn check_natives(parts: &Parts, checked: &Checked) -> Result<(), FormatRefusal>
    requires size { length (spelling parts.now) ≤ MOST_IMAGE_BYTES }
    ensures { Gives (λ u. u) result (none_wrong (native_offset parts.now) (position (is_foreign (length (all_functions checked.now))) parts.now.natives)) }
{
    match first_foreign(parts.natives.as_slice(), checked.functions()) {
        None => Ok(()),
        Some(index) => ask(false, offset_of_native(parts, index)),
    }
}

fn check_descriptors(alloc: Global, parts: &Parts, checked: &Checked) -> Result<(), FormatRefusal>
    requires fitting { IsFitting parts.now }
    requires size { length (spelling parts.now) ≤ MOST_IMAGE_BYTES }
    ensures { Gives (λ u. u) result (none_wrong (λ offset. offset) (wrong_descriptor parts.now.natives checked.now (first_descriptor_offset parts.now) parts.now.descriptors)) }
{
    let costs = costs_of(alloc, checked)?;
    let frames = Frames {
        natives: parts.natives.as_slice(),
        checked,
        costs: costs.as_slice(),
    };
    match frames.wrong_descriptor(offset_of_descriptors(parts), parts.descriptors.as_slice()) {
        None => Ok(()),
        Some(offset) => ask(false, offset),
    }
}

/// Looks at the atoms, the roots, the native functions and the descriptors, in this order.
pub(crate) fn check_modules(
    alloc: Global,
    parts: &Parts,
    checked: &Checked,
) -> Result<(), FormatRefusal>
    requires fitting { IsFitting parts.now }
    requires size { length (spelling parts.now) ≤ MOST_IMAGE_BYTES }
    ensures { Gives (λ u. u) result (checking parts.now checked.now) }
{
    check_constants_of(alloc, parts, checked)?;
    check_natives(parts, checked)?;
    check_descriptors(alloc, parts, checked)
}
