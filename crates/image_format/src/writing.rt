ghost use Rattle.beam_code.specs.declared.module.HandlerKind.{HandlerKind};
ghost use Rattle.image_format.specs.Fitting.{IsFitting, IsWord, IsName, IsSizedNative, IsSizedDescriptor, IsSized};
ghost use Rattle.image_format.specs.Mask.{has, word_of, mask};
ghost use Rattle.image_format.specs.Reading.{reading};
ghost use Rattle.image_format.specs.Spelling.{word, padding, text, counted, native, descriptor, kind_number, spelling, Puts, PutsAll};
ghost use Rattle.image_format.specs.declared.limits.TheConstants.{MOST_FRAME};
ghost use Rattle.std.specs.List.{flat_map};
ghost use Rattle.std.specs.Prelude.{◌≡◌, ◌+◌, ◌<◌, ◌≤◌, ◌^◌, ◌++◌, ℕ, All, length, replicate, Ok, OnOk, IfOk};

use crate::{Descriptor, MAGIC, Native, Parts, VERSION};
use beam_code::HandlerKind;
use byteorder::{BigEndian, ByteOrder};
use sqlite_items::Items;
use std::alloc::{AllocError, Global};
use term_tree::Name;

#[tactic(auto, unfolding(crate::specs::Spelling::word))]
fn put_word(out: &mut Vec<u8>, number: u32) -> Result<(), AllocError>
    ensures { OnOk result (Puts word IsWord number out.old.items out.new.items) }
{
    let mut bytes = [0; 4];
    BigEndian::write_u32(&mut bytes, number);
    out.extend_from_slice(&bytes)
}

fn put_words(out: &mut Vec<u8>, numbers: &[u32]) -> Result<(), AllocError>
    ensures { OnOk result (PutsAll word IsWord numbers.now out.old.items out.new.items) }
{
    for number in numbers {
        put_word(out, *number)?;
    }
    Ok(())
}

/// Up to a multiple of four bytes.
fn put_padding(out: &mut Vec<u8>, len: usize) -> Result<(), AllocError>
    ensures { OnOk result (out.new.items ≡ out.old.items ++ replicate (padding len) 0) }
{
    match len % 4 {
        1 => out.extend_from_slice(&[0, 0, 0]),
        2 => out.extend_from_slice(&[0, 0]),
        3 => out.extend_from_slice(&[0]),
        _ => Ok(()),
    }
}

fn put_text(out: &mut Vec<u8>, bytes: &[u8]) -> Result<(), AllocError>
    requires { length bytes.now < 2 ^ 32 }
    ensures { OnOk result (out.new.items ≡ out.old.items ++ text bytes.now) }
{
    put_word(out, bytes.len() as u32)?;
    out.extend_from_slice(bytes)?;
    put_padding(out, bytes.len())?;
    Ok(())
}

fn put_texts(out: &mut Vec<u8>, texts: &[Items<u8>]) -> Result<(), AllocError>
    requires { All (λ t. length t < 2 ^ 32) texts.now }
    ensures { OnOk result (out.new.items ≡ out.old.items ++ flat_map text texts.now) }
{
    for bytes in texts {
        put_text(out, bytes.as_slice())?;
    }
    Ok(())
}

fn put_names(out: &mut Vec<u8>, names: &[Name]) -> Result<(), AllocError>
    ensures { OnOk result (PutsAll text IsName names.now out.old.items out.new.items) }
{
    for name in names {
        put_name(out, name)?;
    }
    Ok(())
}

fn put_name(out: &mut Vec<u8>, name: &Name) -> Result<(), AllocError>
    ensures { OnOk result (Puts text IsName name.now out.old.items out.new.items) }
{
    let text = name.as_str();
    put_text(out, text.as_bytes())?;
    Ok(())
}

fn put_native(out: &mut Vec<u8>, n: &Native) -> Result<(), AllocError>
    ensures { OnOk result (Puts native IsSizedNative n.now out.old.items out.new.items) }
{
    put_word(out, n.fid)?;
    put_word(out, n.first)?;
    put_word(out, n.count)?;
    Ok(())
}

fn put_natives(out: &mut Vec<u8>, natives: &[Native]) -> Result<(), AllocError>
    ensures { OnOk result (PutsAll native IsSizedNative natives.now out.old.items out.new.items) }
{
    for n in natives {
        put_native(out, n)?;
    }
    Ok(())
}

fn is_among(live: &[u32], slot: u32) -> bool
    ensures { result ≡ has live.now slot }
{
    live.iter().any(|other| *other == slot)
}

/// The word whose bit `j` is set where slot `first + j` is live.
fn word_of_slots(live: &[u32], first: u32) -> u32
    requires { first + 32 < 2 ^ 32 }
    ensures { result ≡ word_of (has live.now) 32 first }
{
    let mut word: u32 = 0;
    for j in 0..32 {
        let slot = first + (31 - j);
        word *= 2;
        if is_among(live, slot) {
            word += 1;
        }
    }
    word
}

fn put_mask(out: &mut Vec<u8>, frame: u32, live: &[u32]) -> Result<(), AllocError>
    requires { frame ≤ MOST_FRAME }
    ensures { OnOk result (out.new.items ≡ out.old.items ++ flat_map word (mask frame live.now)) }
{
    let words = (frame + 31) / 32;
    for k in 0..words {
        let word = word_of_slots(live, 32 * k);
        put_word(out, word)?;
    }
    Ok(())
}

fn number_of(kind: HandlerKind) -> u32
    ensures { result ≡ kind_number kind }
{
    match kind {
        HandlerKind::None => 0,
        HandlerKind::Try => 1,
        HandlerKind::Catch => 2,
    }
}

fn put_descriptor(out: &mut Vec<u8>, d: &Descriptor) -> Result<(), AllocError>
    requires { d.now.frame ≤ MOST_FRAME }
    ensures { OnOk result (Puts descriptor IsSizedDescriptor d.now out.old.items out.new.items) }
{
    put_word(out, d.ret)?;
    put_word(out, d.fid)?;
    put_word(out, d.item)?;
    put_word(out, d.frame)?;
    put_word(out, number_of(d.kind))?;
    put_word(out, d.handler)?;
    put_mask(out, d.frame, d.live.as_slice())?;
    Ok(())
}

fn put_descriptors(out: &mut Vec<u8>, descriptors: &[Descriptor]) -> Result<(), AllocError>
    requires { All (λ d. d.frame ≤ MOST_FRAME) descriptors.now }
    ensures { OnOk result (PutsAll descriptor IsSizedDescriptor descriptors.now out.old.items out.new.items) }
{
    for d in descriptors {
        put_descriptor(out, d)?;
    }
    Ok(())
}

/// The texts, the atoms and the literals, as they stand in the image.
fn put_front(out: &mut Vec<u8>, parts: &Parts) -> Result<(), AllocError>
    requires { IsFitting parts.now }
    ensures put { OnOk result (out.new.items ≡ out.old.items ++ counted text parts.now.texts ++ counted text parts.now.atoms ++ counted word parts.now.literals ++ counted word parts.now.roots) }
    ensures sized { OnOk result (All IsName parts.now.atoms × All IsWord parts.now.literals × All IsWord parts.now.roots) }
{
    put_word(out, parts.texts.len() as u32)?;
    put_texts(out, parts.texts.as_slice())?;
    put_word(out, parts.atoms.len() as u32)?;
    put_names(out, parts.atoms.as_slice())?;
    put_word(out, parts.literals.len() as u32)?;
    put_words(out, parts.literals.as_slice())?;
    put_word(out, parts.roots.len() as u32)?;
    put_words(out, parts.roots.as_slice())?;
    Ok(())
}

/// The native functions, their code and the descriptors, as they stand in the image.
fn put_back(out: &mut Vec<u8>, parts: &Parts) -> Result<(), AllocError>
    requires { IsFitting parts.now }
    ensures put { OnOk result (out.new.items ≡ out.old.items ++ counted native parts.now.natives ++ counted word parts.now.code ++ counted descriptor parts.now.descriptors) }
    ensures sized { OnOk result (All IsSizedNative parts.now.natives × All IsWord parts.now.code × All IsSizedDescriptor parts.now.descriptors) }
{
    put_word(out, parts.natives.len() as u32)?;
    put_natives(out, parts.natives.as_slice())?;
    put_word(out, parts.code.len() as u32)?;
    put_words(out, parts.code.as_slice())?;
    put_word(out, parts.descriptors.len() as u32)?;
    put_descriptors(out, parts.descriptors.as_slice())?;
    Ok(())
}

fn bytes_of(alloc: Global, parts: &Parts) -> Result<Vec<u8>, AllocError>
    requires { IsFitting parts.now }
    ensures put { IfOk result (λ bytes. bytes.items ≡ spelling parts.now) }
    ensures sized { OnOk result (IsSized parts.now) }
{
    let mut out = Vec::new(alloc);
    put_word(&mut out, MAGIC)?;
    put_word(&mut out, VERSION)?;
    put_front(&mut out, parts)?;
    put_back(&mut out, parts)?;
    Ok(out)
}

/// The bytes of an image with these parts.
pub fn image_bytes(alloc: Global, parts: &Parts) -> Result<Vec<u8>, AllocError>
    requires { IsFitting parts.now }
    ensures spelled { IfOk result (λ bytes. bytes.items ≡ spelling parts.now) }
    ensures read { IfOk result (λ bytes. reading bytes.items ≡ Ok parts.now) }
    ensures sized { OnOk result (IsSized parts.now) }
{
    bytes_of(alloc, parts)
}
