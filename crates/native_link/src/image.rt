//! An image that was read, and what it is asked for.

ghost use Rattle.native_link.specs.Checking.{checked_image};
ghost use Rattle.image_format.specs.Cursor.{Gives};
ghost use Rattle.image_format.specs.Fitting.{IsFitting, IsSized, total_length, NativeFits, after_native, first_turn, DescriptorFits, after_descriptor};
ghost use Rattle.tagged_words.specs.Follow.{Follow};
ghost use Rattle.native_link.specs.Image.{Built, Answers};
ghost use Rattle.native_link.specs.Lookup.{native_of, native_entry_of, descriptor_of, Splits};
ghost use Rattle.image_format.specs.Reading.{reading};
ghost use Rattle.image_format.specs.Spelling.{spelling};
ghost use Rattle.beam_code.specs.declared.module.TheConstants.{MOST_TEXT_BYTES};
ghost use Rattle.image_format.specs.declared.limits.TheConstants.{MOST_IMAGE_BYTES, MOST_MODULES};
ghost use Rattle.module_texts.specs.Texts.{AreProfiled};
ghost use Rattle.std.specs.Option.{option_copied};
ghost use Rattle.std.specs.Prelude.{◌≡◌, ◌≤◌, IfErr, IfOk, Err, Ok, length};

use crate::ImageRefusal;
use crate::checking::check_modules;
use beam_check::Checked;
use image_format::{CODE_START, Descriptor, FormatRefusal, Native, Parts, read_parts};
use module_texts::{TextsRefusal, check_texts};
use std::alloc::{AllocError, Global};
use std::marker::Model;
use tagged_words::Atoms;

/// The parts of an image that was read, with the modules of its texts. Contracts see both.
#[derive(Drop)]
pub struct Image {
    parts: Parts,
    checked: Checked,
}

impl Model for Image {
    ghost use Rattle.native_link.specs.Checking.{Linked, linked};
    ghost use Rattle.native_link.specs.Image.{IsLinked};

    ghost Value = { Linked };

    ghost use Rattle.term_tree.specs.contracts.term.Term as term;
    ghost use Rattle.std.specs.Coded.{codes};

    ghost coded = { Prim.hlevel (codes, term.the_row.coded) };

    ghost view = { λ i. linked i.parts i.checked };

    ghost invariant = { λ i. IsLinked (linked i.parts i.checked) };
}

/// The image of these parts and the modules of their texts, where the modules ask no more of the
/// parts.
fn check_parts(alloc: Global, parts: Parts, checked: Checked) -> Result<Image, FormatRefusal>
    requires fitting { IsFitting parts }
    requires sized { IsSized parts }
    requires profiled { AreProfiled parts.texts checked }
    requires size { length (spelling parts) ≤ MOST_IMAGE_BYTES }
    ensures { Gives (λ i. i) result (checked_image parts checked) }
{
    check_modules(alloc, &parts, &checked)?;
    Ok(Image { parts, checked })
}

/// The first place where the number is not less than `fid`.
fn place_of_native(natives: &[Native], fid: u32) -> usize
    requires { Follow NativeFits after_native first_turn natives.now }
    ensures { Splits (λ n. n.fid) natives.now fid result result }
{
    let mut low = 0;
    let mut high = natives.len();
    while low < high {
        let mid = low + (high - low) / 2;
        if natives[mid].fid < fid {
            low = mid + 1;
        } else {
            high = mid;
        }
    }
    low
}

pub(crate) fn native_with(natives: &[Native], fid: u32) -> Option<Native>
    requires { Follow NativeFits after_native first_turn natives.now }
    ensures { result ≡ native_of natives.now fid }
{
    let place = place_of_native(natives, fid);
    if place < natives.len() && natives[place].fid == fid {
        Some(natives[place])
    } else {
        None
    }
}

/// The first place where the return address is not less than `ret`.
fn place_of_descriptor(descriptors: &[Descriptor], ret: u32) -> usize
    requires { Follow DescriptorFits after_descriptor 0 descriptors.now }
    ensures { Splits (λ d. d.ret) descriptors.now ret result result }
{
    let mut low = 0;
    let mut high = descriptors.len();
    while low < high {
        let mid = low + (high - low) / 2;
        if descriptors[mid].ret < ret {
            low = mid + 1;
        } else {
            high = mid;
        }
    }
    low
}

fn descriptor_with(descriptors: &[Descriptor], ret: u32) -> Option<&Descriptor>
    requires { Follow DescriptorFits after_descriptor 0 descriptors.now }
    ensures { option_copied result ≡ descriptor_of descriptors.now ret }
{
    let place = place_of_descriptor(descriptors, ret);
    if place < descriptors.len() && descriptors[place].ret == ret {
        Some(&descriptors[place])
    } else {
        None
    }
}

/// The modules of the texts of these parts.
fn built_of(alloc: Global, parts: &Parts) -> Result<Checked, ImageRefusal>
    requires few { length parts.now.texts ≤ MOST_MODULES }
    requires short { total_length parts.now.texts ≤ MOST_TEXT_BYTES }
    ensures { Built result parts.now }
{
    match check_texts(alloc, parts.texts.as_slice()) {
        Ok(checked) => Ok(checked),
        Err(TextsRefusal::Module { index, refusal }) => {
            let index = index as u32;
            Err(ImageRefusal::Module { index, refusal })
        }
        Err(TextsRefusal::Check(refusal)) => Err(ImageRefusal::Check(refusal)),
        Err(TextsRefusal::Memory(e)) => Err(ImageRefusal::Memory(e)),
    }
}

/// The parts that the bytes have, by the first pass.
fn parts_of(alloc: Global, bytes: &[u8]) -> Result<Parts, ImageRefusal>
    requires { length bytes.now ≤ MOST_IMAGE_BYTES }
    ensures found { IfOk result (λ p. IsFitting p × IsSized p × (bytes.now ≡ spelling p)) }
    ensures read { IfOk result (λ p. reading bytes.now ≡ Ok p) }
    ensures fault { IfErr result (λ e. Answers bytes.now (Err e)) }
{
    match read_parts(alloc, bytes) {
        Ok(parts) => Ok(parts),
        Err(e) => Err(ImageRefusal::from(e)),
    }
}

/// The image with these bytes: the first fault of its fields, or what its modules ask in vain.
pub fn read_image(alloc: Global, bytes: &[u8]) -> Result<Image, ImageRefusal>
    requires { length bytes.now ≤ MOST_IMAGE_BYTES }
    ensures spelled { IfOk result (λ i. bytes.now ≡ spelling i.parts) }
    ensures answer { Answers bytes.now result }
{
    let parts = parts_of(alloc, bytes)?;
    let checked = built_of(alloc, &parts)?;
    let image = check_parts(alloc, parts, checked)?;
    Ok(image)
}

impl Image {
    /// The parts of the image.
    pub fn parts(&self) -> &Parts
        ensures { result.now ≡ self.now.parts }
    {
        &self.parts
    }

    /// The modules of its texts, in the profile.
    pub fn checked(&self) -> &Checked
        ensures { result.now ≡ self.now.modules }
    {
        &self.checked
    }

    /// The atoms of the image by number.
    pub fn atoms(&self, alloc: Global) -> Result<Atoms, AllocError>
        ensures { IfOk result (λ atoms. atoms ≡ self.now.parts.atoms) }
    {
        Atoms::of(alloc, self.parts.atoms.as_slice())
    }

    /// The address of the native code of a function, if it is in native form.
    pub fn native_entry(&self, fid: u32) -> Option<u32>
        ensures { result ≡ native_entry_of self.now.parts.natives fid }
    {
        let native = native_with(self.parts.natives.as_slice(), fid)?;
        Some(CODE_START + 4 * native.first)
    }

    /// What is known of the frame whose call returns to this address.
    pub fn find(&self, ret: u32) -> Option<&Descriptor>
        ensures { option_copied result ≡ descriptor_of self.now.parts.descriptors ret }
    {
        descriptor_with(self.parts.descriptors.as_slice(), ret)
    }
}
