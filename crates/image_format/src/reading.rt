ghost use Rattle.beam_code.specs.declared.module.HandlerKind.{HandlerKind};
ghost use Rattle.indexmap.specs.IndexSet.{keys};
ghost use Rattle.term_tree.specs.Name.{is_name};
ghost use Rattle.tagged_words.specs.Atoms.{and_atom, is_among};
ghost use Rattle.image_format.specs.Fitting.{IsFitting, IsSized, after_text, turn, after_native, after_descriptor, first_turn, total_count};
ghost use Rattle.image_format.specs.Mask.{mask_words, live_slots};
ghost use Rattle.image_format.specs.Cursor.{Gives, Reads, many_at};
ghost use Rattle.image_format.specs.Reading.{each_word, no_more, text_at, texts_at, atom_at, atoms_at, word_list_at, native_at, natives_at, masks_at, live_at, descriptor_at, descriptors_at, parts_at, reading};
ghost use Rattle.image_format.specs.Rules.{any, at_most, code_count};
ghost use Rattle.image_format.specs.Spelling.{spelling};
ghost use Rattle.image_format.specs.declared.parts.Parts.{Parts};
ghost use Rattle.image_format.specs.declared.limits.TheConstants.{MOST_LITERALS, MOST_FRAME, MOST_IMAGE_BYTES};
ghost use Rattle.image_format.specs.declared.refusal.Flaw.TheVariants.{Count};
ghost use Rattle.std.specs.List.{list_all};
ghost use Rattle.std.specs.Prelude.{◌≡◌, ◌≤◌, ◌+◌, ◌^◌, ◌++◌, ◌&&◌, not, [], Some, None, Ok, length, OnOk, IfOk, if◌then◌else◌};

use crate::reader::{Reader, is_set};
use crate::{
    Descriptor, Flaw, FormatRefusal, MAGIC, MOST_ATOMS, MOST_DESCRIPTORS, MOST_FRAME,
    MOST_LITERALS, MOST_MODULES, MOST_NATIVES, Native, Parts, VERSION,
};
use beam_code::MOST_TEXT_BYTES;
use indexmap::IndexSet;
use sqlite_items::Items;
use std::alloc::{AllocError, Global};
use std::str;
use term_tree::{Name, NameRefusal};

fn words_of(alloc: Global, reader: &mut Reader<'_>, count: u32) -> Result<Items<u32>, FormatRefusal>
    ensures { Reads (λ v. v) result reader.new (many_at each_word no_more count tt reader.old) }
{
    let mut words = Items::new(alloc);
    for _ in 0..count {
        let word = reader.word()?;
        words.push(word)?;
    }
    Ok(words)
}

#[tactic(auto, unfolding(crate::specs::Reading::text_at))]
fn text_of(alloc: Global, reader: &mut Reader<'_>, room: usize) -> Result<Items<u8>, FormatRefusal>
    ensures { Reads (λ v. v) result reader.new (text_at room reader.old) }
{
    let len = reader.at_most(Flaw::Count, room)?;
    let bytes = reader.bytes(len)?;
    let text = Items::from_slice(alloc, bytes)?;
    Ok(text)
}

fn many_texts(
    alloc: Global,
    reader: &mut Reader<'_>,
    count: u32,
) -> Result<Items<Items<u8>>, FormatRefusal>
    ensures { Reads (λ v. v) result reader.new (many_at text_at after_text count MOST_TEXT_BYTES reader.old) }
{
    let mut texts = Items::new(alloc);
    let mut room = MOST_TEXT_BYTES;
    for _ in 0..count {
        let text = text_of(alloc, reader, room)?;
        room = room.saturating_sub(text.len());
        texts.push(text)?;
    }
    Ok(texts)
}

#[tactic(auto, unfolding(crate::specs::Reading::list_at))]
fn texts_of(alloc: Global, reader: &mut Reader<'_>) -> Result<Items<Items<u8>>, FormatRefusal>
    ensures { Reads (λ v. v) result reader.new (texts_at reader.old) }
{
    let count = reader.within(Flaw::Count, 1, MOST_MODULES)?;
    many_texts(alloc, reader, count)
}

/// The name with this text, if it is one.
fn name_of(alloc: Global, bytes: &[u8]) -> Result<Option<Name>, AllocError>
    ensures { IfOk result (λ o. o ≡ (if is_name bytes.now then Some bytes.now else None)) }
{
    let Ok(text) = str::from_utf8(bytes) else {
        return Ok(None);
    };
    match Name::new(alloc, text) {
        Ok(name) => Ok(Some(name)),
        Err(NameRefusal::TooLong) => Ok(None),
        Err(NameRefusal::Memory(e)) => Err(e),
    }
}

#[tactic(auto, unfolding(crate::specs::Reading::native_at))]
fn native_of(reader: &mut Reader<'_>, least: u64, place: u64) -> Result<Native, FormatRefusal>
    ensures { Reads (λ n. n) result reader.new (native_at (turn least place) reader.old) }
{
    let fid = reader.at_least(Flaw::Order, least)?;
    let first = reader.exactly(Flaw::Value, place)?;
    let count = reader.at_least(Flaw::Value, 1)?;
    Ok(Native { fid, first, count })
}

/// Native functions, and how many code words they have together.
fn many_natives(
    alloc: Global,
    reader: &mut Reader<'_>,
    count: u32,
) -> Result<(Items<Native>, u64), FormatRefusal>
    ensures read { Reads (λ v. v.0) result reader.new (many_at native_at after_native count first_turn reader.old) }
    ensures total { IfOk result (λ v. v.1 ≡ total_count v.0) }
{
    let mut natives = Items::new(alloc);
    let mut least: u64 = 0;
    let mut place: u64 = 0;
    for _ in 0..count {
        let native = native_of(reader, least, place)?;
        least = native.fid as u64 + 1;
        place = native.first as u64 + native.count as u64;
        natives.push(native)?;
    }
    Ok((natives, place))
}

#[tactic(auto, unfolding(crate::specs::Reading::list_at))]
fn natives_of(alloc: Global, reader: &mut Reader<'_>) -> Result<(Items<Native>, u64), FormatRefusal>
    ensures read { Reads (λ v. v.0) result reader.new (natives_at reader.old) }
    ensures total { IfOk result (λ v. v.1 ≡ total_count v.0) }
{
    let count = reader.at_most(Flaw::Count, MOST_NATIVES as usize)?;
    many_natives(alloc, reader, count)
}

/// The words of the mask of a frame.
fn masks_of(alloc: Global, reader: &mut Reader<'_>, frame: u32) -> Result<Items<u32>, FormatRefusal>
    requires { frame ≤ MOST_FRAME }
    ensures read { Reads (λ v. v) result reader.new (masks_at frame reader.old) }
    ensures count { IfOk result (λ v. length v ≡ mask_words frame) }
{
    let count = (frame + 31) / 32;
    let mut words = Items::new(alloc);
    for k in 0..count {
        let word = reader.mask_word(frame, k)?;
        words.push(word)?;
    }
    Ok(words)
}

/// The slots whose bits are set.
fn slots_of(alloc: Global, words: &[u32]) -> Result<Items<u32>, AllocError>
    requires { length words.now ≤ MOST_FRAME }
    ensures { IfOk result (λ v. v ≡ live_slots words.now) }
{
    let count = 32 * words.len() as u32;
    let mut slots = Items::new(alloc);
    for slot in 0..count {
        if is_set(words[(slot / 32) as usize], slot % 32) {
            slots.push(slot)?;
        }
    }
    Ok(slots)
}

#[tactic(auto, unfolding(crate::specs::Reading::live_at))]
fn live_of(alloc: Global, reader: &mut Reader<'_>, frame: u32) -> Result<Items<u32>, FormatRefusal>
    requires { frame ≤ MOST_FRAME }
    ensures { Reads (λ v. v) result reader.new (live_at frame reader.old) }
{
    let words = masks_of(alloc, reader, frame)?;
    let live = slots_of(alloc, words.as_slice())?;
    Ok(live)
}

#[tactic(auto, unfolding(crate::specs::Reading::descriptor_at))]
fn descriptor_of(
    alloc: Global,
    reader: &mut Reader<'_>,
    least: u64,
) -> Result<Descriptor, FormatRefusal>
    ensures { Reads (λ d. d) result reader.new (descriptor_at least reader.old) }
{
    let ret = reader.at_least(Flaw::Order, least)?;
    let fid = reader.word()?;
    let item = reader.word()?;
    let frame = reader.within(Flaw::Value, 1, MOST_FRAME)?;
    let kind = reader.kind()?;
    let handler = reader.handler(kind)?;
    let live = live_of(alloc, reader, frame)?;
    Ok(Descriptor {
        ret,
        fid,
        item,
        frame,
        kind,
        handler,
        live,
    })
}

fn many_descriptors(
    alloc: Global,
    reader: &mut Reader<'_>,
    count: u32,
) -> Result<Items<Descriptor>, FormatRefusal>
    ensures { Reads (λ v. v) result reader.new (many_at descriptor_at after_descriptor count 0 reader.old) }
{
    let mut descriptors = Items::new(alloc);
    let mut least: u64 = 0;
    for _ in 0..count {
        let descriptor = descriptor_of(alloc, reader, least)?;
        least = descriptor.ret as u64 + 1;
        descriptors.push(descriptor)?;
    }
    Ok(descriptors)
}

#[tactic(auto, unfolding(crate::specs::Reading::list_at))]
fn descriptors_of(
    alloc: Global,
    reader: &mut Reader<'_>,
) -> Result<Items<Descriptor>, FormatRefusal>
    ensures { Reads (λ v. v) result reader.new (descriptors_at reader.old) }
{
    let count = reader.at_most(Flaw::Count, MOST_DESCRIPTORS as usize)?;
    many_descriptors(alloc, reader, count)
}

fn new_atom_of(
    alloc: Global,
    bytes: &[u8],
    earlier: &IndexSet<Name>,
) -> Result<Option<Name>, AllocError>
    ensures { IfOk result (λ o. o ≡ (if is_name bytes.now && not (is_among bytes.now (keys earlier.now)) then Some bytes.now else None)) }
{
    let Some(name) = name_of(alloc, bytes)? else {
        return Ok(None);
    };
    if earlier.contains(&name) {
        return Ok(None);
    }
    Ok(Some(name))
}

#[tactic(auto, unfolding(crate::specs::Reading::atom_at))]
fn atom_of(
    alloc: Global,
    reader: &mut Reader<'_>,
    earlier: &IndexSet<Name>,
) -> Result<Name, FormatRefusal>
    ensures { Reads (λ n. n) result reader.new (atom_at (keys earlier.now) reader.old) }
{
    let len = reader.word()?;
    let offset = reader.offset();
    let bytes = reader.bytes(len)?;
    match new_atom_of(alloc, bytes, earlier)? {
        Some(name) => Ok(name),
        None => Err(Flaw::Value.at(offset)),
    }
}

fn many_atoms(
    alloc: Global,
    reader: &mut Reader<'_>,
    count: u32,
) -> Result<IndexSet<Name>, FormatRefusal>
    ensures { Reads (λ v. keys v) result reader.new (many_at atom_at and_atom count [] reader.old) }
{
    let mut atoms = IndexSet::new(alloc);
    for _ in 0..count {
        let atom = atom_of(alloc, reader, &atoms)?;
        atoms.insert(atom)?;
    }
    Ok(atoms)
}

/// The names of the set, in their order.
fn names_of(alloc: Global, set: IndexSet<Name>) -> Result<Items<Name>, AllocError>
    ensures { IfOk result (λ v. v ≡ keys set) }
{
    let names = set.into_iter().collect(alloc)?;
    Ok(Items::from_vec(names))
}

#[tactic(auto, unfolding(crate::specs::Reading::list_at))]
fn atoms_of(alloc: Global, reader: &mut Reader<'_>) -> Result<Items<Name>, FormatRefusal>
    ensures { Reads (λ v. v) result reader.new (atoms_at reader.old) }
{
    let count = reader.at_most(Flaw::Count, MOST_ATOMS as usize)?;
    let atoms = many_atoms(alloc, reader, count)?;
    let names = names_of(alloc, atoms)?;
    Ok(names)
}

#[tactic(auto, unfolding(crate::specs::Reading::parts_at, crate::specs::Reading::list_at, crate::specs::Reading::number_at))]
fn parts_of(alloc: Global, reader: &mut Reader<'_>) -> Result<Parts, FormatRefusal>
    ensures { Reads (λ p. p) result reader.new (parts_at reader.old) }
{
    reader.exactly(Flaw::Magic, MAGIC as u64)?;
    reader.exactly(Flaw::Version, VERSION as u64)?;
    let texts = texts_of(alloc, reader)?;
    let atoms = atoms_of(alloc, reader)?;
    let count = reader.at_most(Flaw::Count, MOST_LITERALS as usize)?;
    let literals = words_of(alloc, reader, count)?;
    let count = reader.word()?;
    let roots = words_of(alloc, reader, count)?;
    let (natives, total) = natives_of(alloc, reader)?;
    let count = reader.code_count(total)?;
    let code = words_of(alloc, reader, count)?;
    let descriptors = descriptors_of(alloc, reader)?;
    Ok(Parts {
        texts,
        atoms,
        literals,
        roots,
        natives,
        code,
        descriptors,
    })
}

#[tactic(auto, unfolding(crate::specs::Reading::reading))]
fn all_of(alloc: Global, bytes: &[u8]) -> Result<Parts, FormatRefusal>
    requires { length bytes.now ≤ MOST_IMAGE_BYTES }
    ensures { Gives (λ p. p) result (reading bytes.now) }
{
    let mut reader = Reader::new(bytes);
    let parts = parts_of(alloc, &mut reader)?;
    reader.end()?;
    Ok(parts)
}

/// The parts of an image, which are all of its bytes.
pub fn read_parts(alloc: Global, bytes: &[u8]) -> Result<Parts, FormatRefusal>
    requires { length bytes.now ≤ MOST_IMAGE_BYTES }
    // What is read is spelled so, each byte of it.
    ensures found { IfOk result (λ p. IsFitting p × IsSized p × (bytes.now ≡ spelling p)) }
    // What is spelled so is read, unless memory runs out.
    ensures only { (p : Parts) → IsFitting p → IsSized p → bytes.now ≡ spelling p → Gives (λ q. q) result (Ok p) }
    // A refusal is the first fault from the left.
    ensures exact { Gives (λ p. p) result (reading bytes.now) }
{
    all_of(alloc, bytes)
}
