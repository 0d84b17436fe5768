//! Images: bytes made by hand are read and written again, and damaged ones are refused at their fault.

use image_format::{FormatRefusal, MOST_IMAGE_BYTES, image_bytes, read_parts};
use native_link::{ImageRefusal, read_image};
use std::alloc::{AllocError, Global};
use std::process::Abort;
use std::test::Fail;

const ATOMS: [&str; 15] = [
    "error",
    "exit",
    "throw",
    "EXIT",
    "true",
    "false",
    "badarith",
    "badarg",
    "function_clause",
    "if_clause",
    "undef",
    "badmatch",
    "case_clause",
    "try_clause",
    "e",
];

const EMPTY_MODULE: &str = "{module, e}.\n{exports, []}.\n{attributes, []}.\n{labels, 1}.\n";

/// Bytes, and where each of their fields begins.
#[derive(Drop)]
pub struct Draft {
    pub bytes: Vec<u8>,
    fields: Vec<usize>,
}

impl Draft {
    fn new(alloc: Global) -> Draft {
        Draft {
            bytes: Vec::new(alloc),
            fields: Vec::new(alloc),
        }
    }

    fn word(&mut self, number: u32) -> Result<(), AllocError> {
        self.fields.push(self.bytes.len())?;
        self.bytes.extend_from_slice(&number.to_be_bytes())
    }

    pub fn words(&mut self, numbers: &[u32]) -> Result<(), AllocError> {
        for number in numbers {
            self.word(*number)?;
        }
        Ok(())
    }

    fn text(&mut self, text: &str) -> Result<(), AllocError> {
        let len = u32::try_from(text.len()).unwrap_or(0);
        self.word(len)?;
        self.fields.push(self.bytes.len())?;
        self.bytes.extend_from_slice(text.as_bytes())?;
        for _ in 0..(4 - text.len() % 4) % 4 {
            self.bytes.push(0)?;
        }
        Ok(())
    }
}

fn head(draft: &mut Draft) -> Result<(), AllocError> {
    draft.words(&[0x48495045, 1])
}

fn names(draft: &mut Draft) -> Result<(), AllocError> {
    for atom in &ATOMS {
        draft.text(atom)?;
    }
    Ok(())
}

fn atoms(draft: &mut Draft) -> Result<(), AllocError> {
    draft.word(15)?;
    names(draft)
}

/// The beginning of an image of a module that names no atoms but `e` and `f`: all that stands before its literals.
pub fn image_begun(alloc: Global, text: &str) -> Result<Draft, AllocError> {
    let mut draft = Draft::new(alloc);
    head(&mut draft)?;
    draft.word(1)?;
    draft.text(text)?;
    draft.word(16)?;
    names(&mut draft)?;
    draft.text("f")?;
    Ok(draft)
}

/// The image of one module without functions.
fn empty_image(alloc: Global) -> Result<Draft, AllocError> {
    let mut draft = Draft::new(alloc);
    head(&mut draft)?;
    draft.word(1)?;
    draft.text(EMPTY_MODULE)?;
    atoms(&mut draft)?;
    draft.words(&[0, 0, 0, 0, 0])?;
    Ok(draft)
}

/// The image of two modules without functions, which have these texts.
fn image_of_two(alloc: Global, first: &str, second: &str) -> Result<Draft, AllocError> {
    let mut draft = Draft::new(alloc);
    head(&mut draft)?;
    draft.word(2)?;
    draft.text(first)?;
    draft.text(second)?;
    atoms(&mut draft)?;
    draft.words(&[0, 0, 0, 0, 0])?;
    Ok(draft)
}

/// An image with two texts, literals, roots, native functions and descriptors.
fn full_image(alloc: Global) -> Result<Draft, AllocError> {
    let mut draft = Draft::new(alloc);
    head(&mut draft)?;
    draft.word(2)?;
    draft.text("abcde")?;
    draft.text("")?;
    draft.word(2)?;
    draft.text("a")?;
    draft.text("b")?;
    draft.words(&[2, 7, 8])?;
    draft.words(&[1, 9])?;
    draft.words(&[2, 3, 0, 1, 5, 1, 2])?;
    draft.words(&[3, 10, 11, 12])?;
    draft.words(&[2, 100, 3, 4, 33, 1, 64, 0x80000002, 1])?;
    draft.words(&[104, 5, 6, 2, 0, 0, 2])?;
    Ok(draft)
}

/// These bytes with another word at a place.
fn with_word(alloc: Global, bytes: &[u8], at: usize, number: u32) -> Result<Vec<u8>, AllocError> {
    let mut other = Vec::from_slice(alloc, bytes)?;
    for (i, byte) in number.to_be_bytes().iter().enumerate() {
        if let Some(place) = other.get_mut(at.saturating_add(i)) {
            *place = *byte;
        }
    }
    Ok(other)
}

/// What reading the parts of these bytes says.
fn said(alloc: Global, bytes: &[u8]) -> Result<String, AllocError> {
    if bytes.len() > MOST_IMAGE_BYTES {
        return String::from_str(alloc, "too long");
    }
    match read_parts(alloc, bytes) {
        Ok(_) => String::from_str(alloc, "Ok"),
        Err(refusal) => format!(in alloc; "{refusal:?}"),
    }
}

/// What reading an image of these bytes says.
fn image_said(alloc: Global, bytes: &[u8]) -> Result<String, AllocError> {
    if bytes.len() > MOST_IMAGE_BYTES {
        return String::from_str(alloc, "too long");
    }
    match read_image(alloc, bytes) {
        Ok(_) => String::from_str(alloc, "Ok"),
        Err(refusal) => format!(in alloc; "{refusal:?}"),
    }
}

/// The parts of these bytes, written again.
fn again(alloc: Global, bytes: &[u8]) -> Result<Vec<u8>, FormatRefusal> {
    if bytes.len() > MOST_IMAGE_BYTES {
        return Ok(Vec::new(alloc));
    }
    let parts = read_parts(alloc, bytes)?;
    let written = image_bytes(alloc, &parts)?;
    Ok(written)
}

/// How many modules the image has, and whether it knows native code or a descriptor at 0.
fn asked(alloc: Global, bytes: &[u8]) -> Result<(usize, bool), ImageRefusal> {
    if bytes.len() > MOST_IMAGE_BYTES {
        return Ok((0, true));
    }
    let image = read_image(alloc, bytes)?;
    let known = image.native_entry(0).is_some() || image.find(0).is_some();
    Ok((image.checked().modules().len(), known))
}

/// The live slots of all descriptors.
fn live_slots(alloc: Global, bytes: &[u8]) -> Result<Vec<u32>, FormatRefusal> {
    let mut slots = Vec::new(alloc);
    if bytes.len() > MOST_IMAGE_BYTES {
        return Ok(slots);
    }
    let parts = read_parts(alloc, bytes)?;
    for descriptor in parts.descriptors.as_slice() {
        for slot in 0..40 {
            if descriptor.is_live(slot) {
                slots.push(slot)?;
            }
        }
    }
    Ok(slots)
}

/// Fails where two texts differ.
fn same(rt: &impl Abort, found: &str, wanted: &str) {
    assert_eq!(rt; found, wanted);
}

#[test]
fn empty_module(rt: HostRuntime) -> Result<(), Fail> {
    let draft = empty_image(rt.alloc())?;
    assert_eq!(rt; draft.bytes.len(), 284);
    let written = again(rt.alloc(), &draft.bytes)?;
    assert_eq!(rt; written.as_slice(), draft.bytes.as_slice());
    let (modules, known) = asked(rt.alloc(), &draft.bytes)?;
    assert!(rt; modules == 1 && !known);
    Ok(())
}

#[test]
fn full_parts(rt: HostRuntime) -> Result<(), Fail> {
    let draft = full_image(rt.alloc())?;
    let written = again(rt.alloc(), &draft.bytes)?;
    assert_eq!(rt; written.as_slice(), draft.bytes.as_slice());
    Ok(())
}

#[test]
fn parts_of_no_image(rt: HostRuntime) -> Result<(), Fail> {
    let draft = full_image(rt.alloc())?;
    let slots = live_slots(rt.alloc(), &draft.bytes)?;
    assert_eq!(rt; slots.as_slice(), [1, 31, 32, 1].as_slice());
    let refusal = image_said(rt.alloc(), &draft.bytes)?;
    same(
        &rt,
        refusal.as_str(),
        "Module { index: 0, refusal: Text(Syntax { line: 1 }) }",
    );
    Ok(())
}

/// The place where the last field begins that begins at a length or before it.
fn field_at(fields: &[usize], len: usize) -> usize {
    let mut field = 0;
    for start in fields {
        if *start <= len {
            field = *start;
        }
    }
    field
}

#[test]
fn cut_anywhere(rt: HostRuntime) -> Result<(), Fail> {
    let draft = empty_image(rt.alloc())?;
    for len in 0..draft.bytes.len() {
        let field = field_at(draft.fields.as_slice(), len);
        let short = said(rt.alloc(), &draft.bytes[..len])?;
        let wanted = format!(in rt.alloc(); "Field {{ flaw: Short, offset: {field} }}")?;
        same(&rt, short.as_str(), wanted.as_str());
    }
    Ok(())
}

#[test]
fn cut_in_the_last_function(rt: HostRuntime) -> Result<(), Fail> {
    let draft = empty_image(rt.alloc())?;
    let short = said(rt.alloc(), draft.bytes.get(..270).unwrap_or(&[]))?;
    same(&rt, short.as_str(), "Field { flaw: Short, offset: 268 }");
    Ok(())
}

#[test]
fn one_byte_more(rt: HostRuntime) -> Result<(), Fail> {
    let mut draft = empty_image(rt.alloc())?;
    draft.bytes.push(0)?;
    let long = said(rt.alloc(), &draft.bytes)?;
    same(&rt, long.as_str(), "Field { flaw: Long, offset: 284 }");
    Ok(())
}

/// The field whose word is changed, how many bytes into it, the word, and the fault with its field.
const DAMAGE: [(usize, usize, u32, &str, usize); 36] = [
    (0, 0, 0x48495046, "Magic", 0),
    (1, 0, 3, "Version", 1),
    (2, 0, 0, "Count", 2),
    (2, 0, 16_385, "Count", 2),
    (3, 0, 4_194_305, "Count", 3),
    (5, 0, 4_194_300, "Count", 5),
    (7, 0, 33_554_433, "Count", 7),
    (12, 0, 33_554_433, "Count", 12),
    (17, 0, 262_145, "Count", 17),
    (24, 0, 16_777_217, "Count", 24),
    (28, 0, 1_048_577, "Count", 28),
    (8, 0, 4_000, "Short", 9),
    (4, 4, 0x65000001, "Value", 4),
    (9, 0, 0x61000100, "Value", 9),
    (9, 0, 0xff000000, "Value", 9),
    (11, 0, 0x61000000, "Value", 11),
    (19, 0, 1, "Value", 19),
    (20, 0, 0, "Value", 20),
    (21, 0, 3, "Order", 21),
    (21, 0, 2, "Order", 21),
    (22, 0, 0, "Value", 22),
    (22, 0, 2, "Value", 22),
    (23, 0, 0, "Value", 23),
    (24, 0, 2, "Value", 24),
    (32, 0, 0, "Value", 32),
    (32, 0, 514, "Value", 32),
    (33, 0, 3, "Value", 33),
    (33, 0, 0, "Value", 34),
    (34, 0, 0, "Value", 34),
    (35, 0, 0x80000003, "Value", 35),
    (36, 0, 2, "Value", 36),
    (37, 0, 100, "Order", 37),
    (40, 0, 1, "Value", 43),
    (41, 0, 2, "Value", 42),
    (42, 0, 64, "Value", 42),
    (43, 0, 4, "Value", 43),
];

/// Where a field begins.
fn start_of(draft: &Draft, field: usize) -> usize {
    draft.fields.get(field).copied().unwrap_or(0)
}

/// What reading says of the image with another word at some bytes into a field.
fn said_with(alloc: Global, draft: &Draft, at: usize, number: u32) -> Result<String, AllocError> {
    let bytes = with_word(alloc, &draft.bytes, at, number)?;
    said(alloc, &bytes)
}

/// A fault with the place of its field.
fn fault_at(alloc: Global, draft: &Draft, fault: &str, field: usize) -> Result<String, AllocError> {
    let offset = start_of(draft, field);
    format!(in alloc; "Field {{ flaw: {fault}, offset: {offset} }}")
}

#[test]
fn damaged_fields(rt: HostRuntime) -> Result<(), Fail> {
    let draft = full_image(rt.alloc())?;
    for row in DAMAGE.iter() {
        let (field, into, number, fault, at) = *row;
        let place = start_of(&draft, field).saturating_add(into);
        let refusal = said_with(rt.alloc(), &draft, place, number)?;
        let wanted = fault_at(rt.alloc(), &draft, fault, at)?;
        same(&rt, refusal.as_str(), wanted.as_str());
    }
    Ok(())
}

#[test]
fn missing_atom(rt: HostRuntime) -> Result<(), Fail> {
    let draft = empty_image(rt.alloc())?;
    let bytes = with_word(rt.alloc(), &draft.bytes, start_of(&draft, 35), 0x66000000)?;
    let refusal = image_said(rt.alloc(), &bytes)?;
    same(&rt, refusal.as_str(), "Field { flaw: Value, offset: 76 }");
    Ok(())
}

#[test]
fn texts_of_no_modules(rt: HostRuntime) -> Result<(), Fail> {
    let send = "{module, f}.\n{exports, []}.\n{attributes, []}.\n{labels, 1}.\nsend.\n";
    for (second, refusal) in [
        (EMPTY_MODULE, "Check(Duplicate {"),
        (send, "Module { index: 1, refusal: Shape { line: 5 }"),
        ("{a", "Module { index: 1, refusal: Text(Syntax { line: 1 })"),
    ] {
        let draft = image_of_two(rt.alloc(), EMPTY_MODULE, second)?;
        let said = image_said(rt.alloc(), &draft.bytes)?;
        assert!(rt; said.as_str().starts_with(refusal), "{said}");
    }
    Ok(())
}

/// A module whose one function, of eight items, keeps a literal in its y register while it calls itself. Its frame has
/// three words, and its call is item 5.
const CALLING_MODULE: &str = "{module, e}.
{exports, []}.
{attributes, []}.
{labels, 3}.
{function, f, 0, 2}.
{label,1}.
{func_info,{atom,e},{atom,f},0}.
{label,2}.
{allocate,1,0}.
{move,{literal,[{e,1}]},{y,0}}.
{call,0,{f,2}}.
{deallocate,1}.
return.
";

/// The word of the literal: its cons lies behind its tuple.
const LITERAL: u32 = 0x0800_000D;

/// An image of this module: the tuple and the cons of the literal, roots, two native words, and a descriptor of a
/// return to an item and one of a return to native code, with a handler there.
fn linked_image(alloc: Global, roots: &[u32]) -> Result<Draft, AllocError> {
    let mut draft = image_begun(alloc, CALLING_MODULE)?;
    draft.words(&[5, 0x80, 0x38B, 0x1F, 0x0800_0002, 0x3B])?;
    draft.word(u32::try_from(roots.len()).unwrap_or(0))?;
    draft.words(roots)?;
    draft.words(&[1, 0, 0, 2])?;
    draft.words(&[2, 0x0100_0000, 0x0100_0000])?;
    draft.word(2)?;
    draft.words(&[0x0200_0018, 0, 5, 3, 0, 0, 2])?;
    draft.words(&[0x0400_0008, 0, 5, 3, 1, 0x0400_0004, 2])?;
    Ok(draft)
}

/// Where the native code of function 0 begins, and the handler of the frame that waits for this address.
fn looked_up(alloc: Global, bytes: &[u8], ret: u32) -> Result<(u32, u32), ImageRefusal> {
    if bytes.len() > MOST_IMAGE_BYTES {
        return Ok((0, 0));
    }
    let image = read_image(alloc, bytes)?;
    let handler = image.find(ret).map(|found| found.handler).unwrap_or(1);
    Ok((image.native_entry(0).unwrap_or(1), handler))
}

#[test]
fn an_image_with_descriptors(rt: HostRuntime) -> Result<(), Fail> {
    let draft = linked_image(rt.alloc(), &[LITERAL])?;
    assert_eq!(rt; draft.bytes.len(), 556);
    let written = again(rt.alloc(), &draft.bytes)?;
    assert_eq!(rt; written.as_slice(), draft.bytes.as_slice());
    for (ret, handler) in [
        (0x0200_0018, 0),
        (0x0400_0008, 0x0400_0004),
        (0x0200_001C, 1),
    ] {
        let found = looked_up(rt.alloc(), &draft.bytes, ret)?;
        assert!(rt; found == (0x0400_0000, handler));
    }
    Ok(())
}

/// The number of roots stands at 460.
#[test]
fn roots_are_as_many_as_literals(rt: HostRuntime) -> Result<(), Fail> {
    let none: [u32; 0] = [];
    let two = [LITERAL, LITERAL];
    for roots in [none.as_slice(), two.as_slice()] {
        let draft = linked_image(rt.alloc(), roots)?;
        let refusal = image_said(rt.alloc(), &draft.bytes)?;
        same(&rt, refusal.as_str(), "Field { flaw: Value, offset: 460 }");
    }
    Ok(())
}

/// The offset of a word, another word for it, and the offset of the field that is refused. The literal words begin at
/// 440, the root stands at 464, the native function at 472, the descriptors at 500 and at 528.
const MISFITS: [(usize, u32, usize); 22] = [
    (464, 0x3B, 464),
    (464, 0x0800_0002, 464), // the tuple alone
    (464, 0x0800_0011, 464), // a cons behind the last word
    (448, 0x2F, 464), // {e,2}
    (444, 0x3CB, 464), // {f,1}
    (456, 0x0800_000D, 464), // a cons that is its own tail
    (472, 1, 472),
    (504, 1, 504),
    (508, 8, 508), // an item too many; the return address is not its next item either
    (508, 4, 500), // the return address is not the next item of this one
    (500, 0x0200_0019, 500),
    (500, 0x0200_001C, 500),
    (512, 2, 512),
    (512, 4, 512),
    (528, 0x0400_0000, 528), // the first native word, behind none
    (528, 0x0400_0006, 528),
    (528, 0x0400_000C, 528),
    (532, 1, 532),
    (540, 4, 540),
    (548, 0x0400_0008, 548), // behind the last native word
    (548, 0x0200_0020, 548), // behind the last item
    (548, 0x0200_001E, 548),
];

/// Words that fit as well, by offset: other native words and an item.
const FITS: [(usize, u32); 4] = [
    (508, 5),
    (528, 0x0400_0004),
    (548, 0x0400_0000),
    (548, 0x0200_001C),
];

/// What reading an image says of the one above with another word at an offset.
fn linked_said(alloc: Global, at: usize, number: u32) -> Result<String, AllocError> {
    let draft = linked_image(alloc, &[LITERAL])?;
    let bytes = with_word(alloc, &draft.bytes, at, number)?;
    image_said(alloc, &bytes)
}

#[test]
fn what_modules_ask_in_vain(rt: HostRuntime) -> Result<(), Fail> {
    for (at, number, offset) in MISFITS.iter() {
        let refusal = linked_said(rt.alloc(), *at, *number)?;
        let wanted = format!(in rt.alloc(); "Field {{ flaw: Value, offset: {offset} }}")?;
        same(&rt, refusal.as_str(), wanted.as_str());
    }
    for (at, number) in FITS.iter() {
        let answer = linked_said(rt.alloc(), *at, *number)?;
        same(&rt, answer.as_str(), "Ok");
    }
    Ok(())
}
