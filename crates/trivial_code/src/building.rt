// The parts of the image of modules of trivial functions.

ghost use Rattle.std.specs.List.{AllByRecursion};
ghost use Rattle.std.specs.Prelude.{◌≡◌, ◌≤◌, ◌+◌, ◌<◌, ◌^◌, ◌++◌, IsTrue, length, map, IfOk, OnOk};
ghost use Rattle.beam_code.specs.Canonical.{is_canonical_operand};
ghost use Rattle.beam_code.specs.Function.{all_functions};
ghost use Rattle.beam_code.specs.declared.module.TheConstants.{MOST_TEXT_BYTES};
ghost use Rattle.image_format.specs.Fitting.{total_length};
ghost use Rattle.tagged_words.specs.Laid.{atom_number};
ghost use Rattle.tagged_words.specs.Word.{atom_word};
ghost use Rattle.trivial_code.specs.Compiled.{AllCanBePut, CanBePut, IsCompilable, IsCompiledImage, code_in, code_of, compiled, compiled_with, natives_from, returned_by, words_of};
ghost use Rattle.trivial_code.specs.Image.{IsInReach};
ghost use Rattle.trivial_code.specs.Returned.{argument, constant_word, given_by, item_word, literals_among, literals_at, literals_in, literals_within};
ghost use Rattle.trivial_code.specs.Trivial.{are_trivial, moved_operand};

use crate::emitting::{FUNCTION_WORDS, Given, put_function};
use crate::trivial::{Origin, returned};
use beam_check::Checked;
use beam_code::{Function, Instr, Item, Module, Operand, cost};
use image_format::{Native, Parts};
use ir_code::{Constants, constants};
use sqlite_items::Items;
use std::alloc::{AllocError, Global};
use tagged_words::{Atoms, atom, small};
use term_tree::Name;

/// The word of the empty list.
const NIL: u32 = 0x3B;

fn literals_at(item: &Item) -> usize
    ensures { result ≡ literals_at (moved_operand item.now.instr) }
{
    match item.instr() {
        Instr::Move(Operand::Literal(_), _) => 1,
        _ => 0,
    }
}

/// How many literal operands items have.
fn count_literals(items: &[Item]) -> usize
    ensures { result ≡ literals_in items.now }
{
    let mut count = 0;
    for item in items {
        count += literals_at(item);
    }
    count
}

fn atom_word(atoms: &Atoms, name: &Name) -> u32
    ensures { result ≡ atom_word (atom_number atoms.now name.now) }
{
    atom(atoms.number(name).unwrap_or(0))
}

/// The word of a constant, where so many literal operands stand before it.
fn constant_word(constants: &Constants, before: usize, from: &Operand) -> u32
    requires { IsTrue (is_canonical_operand from.now) }
    ensures { result ≡ constant_word constants.now before from.now }
{
    match from {
        Operand::Int(value) => small(*value),
        Operand::Atom(name) => atom_word(&constants.atoms, name),
        Operand::Literal(_) => constants.roots.get(before).copied().unwrap_or(0),
        _ => NIL,
    }
}

fn item_word(constants: &Constants, before: usize, item: &Item) -> u32
    ensures { result ≡ item_word constants.now before (Some item.now) }
{
    item.terms_are_canonical();
    match item.instr() {
        Instr::Move(from, _) => constant_word(constants, before, from),
        _ => NIL,
    }
}

fn argument(n: u16) -> Given
    requires { IsInReach (Origin.Argument n) }
    ensures { result ≡ argument n }
{
    if n == 0 {
        Given::Came
    } else if n < 5 {
        Given::Register(n as u8)
    } else {
        Given::Area(n as u8)
    }
}

/// What a function with these items returns, where it is the constant of one of them.
fn moved(constants: &Constants, before: usize, items: &[Item], at: usize) -> Given
    requires { before + literals_in items.now < 2 ^ 64 }
    ensures { result ≡ given_by constants.now before items.now (Origin.Moved at) }
{
    match items.get(at) {
        Some(item) => {
            let place = before + count_literals(&items[..at]);
            Given::Word(item_word(constants, place, item))
        }
        None => Given::Word(NIL),
    }
}

/// What a function returns, where so many literal operands stand before it.
fn given(constants: &Constants, before: usize, f: &Function) -> Given
    requires reach { IsInReach (returned_by f.now) }
    requires room { before + literals_in f.now.items < 2 ^ 64 }
    ensures { result ≡ given_by constants.now before f.now.items (returned_by f.now) }
{
    match returned(f).unwrap_or(Origin::Argument(0)) {
        Origin::Argument(n) => argument(n),
        Origin::Moved(at) => moved(constants, before, f.items.as_slice(), at),
    }
}

fn put_words(
    code: &mut Vec<u32>,
    constants: &Constants,
    before: usize,
    f: &Function,
) -> Result<(), AllocError>
    requires fits { CanBePut f.now }
    requires room { before + literals_in f.now.items < 2 ^ 64 }
    ensures { OnOk result (code.new.items ≡ code.old.items ++ words_of constants.now before f.now) }
{
    let given = given(constants, before, f);
    put_function(code, given, cost(f))
}

/// The code of functions, before which so many literal operands stand; it answers how many stand
/// behind them.
fn put_functions(
    code: &mut Vec<u32>,
    constants: &Constants,
    before: usize,
    functions: &[Function],
) -> Result<usize, AllocError>
    requires fit { AllByRecursion CanBePut functions.now }
    requires room { before + literals_among functions.now < 2 ^ 64 }
    ensures code { OnOk result (code.new.items ≡ code.old.items ++ code_of constants.now before functions.now) }
    ensures count { IfOk result (λ behind. behind ≡ before + literals_among functions.now) }
{
    let mut count = before;
    for f in functions {
        put_words(code, constants, count, f)?;
        count += count_literals(f.items.as_slice());
    }
    Ok(count)
}

fn code(alloc: Global, constants: &Constants, modules: &[Module]) -> Result<Vec<u32>, AllocError>
    requires fit { AllByRecursion AllCanBePut modules.now }
    requires room { literals_within modules.now < 2 ^ 64 }
    ensures { IfOk result (λ v. v.items ≡ code_in constants.now 0 modules.now) }
{
    let mut code = Vec::new(alloc);
    let mut count = 0;
    for m in modules {
        count = put_functions(&mut code, constants, count, m.functions.as_slice())?;
    }
    Ok(code)
}

fn natives(alloc: Global, count: u32) -> Result<Items<Native>, AllocError>
    requires { count < 2 ^ 24 }
    ensures { IfOk result (λ v. v ≡ natives_from 0 count) }
{
    let mut natives = Items::new(alloc);
    for fid in 0..count {
        natives.push(Native {
            fid,
            first: FUNCTION_WORDS * fid,
            count: FUNCTION_WORDS,
        })?;
    }
    Ok(natives)
}

fn copies(alloc: Global, names: &[Name]) -> Result<Items<Name>, AllocError>
    ensures { IfOk result (λ v. v ≡ names.now) }
{
    let mut copies = Items::new(alloc);
    for name in names {
        copies.push(name.copy(alloc)?)?;
    }
    Ok(copies)
}

fn texts(alloc: Global, modules: &[Module]) -> Result<Items<Items<u8>>, AllocError>
    ensures { IfOk result (λ v. v ≡ map (λ m. m.text) modules.now) }
{
    let mut texts = Items::new(alloc);
    for m in modules {
        texts.push(Items::from_slice(alloc, m.text.as_slice())?)?;
    }
    Ok(texts)
}

/// The parts of an image with these constants.
fn parts_of(
    alloc: Global,
    modules: &[Module],
    constants: &Constants,
    count: u32,
) -> Result<Parts, AllocError>
    requires fit { AllByRecursion AllCanBePut modules.now }
    requires room { literals_within modules.now < 2 ^ 64 }
    requires few { count < 2 ^ 24 }
    ensures { IfOk result (λ p. p ≡ compiled_with constants.now modules.now count) }
{
    Ok(Parts {
        texts: texts(alloc, modules)?,
        atoms: copies(alloc, constants.atoms.names())?,
        literals: Items::from_slice(alloc, constants.literals.as_slice())?,
        roots: Items::from_slice(alloc, constants.roots.as_slice())?,
        natives: natives(alloc, count)?,
        code: Items::from_vec(code(alloc, constants, modules)?),
        descriptors: Items::new(alloc),
    })
}

/// The parts of the image of modules whose functions are all trivial, each of them in native form.
/// The image does what their texts say. There has to be a module, and their texts have at most
/// 4,194,304 bytes together.
pub fn parts(alloc: Global, checked: &Checked) -> Result<Parts, AllocError>
    requires trivial { IsTrue (are_trivial checked.now) }
    requires some { 1 ≤ length checked.now }
    requires texts { total_length (map (λ m. m.text) checked.now) ≤ MOST_TEXT_BYTES }
    ensures compiled { IfOk result (λ p. p ≡ compiled checked.now) }
    ensures image { IfOk result (λ p. IsCompiledImage checked.now p) }
{
    checked.are_in_profile();
    let modules = checked.modules();
    let constants = constants(alloc, modules)?;
    parts_of(alloc, modules, &constants, checked.functions())
}
