//! Texts are read one after the other, and their modules checked.

ghost use Rattle.beam_code.specs.declared.module.Module.{Module};
ghost use Rattle.module_texts.specs.Texts.{AreModulesOf, AreProfiled, AreRead, AreRefusedBy, IsMemory, IsReadAt, as_texts};
ghost use Rattle.std.specs.Prelude.{◌≡◌, ◌≤◌, All, List, IfOk, IfErr, length};

use crate::refusal::TextsRefusal;
use beam_check::{CheckRefusal, Checked, check};
use beam_code::{MOST_TEXT_BYTES, Module};
use beam_profile::{ModuleRefusal, read_module};
use sqlite_items::Items;
use std::alloc::Global;

/// The module of the text at this place.
fn module_at(alloc: Global, text: &[u8], index: usize) -> Result<Module, TextsRefusal>
    requires { length text.now ≤ MOST_TEXT_BYTES }
    ensures { IsReadAt text.now index result }
{
    let text = Items::from_slice(alloc, text)?;
    match read_module(alloc, text) {
        Ok(module) => Ok(module),
        Err(ModuleRefusal::Memory(e)) => Err(TextsRefusal::Memory(e)),
        Err(refusal) => Err(TextsRefusal::Module { index, refusal }),
    }
}

/// The modules of these texts.
fn modules_of(alloc: Global, texts: &[Items<u8>]) -> Result<Items<Module>, TextsRefusal>
    requires { All (λ t. length t ≤ MOST_TEXT_BYTES) texts.now }
    ensures { AreRead texts.now result }
{
    let mut modules = Items::new(alloc);
    for index in 0..texts.len() {
        let module = module_at(alloc, texts[index].as_slice(), index)?;
        modules.push(module)?;
    }
    Ok(modules)
}

/// A refusal of modules as one of their texts; want of memory is told apart.
fn refused(refusal: CheckRefusal) -> TextsRefusal
    ensures { result ≡ as_texts refusal }
{
    match refusal {
        CheckRefusal::Memory(e) => TextsRefusal::Memory(e),
        refusal => TextsRefusal::Check(refusal),
    }
}

/// The modules of these texts, each of at most `MOST_TEXT_BYTES` bytes, where they are in the
/// profile.
pub fn check_texts(alloc: Global, texts: &[Items<u8>]) -> Result<Checked, TextsRefusal>
    requires { All (λ t. length t ≤ MOST_TEXT_BYTES) texts.now }
    ensures profiled { IfOk result (AreProfiled texts.now) }
    ensures refused { IfErr result (AreRefusedBy texts.now) }
    ensures accepts { (ms : List Module) → AreProfiled texts.now ms → IfErr result IsMemory }
{
    let modules = modules_of(alloc, texts)?;
    match check(alloc, modules) {
        Ok(checked) => Ok(checked),
        Err(refusal) => Err(refused(refusal)),
    }
}
