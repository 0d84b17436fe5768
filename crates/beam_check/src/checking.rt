ghost use Rattle.std.specs.Prelude.{◌≡◌, IfOk, IfErr};
ghost use Rattle.path_rules.specs.Profile.{InProfile};
ghost use Rattle.module_check.specs.Refusals.{IsMemory, IsRefusedBy};
ghost use Rattle.beam_check.specs.Texts.{AreOfTheirTexts};

use crate::checked::Checked;
use beam_code::Module;
use function_numbers::FunctionNumbers;
use module_check::{CheckRefusal, check_modules};
use sqlite_items::Items;
use std::alloc::Global;

/// Modules in the profile, or why they are out of it: the first whose name came before; too many;
/// or the first rule that the first function breaks that breaks one, and the lowest item where it
/// does. Past 65,536 states that are not the first of their item a search for an item that breaks
/// `Undefined` or `HeapUncovered` answers want of memory.
pub fn check(alloc: Global, modules: Items<Module>) -> Result<Checked, CheckRefusal>
    requires texts { AreOfTheirTexts modules }
    ensures checked { IfOk result (λ c. c ≡ modules) }
    ensures profile { IfOk result (λ c. InProfile modules) }
    ensures refused { IfErr result (IsRefusedBy modules) }
    ensures accepts { InProfile modules → IfErr result IsMemory }
{
    let table = check_modules(alloc, modules.as_slice())?;
    let numbers = FunctionNumbers::new(alloc, modules.as_slice())?;
    Ok(Checked {
        modules,
        table,
        numbers,
    })
}
