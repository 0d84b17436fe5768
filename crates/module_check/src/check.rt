ghost use Rattle.beam_code.specs.declared.module.Module as module_type;
ghost use Rattle.std.specs.Prelude.{◌≡◌, List, IfOk, IfErr};
ghost use Rattle.beam_code.specs.Function.{all_functions};
ghost use Rattle.path_rules.specs.Profile.{AreDistinct, AreFew, InProfile};
ghost use Rattle.module_check.specs.Checks.{IsTableOf};
ghost use Rattle.module_check.specs.Entries.{AreSound, HasEntries};
ghost use Rattle.module_check.specs.Refusals.{IsDuplicate, IsMemory, IsRefusedBy};

use crate::duplicate::second;
use crate::entries::{Entries, Given, enter_all};
use crate::refusal::CheckRefusal;
use crate::size::are_few;
use crate::table::FunctionTable;
use beam_code::Module;
use path_rules::Index;
use std::alloc::Global;

/// The refusal of modules where this one's name came before.
fn duplicate(alloc: Global, second: &Module) -> CheckRefusal
    ensures { (ms : List module_type.Module) → IsDuplicate ms second.now.name → IsRefusedBy ms result }
{
    match second.name.copy(alloc) {
        Ok(module) => CheckRefusal::Duplicate { module },
        Err(e) => CheckRefusal::Memory(e),
    }
}

/// Looks whether modules are told apart and few.
fn look_at_sizes(alloc: Global, modules: &[Module]) -> Result<(), CheckRefusal>
    ensures distinct { IfOk result (λ u. AreDistinct modules.now) }
    ensures few { IfOk result (λ u. AreFew modules.now) }
    ensures refused { IfErr result (IsRefusedBy modules.now) }
{
    if let Some(module) = second(alloc, modules)? {
        return Err(duplicate(alloc, module));
    }
    if are_few(modules) {
        Ok(())
    } else {
        Err(CheckRefusal::TooMany)
    }
}

/// Looks at each function of modules that are told apart and few.
fn look_at_functions(alloc: Global, modules: &[Module]) -> Result<Entries, CheckRefusal>
    requires sound { AreSound modules.now }
    requires distinct { AreDistinct modules.now }
    requires few { AreFew modules.now }
    ensures profile { IfOk result (λ es. InProfile modules.now) }
    ensures entries { IfOk result (HasEntries modules.now (all_functions modules.now)) }
    ensures refused { IfErr result (IsRefusedBy modules.now) }
{
    let index = Index::new(alloc, modules)?;
    let given = Given {
        alloc,
        modules,
        index: &index,
    };
    enter_all(&given)
}

fn table(entries: Entries) -> FunctionTable
    ensures { result.entries ≡ entries.list }
{
    let Entries { list, .. } = entries;
    FunctionTable { entries: list }
}

/// What is kept of the functions of modules in the profile, or why they are out of it.
pub fn check_modules(alloc: Global, modules: &[Module]) -> Result<FunctionTable, CheckRefusal>
    requires sound { AreSound modules.now }
    ensures profile { IfOk result (λ table. InProfile modules.now) }
    ensures table { IfOk result (IsTableOf modules.now) }
    ensures refused { IfErr result (IsRefusedBy modules.now) }
    ensures accepts { InProfile modules.now → IfErr result IsMemory }
{
    match look_at_sizes(alloc, modules) {
        Ok(()) => {}
        Err(refusal) => return Err(refusal),
    }
    match look_at_functions(alloc, modules) {
        Ok(entries) => Ok(table(entries)),
        Err(refusal) => Err(refusal),
    }
}
