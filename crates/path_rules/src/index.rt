// Functions of modules, by name.

ghost use Rattle.std.specs.Prelude.{◌≡◌, ℕ, ◌<◌, ◌^◌, ◌&&◌, List, IfOk, length};
ghost use Rattle.std.specs.List.{list_any};
ghost use Rattle.indexmap.specs.IndexMap.{get};
ghost use Rattle.indexmap.specs.IndexSet.{contains};
ghost use Rattle.beam_code.specs.Function.{first_that, same_name};
ghost use Rattle.path_rules.specs.Index.{AreTables, IsIndexOf, IsTableOf, Key, same_key, is_called, has_key, entry_label, same_target, begins_at};

use beam_code::{Function, Instr, Module};
use indexmap::{IndexMap, IndexSet};
use sqlite_items::Items;
use std::alloc::{AllocError, Global};
use term_tree::Name;

/// What a module exports and has, and where calls of its functions begin, to be looked up.
#[derive(Drop)]
pub(crate) struct Table {
    pub(crate) exports: IndexSet<(Name, u32)>,
    pub(crate) functions: IndexSet<(Name, u32)>,
    pub(crate) targets: IndexSet<(u32, u32)>,
}

/// The functions of modules, to be looked up: by their names, and within a module by the labels
/// where their calls begin.
#[derive(Drop)]
pub struct Index {
    pub(crate) numbers: IndexMap<Name, u32>,
    pub(crate) tables: Items<Table>,
}

/// The number of the first module of each name.
pub(crate) fn module_numbers(
    alloc: Global,
    modules: &[Module],
) -> Result<IndexMap<Name, u32>, AllocError>
    requires { length modules.now < 2 ^ 32 }
    ensures { IfOk result (λ map. (name : List ℕ) → get same_name map name ≡ first_that (is_called name) 0 modules.now) }
{
    let mut map = IndexMap::new(alloc);
    let mut at = modules.len();
    while at > 0 {
        at -= 1;
        let name = modules[at].name.copy(alloc)?;
        map.insert(name, at as u32)?;
    }
    Ok(map)
}

/// The exports of a module, to be looked up.
pub(crate) fn export_set(
    alloc: Global,
    exports: &[(Name, u8)],
) -> Result<IndexSet<(Name, u32)>, AllocError>
    ensures { IfOk result (λ set. (key : Key) → contains same_key set key ≡ list_any (λ e. same_key e key) exports.now) }
{
    let mut set = IndexSet::new(alloc);
    for export in exports {
        let name = export.0.copy(alloc)?;
        set.insert((name, u32::from(export.1)))?;
    }
    Ok(set)
}

/// The functions of a module, to be looked up.
pub(crate) fn function_set(
    alloc: Global,
    functions: &[Function],
) -> Result<IndexSet<(Name, u32)>, AllocError>
    ensures { IfOk result (λ set. (key : Key) → contains same_key set key ≡ list_any (has_key key) functions.now) }
{
    let mut set = IndexSet::new(alloc);
    for function in functions {
        let name = function.name.copy(alloc)?;
        set.insert((name, u32::from(function.arity)))?;
    }
    Ok(set)
}

/// The label where the calls of a function begin.
fn entry_label(function: &Function) -> Option<u32>
    ensures { result ≡ entry_label function.now }
{
    match function.items.get(function.entry as usize) {
        None => None,
        Some(item) => match item.instr() {
            Instr::Label(n) => Some(*n),
            _ => None,
        },
    }
}

/// The functions of a module by the label where their calls begin and their arity.
pub(crate) fn target_set(
    alloc: Global,
    functions: &[Function],
) -> Result<IndexSet<(u32, u32)>, AllocError>
    ensures { IfOk result (λ set. (target : ℕ × ℕ) → contains same_target set target ≡ list_any (begins_at target) functions.now) }
{
    let mut set = IndexSet::new(alloc);
    for function in functions {
        if let Some(label) = entry_label(function) {
            set.insert((label, u32::from(function.arity)))?;
        }
    }
    Ok(set)
}

fn table_of(alloc: Global, owner: &Module) -> Result<Table, AllocError>
    ensures { IfOk result (λ table. IsTableOf owner.now table) }
{
    let exports = export_set(alloc, owner.exports.as_slice())?;
    let functions = function_set(alloc, owner.functions.as_slice())?;
    let targets = target_set(alloc, owner.functions.as_slice())?;
    Ok(Table {
        exports,
        functions,
        targets,
    })
}

fn tables_of(alloc: Global, modules: &[Module]) -> Result<Items<Table>, AllocError>
    ensures { IfOk result (λ tables. AreTables modules.now tables) }
{
    let mut tables = Items::new(alloc);
    for module in modules {
        let table = table_of(alloc, module)?;
        tables.push(table)?;
    }
    Ok(tables)
}

impl Table {
    /// Whether the module exports a function of this name and arity and has it.
    pub(crate) fn defines(&self, alloc: Global, name: &Name, arity: u32) -> Result<bool, AllocError>
        ensures { IfOk result (λ defined. defined ≡ (contains same_key self.now.exports (name.now, arity) && contains same_key self.now.functions (name.now, arity))) }
    {
        let key = (name.copy(alloc)?, arity);
        Ok(self.exports.contains(&key) && self.functions.contains(&key))
    }
}

impl Index {
    /// What is looked up of these modules, made once for all of them.
    pub fn new(alloc: Global, modules: &[Module]) -> Result<Index, AllocError>
        requires few { length modules.now < 2 ^ 32 }
        ensures { IfOk result (IsIndexOf modules.now) }
    {
        let numbers = module_numbers(alloc, modules)?;
        let tables = tables_of(alloc, modules)?;
        Ok(Index { numbers, tables })
    }
}
