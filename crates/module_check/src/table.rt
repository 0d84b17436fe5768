// What is asked of modules in the profile.

ghost use Rattle.std.specs.Prelude.{◌≡◌, IfSome, None, Some, length, option_and_then, option_map};
ghost use Rattle.std.specs.Option.{option_copied};
ghost use Rattle.beam_code.specs.Function.{all_functions, function_at};
ghost use Rattle.module_check.specs.Checks.{IsAbout, IsEntryAt, IsHandlerAt, IsStackAt, IsTableOf, first_of, standing_in};

use crate::entry::Entry;
use beam_code::{Function, HandlerKind, Module};
use function_check::Standing;
use sqlite_items::Items;

/// What is kept of the functions of modules in the profile. They are numbered from 0 in the order
/// of the modules and of their functions.
#[derive(Drop)]
pub struct FunctionTable {
    pub(crate) entries: Items<Entry>,
}

/// How paths stand at an item, of what is kept of a function.
fn standing_at(entry: &Entry, item: u32) -> Option<Standing>
    ensures { result ≡ standing_in entry.now.standings item }
{
    match entry.standings.get(item as usize) {
        None => None,
        Some(standing) => *standing,
    }
}

fn stack_at(entry: &Entry, item: u32) -> Option<Option<u32>>
    ensures { result ≡ option_and_then (λ s. Some s.stack) (standing_in entry.now.standings item) }
{
    match standing_at(entry, item) {
        None => None,
        Some(standing) => Some(standing.stack),
    }
}

fn handler_at(entry: &Entry, item: u32) -> Option<(u32, HandlerKind)>
    ensures { result ≡ option_and_then (λ s. s.handler) (standing_in entry.now.standings item) }
{
    match standing_at(entry, item) {
        None => None,
        Some(standing) => standing.handler,
    }
}

impl FunctionTable {
    /// How many functions these modules have.
    pub fn functions(&self, modules: &[Module]) -> u32
        requires { IsTableOf modules.now self.now }
        ensures { result ≡ length (all_functions modules.now) }
    {
        let _ = &modules;
        self.entries.len() as u32
    }

    /// What is kept of a function.
    fn entry(&self, modules: &[Module], fid: u32) -> Option<&Entry>
        requires { IsTableOf modules.now self.now }
        ensures some { IfSome result (λ e. IsEntryAt modules.now fid e.now) }
        ensures none { result ≡ None → function_at modules.now fid ≡ None }
    {
        let _ = &modules;
        self.entries.get(fid as usize)
    }

    /// The module of a function.
    pub fn module_of<'a>(&self, modules: &'a [Module], fid: u32) -> Option<&'a Module>
        requires { IsTableOf modules.now self.now }
        ensures { option_copied result ≡ option_map (λ f. f.owner) (function_at modules.now fid) }
    {
        match self.entry(modules, fid) {
            None => None,
            Some(entry) => modules.get(entry.owner as usize),
        }
    }

    /// The function of this number.
    pub fn function<'a>(&self, modules: &'a [Module], fid: u32) -> Option<&'a Function>
        requires { IsTableOf modules.now self.now }
        ensures { option_copied result ≡ option_map (λ f. f.function) (function_at modules.now fid) }
    {
        match self.entry(modules, fid) {
            None => None,
            Some(entry) => match modules.get(entry.owner as usize) {
                None => None,
                Some(module) => module.functions.as_slice().get(entry.place as usize),
            },
        }
    }

    /// How many items the functions before this one have together.
    pub fn first_item(&self, modules: &[Module], fid: u32) -> Option<u32>
        requires { IsTableOf modules.now self.now }
        ensures { result ≡ first_of modules.now fid (function_at modules.now fid) }
    {
        match self.entry(modules, fid) {
            None => None,
            Some(entry) => Some(entry.first_item),
        }
    }

    /// How many y registers every path carries to an item of a function, or `None` within for no
    /// stack; `None` where no path comes to the item, or there is no such one.
    pub fn stack(&self, modules: &[Module], fid: u32, item: u32) -> Option<Option<u32>>
        requires { IsTableOf modules.now self.now }
        ensures { IsAbout modules.now fid (λ f. IsStackAt modules.now f item result) result }
    {
        match self.entry(modules, fid) {
            None => None,
            Some(entry) => stack_at(entry, item),
        }
    }

    /// The item of the label of the lowest tag that every path carries to an item of a function,
    /// and its kind; `None` where there is no tag, no path comes to the item, or there is no such
    /// one.
    pub fn handler(&self, modules: &[Module], fid: u32, item: u32) -> Option<(u32, HandlerKind)>
        requires { IsTableOf modules.now self.now }
        ensures { IsAbout modules.now fid (λ f. IsHandlerAt modules.now f item result) result }
    {
        match self.entry(modules, fid) {
            None => None,
            Some(entry) => handler_at(entry, item),
        }
    }
}
