//! Modules of `beam_check`: which rule they break and where, limits, and what is asked of modules that break none.

use crate::rows_of_rules;
use beam_check::{CheckRefusal, Checked, check};
use beam_code::{HandlerKind, MOST_TEXT_BYTES, Module};
use beam_profile::read_module;
use sqlite_items::Items;
use std::alloc::{AllocError, Global};
use std::marker::Model;
use std::test::Fail;
use term_tree::Name;

/// Modules, each that of its own text.
#[derive(Drop)]
struct Modules {
    list: Items<Module>,
}

impl Model for Modules {
    ghost use Rattle.std.specs.Coded.{coded_list};
    ghost use Rattle.std.specs.Prelude.{List};
    ghost use Rattle.beam_code.specs.contracts.module.Module.{the_row};
    ghost use Rattle.beam_code.specs.declared.module.Module.{Module};
    ghost use Rattle.beam_check.specs.Texts.{AreOfTheirTexts};

    ghost Value = { List Module };

    ghost coded = { coded_list the_row.coded };

    ghost view = { λ modules. modules.list };

    ghost invariant = { λ modules. AreOfTheirTexts modules.list };
}

impl Modules {
    #[tactic(auto, using(beam_check::proofs::Texts::none))]
    fn new(alloc: Global) -> Modules {
        Modules {
            list: Items::new(alloc),
        }
    }

    /// Adds the module of a text.
    #[tactic(auto, using(beam_check::proofs::Texts::added))]
    fn add(&mut self, alloc: Global, text: &str) -> Result<(), Fail> {
        let text = Items::from_slice(alloc, text.as_bytes())?;
        if text.len() > MOST_TEXT_BYTES {
            return Err(Fail::from(AllocError));
        }
        let module = read_module(alloc, text)?;
        self.list.push(module)?;
        Ok(())
    }

    fn check(self, alloc: Global) -> Result<Checked, CheckRefusal> {
        let Modules { list } = self;
        check(alloc, list)
    }
}

/// A module with a function g of one argument, with these items behind the label 4, and one f of two, with these behind
/// the label 2.
fn text_of(alloc: Global, name: &str, g: &str, f: &str) -> Result<String, AllocError> {
    format!(in alloc;
        "{{module,{name}}}. {{exports,[{{f,2}}]}}. {{attributes,[]}}. {{labels,9}}. {{function,g,1,4}}. {{label,3}}. {{func_info,{{atom,{name}}},{{atom,g}},1}}. {{label,4}}. {g} {{function,f,2,2}}. {{label,1}}. {{func_info,{{atom,{name}}},{{atom,f}},2}}. {{label,2}}. {f}"
    )
}

fn refused(alloc: Global, refusal: CheckRefusal) -> Result<String, AllocError> {
    match refusal {
        CheckRefusal::Duplicate { module } => format!(in alloc; "Duplicate {}", module.as_str()),
        CheckRefusal::TooMany => String::from_str(alloc, "TooMany"),
        CheckRefusal::Broken {
            rule,
            module,
            function,
            arity,
            item,
        } => {
            format!(in alloc;
                "{rule:?} {item} of {}:{}/{arity}",
                module.as_str(),
                function.as_str()
            )
        }
        CheckRefusal::Memory(_) => String::from_str(alloc, "Memory"),
    }
}

/// What is said of modules.
fn said(alloc: Global, modules: Modules) -> Result<String, AllocError> {
    match modules.check(alloc) {
        Ok(_) => String::from_str(alloc, "ok"),
        Err(refusal) => refused(alloc, refusal),
    }
}

/// What is said of the module of a text.
fn said_of(alloc: Global, text: &str) -> Result<String, Fail> {
    let mut modules = Modules::new(alloc);
    modules.add(alloc, text)?;
    Ok(said(alloc, modules)?)
}

/// What is said of such functions, where it is something else.
fn off(alloc: Global, g: &str, f: &str, wanted: &str) -> Result<Option<String>, Fail> {
    let text = text_of(alloc, "m", g, f)?;
    let found = said_of(alloc, text.as_str())?;
    if found.as_str() == wanted {
        Ok(None)
    } else {
        Ok(Some(format!(in alloc; "{} of {f}", found.as_str())?))
    }
}

/// Whether such a function breaks a rule at this item, and the other none: else what is said.
fn row_off(
    alloc: Global,
    rule: &str,
    broken: &str,
    item: u32,
    kept: &str,
) -> Result<Option<String>, Fail> {
    let wanted = format!(in alloc; "{rule} {item} of m:f/2")?;
    if let Some(found) = off(alloc, "return.", broken, wanted.as_str())? {
        return Ok(Some(found));
    }
    off(alloc, "return.", kept, "ok")
}

/// What is said of the first row of which something else is said.
fn first_off(alloc: Global, rule: &str, rows: &[(&str, u32, &str)]) -> Result<String, Fail> {
    for row in rows {
        let (broken, item, kept) = *row;
        if let Some(found) = row_off(alloc, rule, broken, item, kept)? {
            return Ok(found);
        }
    }
    Ok(String::new(alloc))
}

/// The rules, each with its rows.
const RULES: [(&str, &[(&str, u32, &str)]); 9] = [
    ("FallsOff", &rows_of_rules::FALLS_OFF),
    ("CallTarget", &rows_of_rules::CALL_TARGET),
    ("BadHandler", &rows_of_rules::BAD_HANDLER),
    ("Loop", &rows_of_rules::LOOP),
    ("StackSize", &rows_of_rules::STACK_SIZE),
    ("TagState", &rows_of_rules::TAG_STATE),
    ("TagOrder", &rows_of_rules::TAG_ORDER),
    ("Undefined", &rows_of_rules::UNDEFINED),
    ("HeapUncovered", &rows_of_rules::HEAP_UNCOVERED),
];

#[test]
fn rules(rt: HostRuntime) -> Result<(), Fail> {
    for row in RULES.iter() {
        let (rule, rows) = *row;
        let off = first_off(rt.alloc(), rule, rows)?;
        assert_eq!(rt; off.as_str(), "", "{rule}");
    }
    Ok(())
}

/// Items of g, items of f, and what is said of both.
const ORDER: [(&str, &str, &str); 21] = [
    // one of two paths leaves x1 undefined; and none reads it
    (
        "{test,is_atom,{f,5},[{x,0}]}. {move,{integer,1},{x,1}}. {label,5}. {move,{x,1},{x,0}}. return.",
        "return.",
        "Undefined 6 of m:g/1",
    ),
    (
        "{test,is_atom,{f,5},[{x,0}]}. {move,{integer,1},{x,1}}. {label,5}. {move,{x,0},{x,0}}. return.",
        "return.",
        "ok",
    ),
    // all nine rules are broken, and then one less in each row
    (
        "return.",
        "{put_list,{x,0},{x,1},{x,0}}. {move,{x,2},{x,1}}. {allocate,2,2}. {'catch',{y,0},{f,5}}. {'catch',{y,1},{f,6}}. {kill,{y,1}}. {label,5}. {catch_end,{y,0}}. {label,6}. {catch_end,{y,1}}. {deallocate,1}. {test,is_atom,{f,2},[{x,0}]}. {'try',{y,0},{f,1}}. {call,2,{f,4}}. {move,{x,0},{x,1}}.",
        "FallsOff 17 of m:f/2",
    ),
    (
        "return.",
        "{put_list,{x,0},{x,1},{x,0}}. {move,{x,2},{x,1}}. {allocate,2,2}. {'catch',{y,0},{f,5}}. {'catch',{y,1},{f,6}}. {kill,{y,1}}. {label,5}. {catch_end,{y,0}}. {label,6}. {catch_end,{y,1}}. {deallocate,1}. {test,is_atom,{f,2},[{x,0}]}. {'try',{y,0},{f,1}}. {call,2,{f,4}}. return.",
        "CallTarget 16 of m:f/2",
    ),
    (
        "return.",
        "{put_list,{x,0},{x,1},{x,0}}. {move,{x,2},{x,1}}. {allocate,2,2}. {'catch',{y,0},{f,5}}. {'catch',{y,1},{f,6}}. {kill,{y,1}}. {label,5}. {catch_end,{y,0}}. {label,6}. {catch_end,{y,1}}. {deallocate,1}. {test,is_atom,{f,2},[{x,0}]}. {'try',{y,0},{f,1}}. {call,1,{f,4}}. return.",
        "BadHandler 15 of m:f/2",
    ),
    (
        "return.",
        "{put_list,{x,0},{x,1},{x,0}}. {move,{x,2},{x,1}}. {allocate,2,2}. {'catch',{y,0},{f,5}}. {'catch',{y,1},{f,6}}. {kill,{y,1}}. {label,5}. {catch_end,{y,0}}. {label,6}. {catch_end,{y,1}}. {deallocate,1}. {test,is_atom,{f,2},[{x,0}]}. {call,1,{f,4}}. return.",
        "Loop 2 of m:f/2",
    ),
    (
        "return.",
        "{put_list,{x,0},{x,1},{x,0}}. {move,{x,2},{x,1}}. {allocate,2,2}. {'catch',{y,0},{f,5}}. {'catch',{y,1},{f,6}}. {kill,{y,1}}. {label,5}. {catch_end,{y,0}}. {label,6}. {catch_end,{y,1}}. {deallocate,1}. {call,1,{f,4}}. return.",
        "StackSize 13 of m:f/2",
    ),
    (
        "return.",
        "{put_list,{x,0},{x,1},{x,0}}. {move,{x,2},{x,1}}. {allocate,2,2}. {'catch',{y,0},{f,5}}. {'catch',{y,1},{f,6}}. {kill,{y,1}}. {label,5}. {catch_end,{y,0}}. {label,6}. {catch_end,{y,1}}. {deallocate,2}. {call,1,{f,4}}. return.",
        "TagState 8 of m:f/2",
    ),
    (
        "return.",
        "{put_list,{x,0},{x,1},{x,0}}. {move,{x,2},{x,1}}. {allocate,2,2}. {'catch',{y,0},{f,5}}. {'catch',{y,1},{f,6}}. {label,5}. {catch_end,{y,0}}. {label,6}. {catch_end,{y,1}}. {deallocate,2}. {call,1,{f,4}}. return.",
        "TagOrder 7 of m:f/2",
    ),
    (
        "return.",
        "{put_list,{x,0},{x,1},{x,0}}. {move,{x,2},{x,1}}. {allocate,2,2}. {'catch',{y,1},{f,6}}. {'catch',{y,0},{f,5}}. {label,5}. {catch_end,{y,0}}. {label,6}. {catch_end,{y,1}}. {deallocate,2}. {call,1,{f,4}}. return.",
        "Undefined 4 of m:f/2",
    ),
    (
        "return.",
        "{put_list,{x,0},{x,1},{x,0}}. {allocate,2,2}. {'catch',{y,1},{f,6}}. {'catch',{y,0},{f,5}}. {label,5}. {catch_end,{y,0}}. {label,6}. {catch_end,{y,1}}. {deallocate,2}. {call,1,{f,4}}. return.",
        "HeapUncovered 3 of m:f/2",
    ),
    (
        "return.",
        "{test_heap,2,2}. {put_list,{x,0},{x,1},{x,0}}. {allocate,2,2}. {'catch',{y,1},{f,6}}. {'catch',{y,0},{f,5}}. {label,5}. {catch_end,{y,0}}. {label,6}. {catch_end,{y,1}}. {deallocate,2}. {call,1,{f,4}}. return.",
        "ok",
    ),
    // the lower function
    (
        "{put_list,{x,0},{x,0},{x,0}}. return.",
        "",
        "HeapUncovered 3 of m:g/1",
    ),
    // a step back that one path makes, which another path ended before in the row of `StackSize`
    (
        "return.",
        "{test,is_atom,{f,5},[{x,0}]}. {allocate,1,1}. {jump,{f,6}}. {label,5}. {label,6}. {jump,{f,5}}.",
        "Loop 6 of m:f/2",
    ),
    // a tail call raises to a handler that falls off, or does not raise, and finds a stack
    (
        "return.",
        "{allocate,1,1}. {'catch',{y,0},{f,5}}. {call_ext_only,1,{extfunc,m,g,1}}. {label,5}. {catch_end,{y,0}}.",
        "FallsOff 7 of m:f/2",
    ),
    (
        "return.",
        "{allocate,1,2}. {'catch',{y,0},{f,5}}. {call_ext_only,2,{extfunc,m,f,2}}. {label,5}. {catch_end,{y,0}}.",
        "StackSize 5 of m:f/2",
    ),
    (
        "return.",
        "{allocate,1,1}. {'catch',{y,0},{f,5}}. {call_ext_only,1,{extfunc,k,g,1}}. {label,5}. {catch_end,{y,0}}.",
        "StackSize 5 of m:f/2",
    ),
    (
        "return.",
        "{allocate,1,1}. {'catch',{y,0},{f,5}}. {call_ext_only,1,{extfunc,erlang,abs,1}}. {label,5}. {catch_end,{y,0}}.",
        "FallsOff 7 of m:f/2",
    ),
    (
        "return.",
        "{allocate,1,1}. {'catch',{y,0},{f,5}}. {call_ext_only,1,{extfunc,erlang,is_atom,1}}. {label,5}. {catch_end,{y,0}}.",
        "StackSize 5 of m:f/2",
    ),
    (
        "return.",
        "{allocate,1,1}. {'catch',{y,0},{f,5}}. {call_only,1,{f,4}}. {label,5}. {catch_end,{y,0}}.",
        "StackSize 5 of m:f/2",
    ),
    (
        "return.",
        "{allocate,1,1}. {'catch',{y,0},{f,5}}. {jump,{f,6}}. {label,6}. if_end. {label,5}. {catch_end,{y,0}}.",
        "FallsOff 9 of m:f/2",
    ),
];

#[test]
fn earlier_rules_and_functions_first(rt: HostRuntime) -> Result<(), Fail> {
    for row in ORDER.iter() {
        let (g, f, wanted) = *row;
        if let Some(found) = off(rt.alloc(), g, f, wanted)? {
            assert_eq!(rt; found.as_str(), wanted);
        }
    }
    Ok(())
}

/// What is said of four modules of these names, with these items of f.
fn said_of_four(alloc: Global, names: &[&str], f: &str) -> Result<String, Fail> {
    let mut modules = Modules::new(alloc);
    for name in names {
        let text = text_of(alloc, name, "return.", f)?;
        modules.add(alloc, text.as_str())?;
    }
    Ok(said(alloc, modules)?)
}

/// Names of modules, items of f of each, and what is said.
const NAMES: [([&str; 4], &str, &str); 6] = [
    (["a", "b", "c", "d"], "return.", "ok"),
    (["a", "b", "a", "b"], "return.", "Duplicate a"),
    (["a", "b", "b", "a"], "return.", "Duplicate b"),
    (["a", "b", "c", "a"], "return.", "Duplicate a"),
    (["b", "a", "c", "d"], "", "FallsOff 2 of b:f/2"),
    (["b", "a", "c", "c"], "", "Duplicate c"),
];

#[test]
fn two_of_one_name(rt: HostRuntime) -> Result<(), Fail> {
    for row in NAMES.iter() {
        let (names, f, wanted) = *row;
        let found = said_of_four(rt.alloc(), &names, f)?;
        assert_eq!(rt; found.as_str(), wanted);
    }
    Ok(())
}

/// Items of f of 16,128 units behind a `return`, and these. With the five units of its beginning and the `return` 250
/// are left.
fn filled(alloc: Global, last: &str) -> Result<String, AllocError> {
    let mut items = String::from_str(alloc, "return. ")?;
    for _ in 0..63 {
        items.push_str("{call_only,255,{f,77}}. ")?;
    }
    items.push_str(last)?;
    Ok(items)
}

/// The last items of f, and what is said.
const UNITS: [(&str, &str); 10] = [
    ("{call_only,249,{f,77}}.", "ok"),
    ("{call_only,250,{f,77}}.", "TooMany"),
    ("{call_only,247,{f,77}}. {move,{x,0},{x,1}}. return.", "ok"),
    (
        "{call_only,247,{f,77}}. {move,{x,0},{x,1}}. {line,[]}. return.",
        "TooMany",
    ),
    (
        "{call_ext,247,{extfunc,k,g,0}}. {put_tuple2,{x,0},{list,[nil]}}.",
        "ok",
    ),
    (
        "{call_ext,247,{extfunc,k,g,0}}. {put_tuple2,{x,0},{list,[nil,nil]}}.",
        "TooMany",
    ),
    (
        "{call,244,{f,4}}. {select_val,{x,0},{f,1},{list,[{atom,a},{f,1},{integer,1},{f,1}]}}.",
        "ok",
    ),
    (
        "{call,245,{f,4}}. {select_tuple_arity,{x,0},{f,1},{list,[1,{f,1},2,{f,1}]}}.",
        "TooMany",
    ),
    ("{call,239,{f,4}}. {func_info,{atom,a},{atom,b},9}.", "ok"),
    (
        "{call,239,{f,4}}. {func_info,{atom,a},{atom,b},10}.",
        "TooMany",
    ),
];

#[test]
fn units_of_a_function(rt: HostRuntime) -> Result<(), Fail> {
    for row in UNITS.iter() {
        let (last, wanted) = *row;
        let items = filled(rt.alloc(), last)?;
        let found = off(rt.alloc(), "return.", items.as_str(), wanted)?;
        assert!(rt; found.is_none(), "{last}");
    }
    Ok(())
}

/// Adds a module whose number is in its name, with such an f and the five units of g.
fn add_filled(alloc: Global, modules: &mut Modules, number: u32, last: &str) -> Result<(), Fail> {
    let name = format!(in alloc; "m{number}")?;
    let items = filled(alloc, last)?;
    let text = text_of(alloc, name.as_str(), "return.", items.as_str())?;
    modules.add(alloc, text.as_str())
}

/// What is said of 15 modules of 16,384 units, and one with these last items of f.
fn said_of_sixteen(alloc: Global, last: &str) -> Result<String, Fail> {
    let mut modules = Modules::new(alloc);
    for number in 0..15 {
        add_filled(alloc, &mut modules, number, "{call_only,244,{f,77}}.")?;
    }
    add_filled(alloc, &mut modules, 15, last)?;
    Ok(said(alloc, modules)?)
}

#[test]
fn units_of_all(rt: HostRuntime) -> Result<(), Fail> {
    let most = said_of_sixteen(rt.alloc(), "{call_only,244,{f,77}}.")?;
    assert_eq!(rt; most.as_str(), "ok");
    let more = said_of_sixteen(rt.alloc(), "{call_only,245,{f,77}}.")?;
    assert_eq!(rt; more.as_str(), "TooMany");
    Ok(())
}

/// Adds a module without functions, whose number is in its name.
fn add_empty(alloc: Global, modules: &mut Modules, number: u32) -> Result<(), Fail> {
    let text = format!(in alloc;
        "{{module,m{number}}}. {{exports,[]}}. {{attributes,[]}}. {{labels,1}}."
    )?;
    modules.add(alloc, text.as_str())
}

/// What is said of so many modules, and one more of this number.
fn said_of_many(alloc: Global, count: u32, last: u32) -> Result<String, Fail> {
    let mut modules = Modules::new(alloc);
    for number in 0..count {
        add_empty(alloc, &mut modules, number)?;
    }
    add_empty(alloc, &mut modules, last)?;
    Ok(said(alloc, modules)?)
}

/// How many modules, the number of one more, and what is said of them.
const MODULES: [(u32, u32, &str); 3] = [
    (16_383, 16_383, "ok"),
    (16_384, 16_384, "TooMany"),
    (16_384, 77, "Duplicate m77"),
];

#[test]
fn modules_of_one_command(rt: HostRuntime) -> Result<(), Fail> {
    for row in MODULES.iter() {
        let (count, last, wanted) = *row;
        let found = said_of_many(rt.alloc(), count, last)?;
        assert_eq!(rt; found.as_str(), wanted);
    }
    Ok(())
}

/// Adds a test whose ways each define one of two registers. It has six items.
fn put_ways(items: &mut String, number: u8) -> Result<(), AllocError> {
    let twice = 2 * u32::from(number);
    let (one, other, aside, joined) = (twice + 2, twice + 3, twice + 6, twice + 7);
    write!(
        items,
        "{{test,is_atom,{{f,{aside}}},[{{x,0}}]}}. {{move,{{x,0}},{{x,{one}}}}}. {{jump,{{f,{joined}}}}}. {{label,{aside}}}. {{move,{{x,0}},{{x,{other}}}}}. {{label,{joined}}}. "
    )
}

/// So many such tests, and items behind them.
fn ways(alloc: Global, count: u8, behind: &str) -> Result<String, AllocError> {
    let mut items = String::new(alloc);
    for number in 0..count {
        put_ways(&mut items, number)?;
    }
    items.push_str(behind)?;
    Ok(items)
}

/// An item that reads the registers of so many such tests.
fn reader(alloc: Global, count: u8) -> Result<String, AllocError> {
    let mut item = String::from_str(alloc, "{put_tuple2,{x,0},{list,[")?;
    for number in 2..2 * u32::from(count) + 2 {
        write!(item, "{{x,{number}}},")?;
    }
    item.push_str("{x,0}]}}. return.")?;
    Ok(item)
}

/// What is said of so many such tests, whose registers are read behind them.
fn said_of_ways(alloc: Global, count: u8) -> Result<String, Fail> {
    let behind = reader(alloc, count)?;
    let items = ways(alloc, count, behind.as_str())?;
    let text = text_of(alloc, "m", "return.", items.as_str())?;
    said_of(alloc, text.as_str())
}

/// How many tests, and what is said. k tests come to 8 * 2^k - 6 k - 8 states that are not the first of their item: 2 for
/// one, 974 for 7, 65,450 for 13, 130,980 for 14. The last has more than a search keeps.
const STATES: [(u8, &str); 4] = [
    (1, "Undefined 9 of m:f/2"),
    (7, "Undefined 45 of m:f/2"),
    (13, "Undefined 81 of m:f/2"),
    (14, "Memory"),
];

#[test]
fn many_states(rt: HostRuntime) -> Result<(), Fail> {
    for row in STATES.iter() {
        let (count, wanted) = *row;
        let found = said_of_ways(rt.alloc(), count)?;
        assert_eq!(rt; found.as_str(), wanted);
    }
    Ok(())
}

/// What is defined and not read makes no states.
#[test]
fn ways_that_nothing_reads(rt: HostRuntime) -> Result<(), Fail> {
    let items = ways(rt.alloc(), 120, "return.")?;
    let found = off(rt.alloc(), "return.", items.as_str(), "ok")?;
    assert!(rt; found.is_none());
    Ok(())
}

/// A function with nested tags, its items from 3 on.
const NESTED: &str =
    "{allocate,2,2}. {'try',{y,1},{f,5}}. {'catch',{y,0},{f,6}}. {call,1,{f,4}}. {label,6}. {catch_end,{y,0}}. {call,1,{f,4}}. {try_end,{y,1}}. {trim,1,1}. {deallocate,1}. return. {move,{x,0},{x,1}}. {label,5}. {try_case,{y,1}}. {deallocate,2}. return.";

/// What is kept of its items from 0 on, and of one past them: `-` where no path comes, `n` for no stack, else the number
/// of y registers; then the kind and the item of the handler.
const KEPT: &str =
    "- - n n 2 2Try15 2Catch7 2Catch7 2Catch7 2Try15 2Try15 2 1 n - 2Try15 2Try15 2 n - ";

/// Two modules: the functions m:g/1 of 4 items, m:f/2 of 19, k:g/1 of 4 and k:f/2 of 4.
fn checked(alloc: Global) -> Result<Checked, Fail> {
    let mut modules = Modules::new(alloc);
    let text = text_of(alloc, "m", "return.", NESTED)?;
    modules.add(alloc, text.as_str())?;
    let text = text_of(alloc, "k", "return.", "return.")?;
    modules.add(alloc, text.as_str())?;
    Ok(modules.check(alloc)?)
}

fn put_stack(out: &mut String, stack: Option<Option<u16>>) -> Result<(), AllocError> {
    match stack {
        None => out.push('-'),
        Some(None) => out.push('n'),
        Some(Some(size)) => write!(out, "{size}"),
    }
}

fn put_handler(out: &mut String, handler: Option<(u32, HandlerKind)>) -> Result<(), AllocError> {
    match handler {
        None => out.push(' '),
        Some((item, kind)) => write!(out, "{kind:?}{item} "),
    }
}

/// What is kept of the first items of a function.
fn kept(alloc: Global, checked: &Checked, fid: u32, count: u32) -> Result<String, AllocError> {
    let mut out = String::new(alloc);
    for item in 0..count {
        put_stack(&mut out, checked.stack(fid, item))?;
        put_handler(&mut out, checked.handler(fid, item))?;
    }
    Ok(out)
}

#[test]
fn stacks_and_handlers(rt: HostRuntime) -> Result<(), Fail> {
    let checked = checked(rt.alloc())?;
    let nested = kept(rt.alloc(), &checked, 1, 20)?;
    assert_eq!(rt; nested.as_str(), KEPT);
    let last = kept(rt.alloc(), &checked, 3, 5)?;
    assert_eq!(rt; last.as_str(), "- - n n - ");
    let none = kept(rt.alloc(), &checked, 4, 3)?;
    assert_eq!(rt; none.as_str(), "- - - ");
    Ok(())
}

fn put_function(out: &mut String, checked: &Checked, fid: u32) -> Result<(), AllocError> {
    let Some(module) = checked.module_of(fid) else {
        return out.push_str("no module, ");
    };
    let Some(function) = checked.function(fid) else {
        return out.push_str("no function, ");
    };
    let first = checked.first_item(fid);
    write!(
        out,
        "{}:{}/{} {first:?}, ",
        module.name.as_str(),
        function.name.as_str(),
        function.arity
    )
}

#[test]
fn functions_by_number(rt: HostRuntime) -> Result<(), Fail> {
    let checked = checked(rt.alloc())?;
    let mut out = String::new(rt.alloc());
    for fid in 0..5 {
        put_function(&mut out, &checked, fid)?;
    }
    assert_eq!(rt;
        out.as_str(),
        "m:g/1 Some(0), m:f/2 Some(4), k:g/1 Some(23), k:f/2 Some(27), no module, "
    );
    assert_eq!(rt; checked.modules().len(), 2);
    assert_eq!(rt; checked.functions(), 4);
    assert_eq!(rt; checked.first_item(4), None);
    Ok(())
}

/// A module, a name and an arity; the number of the function, and of the one that is exported.
const FOUND: [(&str, &str, u8, Option<u32>, Option<u32>); 9] = [
    ("m", "g", 1, Some(0), None),
    ("m", "f", 2, Some(1), Some(1)),
    ("k", "g", 1, Some(2), None),
    ("k", "f", 2, Some(3), Some(3)),
    ("m", "f", 1, None, None),
    ("m", "g", 2, None, None),
    ("k", "h", 2, None, None),
    ("f", "f", 2, None, None),
    ("", "", 0, None, None),
];

/// The numbers of the function of a name.
fn numbers(
    alloc: Global,
    checked: &Checked,
    owner: &str,
    name: &str,
    arity: u8,
) -> Result<(Option<u32>, Option<u32>), Fail> {
    let owner = Name::new(alloc, owner)?;
    let name = Name::new(alloc, name)?;
    Ok((
        checked.find(&owner, &name, arity),
        checked.exported(&owner, &name, arity),
    ))
}

#[test]
fn functions_by_name(rt: HostRuntime) -> Result<(), Fail> {
    let checked = checked(rt.alloc())?;
    for row in FOUND.iter() {
        let (owner, name, arity, find, exported) = *row;
        let found = numbers(rt.alloc(), &checked, owner, name, arity)?;
        assert_eq!(rt; found, (find, exported));
    }
    Ok(())
}
