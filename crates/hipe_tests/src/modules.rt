//! Modules of `beam_profile`: what single forms are read as, and what whole texts are.

use crate::{rows_of_data, rows_of_flow};
use asm_text::TextRefusal;
use beam_code::{Function, Functions, MOST_TEXT_BYTES};
use beam_profile::{ModuleRefusal, read_module};
use sqlite_items::Items;
use std::alloc::{AllocError, Global};
use std::test::Fail;

/// A text whose ninth line is this form, behind the beginning of a function.
fn text_of(alloc: Global, form: &str) -> Result<String, AllocError> {
    format!(in alloc;
        "{{module,m}}.\n{{exports,[]}}.\n{{attributes,[]}}.\n{{labels,3}}.\n{{function,f,0,2}}.\n{{label,1}}.\n{{func_info,{{atom,m}},{{atom,f}},0}}.\n{{label,2}}.\n{form}.\n"
    )
}

/// The refusal by its name, with its line, and the name of what is not supported.
fn refused(alloc: Global, refusal: ModuleRefusal) -> Result<String, AllocError> {
    match refusal {
        ModuleRefusal::Text(TextRefusal::Memory(e)) => Err(e),
        ModuleRefusal::Text(_) => String::from_str(alloc, "Text"),
        ModuleRefusal::Shape { line } => format!(in alloc; "Shape {line}"),
        ModuleRefusal::Unsupported { line, name } => {
            format!(in alloc; "Unsupported {} {line}", name.as_str())
        }
        ModuleRefusal::Register { line } => format!(in alloc; "Register {line}"),
        ModuleRefusal::Label { line } => format!(in alloc; "Label {line}"),
        ModuleRefusal::Memory(e) => Err(e),
    }
}

/// The fourth instruction of the first function.
fn fourth(alloc: Global, functions: &Functions) -> Result<String, AllocError> {
    let mut out = String::new(alloc);
    for function in functions.as_slice() {
        if let Some(item) = function.items.get(3) {
            write!(out, "{:?}", item.instr())?;
        }
    }
    Ok(out)
}

/// What a form is read as, or its refusal.
fn read_as(alloc: Global, form: &str) -> Result<String, AllocError> {
    let text = text_of(alloc, form)?;
    let text = Items::from_slice(alloc, text.as_bytes())?;
    if text.len() > MOST_TEXT_BYTES {
        return Ok(String::new(alloc));
    }
    match read_module(alloc, text) {
        Ok(module) => fourth(alloc, &module.functions),
        Err(refusal) => refused(alloc, refusal),
    }
}

/// The first of these forms that is read as something else, with what it is read as.
fn first_off(alloc: Global, rows: &[(&str, &str)]) -> Result<String, AllocError> {
    for row in rows {
        let (form, wanted) = *row;
        let found = read_as(alloc, form)?;
        if found.as_str() != wanted {
            return format!(in alloc; "{form} is read as {}", found.as_str());
        }
    }
    Ok(String::new(alloc))
}

#[test]
fn reads_labels(rt: HostRuntime) -> Result<(), Fail> {
    assert_eq!(rt; first_off(rt.alloc(), &rows_of_data::LABELS)?.as_str(), "");
    Ok(())
}

#[test]
fn reads_beginnings(rt: HostRuntime) -> Result<(), Fail> {
    assert_eq!(rt;
        first_off(rt.alloc(), &rows_of_data::BEGINNINGS)?.as_str(),
        ""
    );
    Ok(())
}

#[test]
fn reads_moves(rt: HostRuntime) -> Result<(), Fail> {
    assert_eq!(rt; first_off(rt.alloc(), &rows_of_data::MOVES)?.as_str(), "");
    Ok(())
}

#[test]
fn reads_lists(rt: HostRuntime) -> Result<(), Fail> {
    assert_eq!(rt; first_off(rt.alloc(), &rows_of_data::LISTS)?.as_str(), "");
    Ok(())
}

#[test]
fn reads_tests(rt: HostRuntime) -> Result<(), Fail> {
    assert_eq!(rt; first_off(rt.alloc(), &rows_of_data::TESTS)?.as_str(), "");
    Ok(())
}

#[test]
fn reads_selections(rt: HostRuntime) -> Result<(), Fail> {
    assert_eq!(rt;
        first_off(rt.alloc(), &rows_of_flow::SELECTIONS)?.as_str(),
        ""
    );
    Ok(())
}

#[test]
fn reads_stacks(rt: HostRuntime) -> Result<(), Fail> {
    assert_eq!(rt; first_off(rt.alloc(), &rows_of_flow::STACKS)?.as_str(), "");
    Ok(())
}

#[test]
fn reads_calls(rt: HostRuntime) -> Result<(), Fail> {
    assert_eq!(rt; first_off(rt.alloc(), &rows_of_flow::CALLS)?.as_str(), "");
    Ok(())
}

#[test]
fn reads_built_ins(rt: HostRuntime) -> Result<(), Fail> {
    assert_eq!(rt;
        first_off(rt.alloc(), &rows_of_flow::BUILT_INS)?.as_str(),
        ""
    );
    Ok(())
}

#[test]
fn reads_exceptions(rt: HostRuntime) -> Result<(), Fail> {
    assert_eq!(rt;
        first_off(rt.alloc(), &rows_of_flow::EXCEPTIONS)?.as_str(),
        ""
    );
    Ok(())
}

#[test]
fn reads_others(rt: HostRuntime) -> Result<(), Fail> {
    assert_eq!(rt; first_off(rt.alloc(), &rows_of_flow::OTHERS)?.as_str(), "");
    Ok(())
}

fn put_function(out: &mut String, function: &Function) -> Result<(), AllocError> {
    let (name, arity, entry) = (function.name.as_str(), function.arity, function.entry);
    write!(
        out,
        ", {name}/{arity} from {entry} of {}",
        function.items.len()
    )
}

/// A module's name, and its functions with where each begins among how many items.
fn shown(alloc: Global, name: &str, functions: &Functions) -> Result<String, AllocError> {
    let mut out = String::from_str(alloc, name)?;
    for function in functions.as_slice() {
        put_function(&mut out, function)?;
    }
    Ok(out)
}

/// The module of a text, or the first refusal.
fn module_of(alloc: Global, text: &str) -> Result<String, AllocError> {
    let text = Items::from_slice(alloc, text.as_bytes())?;
    if text.len() > MOST_TEXT_BYTES {
        return Ok(String::new(alloc));
    }
    match read_module(alloc, text) {
        Ok(module) => shown(alloc, module.name.as_str(), &module.functions),
        Err(refusal) => refused(alloc, refusal),
    }
}

/// A text, and its module or its first refusal.
const TEXTS: [(&str, &str); 62] = [
    ("", "Shape 1"),
    ("\n% nothing\n", "Shape 1"),
    ("{module,m}.\n", "Shape 1"),
    ("\n{module,m}.\n{exports,[]}.\n", "Shape 3"),
    ("{module,m}.\n{exports,[]}.\n{attributes,[]}.\n", "Shape 3"),
    (
        "{module,m}. {exports,[]}. {attributes,[]}. {labels,1}.",
        "m",
    ),
    (
        "{module,'M x'}. {exports,[]}. {attributes,[{a,1}]}. {labels,0}.",
        "M x",
    ),
    (
        "{exports,[]}.\n{module,m}.\n{attributes,[]}.\n{labels,1}.\n",
        "Shape 1",
    ),
    (
        "{module,m}.\n{attributes,[]}.\n{exports,[]}.\n{labels,1}.\n",
        "Shape 2",
    ),
    ("{module,m}.\n{exports,[]}.\n{labels,1}.\n", "Shape 3"),
    (
        "{module,m}.\n{exports,[]}.\n{attributes,[]}.\n{function,f,0,2}.\n{label,1}.\n{func_info,{atom,m},{atom,f},0}.\n{label,2}.\n",
        "Shape 4",
    ),
    ("{module,1}.\n", "Shape 1"),
    ("{module,m,n}.\n", "Shape 1"),
    ("foo.\n", "Shape 1"),
    ("{module,m}.\n{exports,f}.\n", "Shape 2"),
    ("{module,m}.\n{exports,[f]}.\n", "Shape 2"),
    ("{module,m}.\n{exports,[{f,256}]}.\n", "Shape 2"),
    (
        "{module,m}.\n{exports,[{f,0}|x]}.\n{attributes,[]}.\n{labels,3}.\n{function,f,0,2}.\n{label,1}.\n{func_info,{atom,m},{atom,f},0}.\n{label,2}.\nreturn.\n",
        "Shape 2",
    ),
    (
        "{module,m}.\n{exports,[{f,1}]}.\n{attributes,[]}.\n{labels,3}.\n{function,f,0,2}.\n{label,1}.\n{func_info,{atom,m},{atom,f},0}.\n{label,2}.\nreturn.\n",
        "Shape 2",
    ),
    (
        "{module,m}.\n{exports,[{f,1}]}.\n{attributes,[]}.\n{labels,3}.\n{function,f,0,2}.\n{label,1}.\n{func_info,{atom,m},{atom,f},0}.\n{label,2}.\nfoo.\n",
        "Shape 2",
    ),
    (
        "{module,m}.\n{exports,[{f,0},{f,0}]}.\n{attributes,[]}.\n{labels,3}.\n{function,f,0,2}.\n{label,1}.\n{func_info,{atom,m},{atom,f},0}.\n{label,2}.\nreturn.\n",
        "m, f/0 from 2 of 4",
    ),
    (
        "{module,m}.\n{exports,[]}.\n{attributes,[]}.\n{labels,3}.\n{function,f,0,2}.\n{label,1}.\n{func_info,{atom,m},{atom,f},0}.\n{label,2}.\nreturn.\n",
        "m, f/0 from 2 of 4",
    ),
    (
        "{module,m}.\n{exports,[{f,0}]}.\n{function,f,0,2}.\n",
        "Shape 3",
    ),
    (
        "{module,m}.\n{exports,[]}.\n{attributes,[],[]}.\n",
        "Shape 3",
    ),
    (
        "{module,m}.\n{exports,[]}.\n{attributes,[]}.\n{labels,a}.\n",
        "Shape 4",
    ),
    (
        "{module,m}.\n{exports,[]}.\n{attributes,[]}.\n{labels,-1}.\n",
        "Shape 4",
    ),
    (
        "{module,m}.\n{exports,[]}.\n{attributes,[]}.\n{labels,3}.\nreturn.\n",
        "Shape 5",
    ),
    (
        "{module,m}.\n{exports,[]}.\n{attributes,[]}.\n{labels,3}.\nfoo.\n",
        "Shape 5",
    ),
    (
        "{module,m}.\n{exports,[]}.\n{attributes,[]}.\n{labels,3}.\n{labels,3}.\n",
        "Shape 5",
    ),
    (
        "{module,m}.\n{exports,[]}.\n{attributes,[]}.\n{labels,3}.\n{function,f,256,2}.\n",
        "Shape 5",
    ),
    (
        "{module,m}.\n{exports,[]}.\n{attributes,[]}.\n{labels,3}.\n{function,f,0,2}.\n",
        "Shape 5",
    ),
    (
        "{module,m}.\n{exports,[]}.\n{attributes,[]}.\n{labels,3}.\n{function,f,0,2}.\n{label,1}.\n",
        "Shape 6",
    ),
    (
        "{module,m}.\n{exports,[]}.\n{attributes,[]}.\n{labels,3}.\n{function,f,0,2}.\n{label,1}.\n{func_info,{atom,m},{atom,f},0}.\n",
        "Shape 7",
    ),
    (
        "{module,m}.\n{exports,[]}.\n{attributes,[]}.\n{labels,3}.\n{function,f,0,2}.\n{label,1}.\n{func_info,{atom,m},{atom,f},0}.\n{label,2}.\n",
        "m, f/0 from 2 of 3",
    ),
    (
        "{module,m}.\n{exports,[]}.\n{attributes,[]}.\n{labels,3}.\n{function,f,0,2}.\n{func_info,{atom,m},{atom,f},0}.\n{label,2}.\n",
        "Shape 6",
    ),
    (
        "{module,m}.\n{exports,[]}.\n{attributes,[]}.\n{labels,3}.\n{function,f,0,2}.\n{label,1}.\n{func_info,{atom,m},{atom,g},0}.\n{label,2}.\n",
        "Shape 7",
    ),
    (
        "{module,m}.\n{exports,[]}.\n{attributes,[]}.\n{labels,3}.\n{function,f,0,2}.\n{label,1}.\n{func_info,{atom,n},{atom,f},0}.\n{label,2}.\n",
        "Shape 7",
    ),
    (
        "{module,m}.\n{exports,[]}.\n{attributes,[]}.\n{labels,3}.\n{function,f,0,2}.\n{label,1}.\n{func_info,{atom,m},{atom,f},1}.\n{label,2}.\n",
        "Shape 7",
    ),
    (
        "{module,m}.\n{exports,[]}.\n{attributes,[]}.\n{labels,3}.\n{function,f,0,2}.\n{label,1}.\n{func_info,{atom,m},{atom,f},0}.\n{label,3}.\n",
        "Shape 8",
    ),
    (
        "{module,m}.\n{exports,[]}.\n{attributes,[]}.\n{labels,3}.\n{function,f,0,2}.\n{label,2}.\n{func_info,{atom,m},{atom,f},0}.\n{label,2}.\n",
        "Label 8",
    ),
    (
        "{module,m}.\n{exports,[]}.\n{attributes,[]}.\n{labels,3}.\n{function,f,0,2}.\n{line,1}.\n{label,1}.\n{'%',a}.\n{func_info,{atom,m},{atom,f},0}.\n{line,2}.\n{label,2}.\nreturn.\n",
        "m, f/0 from 5 of 7",
    ),
    (
        "{module,m}.\n{exports,[]}.\n{attributes,[]}.\n{labels,3}.\n{function,f,0,2}.\nfoo.\n",
        "Unsupported foo 6",
    ),
    (
        "{module,m}.\n{exports,[]}.\n{attributes,[]}.\n{labels,3}.\n{function,f,0,2}.\nreturn.\n",
        "Shape 6",
    ),
    (
        "{module,m}.\n{exports,[]}.\n{attributes,[]}.\n{labels,3}.\n{function,f,0,2}.\n{move,{x,256},{x,0}}.\n",
        "Shape 6",
    ),
    (
        "{module,m}.\n{exports,[]}.\n{attributes,[]}.\n{labels,3}.\n{function,f,0,2}.\n{label,1}.\n{func_info,{atom,m},{atom,f},0}.\n{label,2}.\n{module,m}.\n",
        "Unsupported module 9",
    ),
    (
        "{module,m}.\n{exports,[]}.\n{attributes,[]}.\n{labels,3}.\n{function,f,0,2}.\n{label,1}.\n{func_info,{atom,m},{atom,f},0}.\n{label,2}.\nreturn.\n{function,f,0,2}.\n{label,1}.\n{func_info,{atom,m},{atom,f},0}.\n{label,2}.\n",
        "Shape 10",
    ),
    (
        "{module,m}.\n{exports,[]}.\n{attributes,[]}.\n{labels,3}.\n{function,f,0,2}.\n{label,1}.\n{func_info,{atom,m},{atom,f},0}.\n{label,2}.\nreturn.\n{function,f,1,4}.\n{label,3}.\n{func_info,{atom,m},{atom,f},1}.\n{label,4}.\n{call,0,{f,2}}.\n",
        "m, f/0 from 2 of 4, f/1 from 2 of 4",
    ),
    (
        "{module,m}.\n{exports,[]}.\n{attributes,[]}.\n{labels,3}.\n{function,f,0,2}.\n{label,1}.\n{function,g,0,4}.\n",
        "Shape 7",
    ),
    (
        "{module,m}.\n{exports,[]}.\n{attributes,[]}.\n{labels,3}.\n{function,f,0,2}.\n{label,1}.\n{func_info,{atom,m},{atom,f},0}.\n{label,2}.\n{label,3}.\n{label,3}.\n",
        "Label 10",
    ),
    (
        "{module,m}.\n{exports,[]}.\n{attributes,[]}.\n{labels,3}.\n{function,f,0,2}.\n{label,1}.\n{func_info,{atom,m},{atom,f},0}.\n{label,2}.\nreturn.\n{function,g,0,4}.\n{label,1}.\n{func_info,{atom,m},{atom,g},0}.\n{label,4}.\n",
        "Label 11",
    ),
    (
        "{module,m}.\n{exports,[]}.\n{attributes,[]}.\n{labels,3}.\n{function,f,0,2}.\n{label,1}.\n{func_info,{atom,m},{atom,f},0}.\n{label,2}.\nreturn.\n{function,g,0,4}.\n{label,3}.\n{func_info,{atom,m},{atom,g},0}.\n{label,4}.\n{jump,{f,2}}.\n",
        "Label 14",
    ),
    (
        "{module,m}.\n{exports,[]}.\n{attributes,[]}.\n{labels,3}.\n{function,f,0,2}.\n{label,1}.\n{func_info,{atom,m},{atom,f},0}.\n{label,2}.\n{jump,{f,0}}.\n{jump,2}.\n",
        "Shape 10",
    ),
    (
        "{module,m}.\n{exports,[]}.\n{attributes,[]}.\n{labels,3}.\n{function,f,0,2}.\n{label,1}.\n{func_info,{atom,m},{atom,f},0}.\n{label,2}.\n{jump,{f,0}}.\n{label,1}.\n",
        "Label 9",
    ),
    (
        "{module,m}.\n{exports,[]}.\n{attributes,[]}.\n{labels,3}.\n{function,f,0,2}.\n{label,1}.\n{func_info,{atom,m},{atom,f},0}.\n{label,2}.\n{move,{x,256},{x,0}}.\nfoo.\n",
        "Register 9",
    ),
    (
        "{module,m}.\n{exports,[]}.\n{attributes,[]}.\n{labels,3}.\n{function,f,0,2}.\n{label,1}.\n{func_info,{atom,m},{atom,f},0}.\n{label,2}.\nfoo.\n{move,{x,256},{x,0}}.\n",
        "Unsupported foo 9",
    ),
    (
        "{module,m}.\n{exports,[]}.\n{attributes,[]}.\n{labels,3}.\n{function,f,0,2}.\n{label,1}.\n{func_info,{atom,m},{atom,f},0}.\n{label,2}.\n{move,{x,0}}.\nfoo.\n",
        "Shape 9",
    ),
    (
        "{module,m}.\n{exports,[]}.\n{attributes,[]}.\n{labels,3}.\n{function,f,0,0}.\n{label,1}.\n{func_info,{atom,m},{atom,f},0}.\n{label,0}.\nreturn.\n",
        "m, f/0 from 2 of 4",
    ),
    (
        "{module,m}.\n{exports,[]}.\n{attributes,[]}.\n{labels,3}.\n{function,f,255,2}.\n{label,1}.\n{func_info,{atom,m},{atom,f},255}.\n{label,2}.\nreturn.\n",
        "m, f/255 from 2 of 4",
    ),
    (
        "{module,m}.\n{exports,[]}.\n{attributes,[]}.\n{labels,3}.\n{function,f,0,2}.\n{label,1}.\n{func_info,{atom,m},{atom,f},0}.\n{label,2}.\n{func_info,{atom,k},{atom,g},9}.\n",
        "m, f/0 from 2 of 4",
    ),
    ("{module,m", "Text"),
    (
        "{module,m}.\n{exports,[]}.\n{attributes,[]}.\n{labels,3}.\n{function,f,0,2}.\n{label,1}.\n{func_info,{atom,m},{atom,f},0}.\n{label,2}.\nreturn",
        "Text",
    ),
    (
        "{module,m}.\n{exports,[]}.\n{attributes,[]}.\n{labels,3}.\n{function,f,0,2}.\n{label,1}.\n{func_info,{atom,m},{atom,f},0}.\n{label,2}.\n{move,{integer,134217728},{x,0}}.\nfoo.\n",
        "Text",
    ),
];

#[test]
fn tells_modules(rt: HostRuntime) -> Result<(), Fail> {
    for row in TEXTS.iter() {
        let (text, wanted) = *row;
        let found = module_of(rt.alloc(), text)?;
        assert_eq!(rt; found.as_str(), wanted, "{text}");
    }
    Ok(())
}
