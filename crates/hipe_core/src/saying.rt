//! What standard error is told.

ghost use Rattle.hipe_core.specs.Lines.{at_line, check_line, entry_text, flaw_name, function_text, image_line, image_with, kind_name, line_of, module_line, module_status, not_built_line, rule_name, status_of, text_line};
ghost use Rattle.hipe_core.specs.Saying.{Says};
ghost use Rattle.hipe_core.specs.Telling.{CanWant, Finishes, IsSayable};
ghost use Rattle.asm_text.specs.Entry.{entry_of};
ghost use Rattle.std.specs.Prelude.{◌≡◌, ◌++◌, IfOk, codes, decimal, is_some, string_bytes, true};

use crate::Ending;
use asm_text::{Kind, TextRefusal, read_entry};
use beam_check::{CheckRefusal, Rule};
use beam_profile::ModuleRefusal;
use hipe_base::{Sink, put};
use image_format::Flaw;
use native_link::ImageRefusal;
use std::alloc::{AllocError, Global};
use std::fmt::Write;
use term_tree::{Name, name_text};

/// Puts a piece, and says whether the sink took all of it.
pub fn put_piece<S: Sink>(sink: &mut S, bytes: &[u8]) -> bool
    ensures { Says result bytes.now (S.seen sink.old) (S.seen sink.new) }
{
    match put(sink, bytes) {
        Ok(()) => true,
        Err(_) => false,
    }
}

fn kind_name(kind: Kind) -> &'static str
    ensures { result.now ≡ kind_name kind }
{
    match kind {
        Kind::Float => "kind float",
        Kind::Based => "kind based",
        Kind::Character => "kind character",
        Kind::Binary => "kind binary",
        Kind::Map => "kind map",
    }
}

fn rule_name(rule: Rule) -> &'static str
    ensures { result.now ≡ rule_name rule }
{
    match rule {
        Rule::FallsOff => "falls_off",
        Rule::CallTarget => "call_target",
        Rule::BadHandler => "bad_handler",
        Rule::Loop => "loop",
        Rule::StackSize => "stack_size",
        Rule::TagState => "tag_state",
        Rule::TagOrder => "tag_order",
        Rule::Undefined => "undefined",
        Rule::HeapUncovered => "heap_uncovered",
    }
}

fn flaw_name(flaw: Flaw) -> &'static str
    ensures { result.now ≡ flaw_name flaw }
{
    match flaw {
        Flaw::Magic => "magic",
        Flaw::Version => "version",
        Flaw::Short => "short",
        Flaw::Count => "count",
        Flaw::Value => "value",
        Flaw::Order => "order",
        Flaw::Long => "long",
    }
}

/// About a line of a text.
fn at_line(alloc: Global, file: &str, line: u32, why: &str) -> Result<String, AllocError>
    ensures { IfOk result (λ t. string_bytes t ≡ at_line file.now line why.now) }
{
    let mut text = String::new(alloc);
    write!(text, "hipe: {file}:{line}: {why}\n")?;
    Ok(text)
}

fn text_line(alloc: Global, file: &str, refusal: &TextRefusal) -> Result<String, AllocError>
    ensures { IfOk result (λ t. string_bytes t ≡ text_line file.now refusal.now) }
{
    match refusal {
        TextRefusal::Syntax { line } => at_line(alloc, file, *line, "syntax"),
        TextRefusal::Wide { line } => at_line(alloc, file, *line, "wide"),
        TextRefusal::Deep { line } => at_line(alloc, file, *line, "deep"),
        TextRefusal::Kind { line, kind } => at_line(alloc, file, *line, kind_name(*kind)),
        TextRefusal::Memory(_) => String::from_str(alloc, "hipe: want of memory\n"),
    }
}

fn unsupported_text(alloc: Global, file: &str, line: u32, name: &str) -> Result<String, AllocError>
    ensures { IfOk result (λ t. string_bytes t ≡ at_line file.now line (codes "unsupported " ++ name.now)) }
{
    let mut text = String::new(alloc);
    write!(text, "hipe: {file}:{line}: unsupported {name}\n")?;
    Ok(text)
}

/// About an instruction that is none.
fn unsupported_line(alloc: Global, file: &str, line: u32, name: &Name) -> Result<String, AllocError>
    ensures { IfOk result (λ t. string_bytes t ≡ module_line file.now (ModuleRefusal.Unsupported line name.now)) }
{
    let name = name_text(alloc, name)?;
    unsupported_text(alloc, file, line, name.as_str())
}

fn module_line(alloc: Global, file: &str, refusal: &ModuleRefusal) -> Result<String, AllocError>
    ensures { IfOk result (λ t. string_bytes t ≡ module_line file.now refusal.now) }
{
    match refusal {
        ModuleRefusal::Text(refusal) => text_line(alloc, file, refusal),
        ModuleRefusal::Shape { line } => at_line(alloc, file, *line, "shape"),
        ModuleRefusal::Unsupported { line, name } => unsupported_line(alloc, file, *line, name),
        ModuleRefusal::Register { line } => at_line(alloc, file, *line, "register"),
        ModuleRefusal::Label { line } => at_line(alloc, file, *line, "label"),
        ModuleRefusal::Memory(_) => String::from_str(alloc, "hipe: want of memory\n"),
    }
}

fn duplicate_line(alloc: Global, name: &Name) -> Result<String, AllocError>
    ensures { IfOk result (λ t. string_bytes t ≡ check_line (CheckRefusal.Duplicate name.now)) }
{
    let name = name_text(alloc, name)?;
    let name = name.as_str();
    let mut text = String::new(alloc);
    write!(text, "hipe: duplicate module {name}\n")?;
    Ok(text)
}

/// A function by its module's name, its own and its number of arguments.
fn function_text(
    alloc: Global,
    owner: &Name,
    name: &Name,
    arity: usize,
) -> Result<String, AllocError>
    ensures { IfOk result (λ t. string_bytes t ≡ function_text owner.now name.now arity) }
{
    let owner = name_text(alloc, owner)?;
    let name = name_text(alloc, name)?;
    let owner = owner.as_str();
    let name = name.as_str();
    let mut text = String::new(alloc);
    write!(text, "{owner}:{name}/{arity}")?;
    Ok(text)
}

fn broken_line(alloc: Global, function: &str, item: u32, rule: Rule) -> Result<String, AllocError>
    ensures { IfOk result (λ t. string_bytes t ≡ codes "hipe: " ++ function.now ++ codes " item " ++ decimal item ++ codes ": " ++ rule_name rule ++ codes "\n") }
{
    let rule = rule_name(rule);
    let mut text = String::new(alloc);
    write!(text, "hipe: {function} item {item}: {rule}\n")?;
    Ok(text)
}

fn check_line(alloc: Global, refusal: &CheckRefusal) -> Result<String, AllocError>
    ensures { IfOk result (λ t. string_bytes t ≡ check_line refusal.now) }
{
    match refusal {
        CheckRefusal::Duplicate { module } => duplicate_line(alloc, module),
        CheckRefusal::TooMany => String::from_str(alloc, "hipe: too many modules or units\n"),
        CheckRefusal::Broken {
            rule,
            module,
            function,
            arity,
            item,
        } => {
            let function = function_text(alloc, module, function, usize::from(*arity))?;
            broken_line(alloc, function.as_str(), *item, *rule)
        }
        CheckRefusal::Memory(_) => String::from_str(alloc, "hipe: want of memory\n"),
    }
}

/// About the bytes of an image.
fn image_with(alloc: Global, file: &str, why: &str) -> Result<String, AllocError>
    ensures { IfOk result (λ t. string_bytes t ≡ image_with file.now why.now) }
{
    let mut text = String::new(alloc);
    write!(text, "hipe: {file}: image {why}\n")?;
    Ok(text)
}

fn field_line(alloc: Global, file: &str, flaw: Flaw, at: u32) -> Result<String, AllocError>
    ensures { IfOk result (λ t. string_bytes t ≡ image_line file.now (ImageRefusal.Field flaw at)) }
{
    let flaw = flaw_name(flaw);
    let mut text = String::new(alloc);
    write!(text, "hipe: {file}: image {flaw} at {at}\n")?;
    Ok(text)
}

fn not_built_line(alloc: Global, file: &str) -> Result<String, AllocError>
    ensures { IfOk result (λ t. string_bytes t ≡ not_built_line file.now) }
{
    let mut text = String::new(alloc);
    write!(text, "hipe: {file}: not built\n")?;
    Ok(text)
}

fn text_line_of_module(alloc: Global, file: &str, index: u32) -> Result<String, AllocError>
    ensures { IfOk result (λ t. string_bytes t ≡ image_with file.now (codes "module " ++ decimal index)) }
{
    let mut text = String::new(alloc);
    write!(text, "hipe: {file}: image module {index}\n")?;
    Ok(text)
}

fn image_line(alloc: Global, file: &str, refusal: &ImageRefusal) -> Result<String, AllocError>
    ensures { IfOk result (λ t. string_bytes t ≡ image_line file.now refusal.now) }
{
    match refusal {
        ImageRefusal::Field { flaw, offset } => field_line(alloc, file, *flaw, *offset),
        ImageRefusal::Module { index, .. } => text_line_of_module(alloc, file, *index),
        ImageRefusal::Check(_) => image_with(alloc, file, "check"),
        ImageRefusal::Memory(_) => String::from_str(alloc, "hipe: want of memory\n"),
    }
}

fn not_exported_line(alloc: Global, entry: &str, count: usize) -> Result<String, AllocError>
    requires { is_some (entry_of entry.now) ≡ true }
    ensures { IfOk result (λ t. string_bytes t ≡ codes "hipe: not exported " ++ entry_text (entry_of entry.now) count ++ codes "\n") }
{
    let Some((owner, name)) = read_entry(alloc, entry.as_bytes())? else {
        unreachable!()
    };
    let function = function_text(alloc, &owner, &name, count)?;
    let function = function.as_str();
    let mut text = String::new(alloc);
    write!(text, "hipe: not exported {function}\n")?;
    Ok(text)
}

fn cannot_read_line(alloc: Global, file: &str) -> Result<String, AllocError>
    ensures { IfOk result (λ t. string_bytes t ≡ codes "hipe: cannot read " ++ file.now ++ codes "\n") }
{
    let mut text = String::new(alloc);
    write!(text, "hipe: cannot read {file}\n")?;
    Ok(text)
}

fn too_long_line(alloc: Global, file: &str) -> Result<String, AllocError>
    ensures { IfOk result (λ t. string_bytes t ≡ codes "hipe: " ++ file.now ++ codes ": too long\n") }
{
    let mut text = String::new(alloc);
    write!(text, "hipe: {file}: too long\n")?;
    Ok(text)
}

fn module_status(refusal: &ModuleRefusal) -> u8
    ensures { result ≡ module_status refusal.now }
{
    match refusal {
        ModuleRefusal::Text(_) => 3,
        ModuleRefusal::Shape { .. } => 4,
        ModuleRefusal::Unsupported { .. } => 4,
        ModuleRefusal::Register { .. } => 4,
        ModuleRefusal::Label { .. } => 4,
        ModuleRefusal::Memory(_) => 4,
    }
}

fn status(ending: &Ending<'_>) -> u8
    ensures { result ≡ status_of ending.now }
{
    match ending {
        Ending::Said(status) => *status,
        Ending::ArgsRefused(_) => 3,
        Ending::ModuleRefused(_, refusal) => module_status(refusal),
        Ending::CheckRefused(_) => 4,
        Ending::ImageRefused(_, _) => 5,
        Ending::Usage => 6,
        Ending::NotExported(_, _) => 6,
        Ending::ArgsDoNotFit => 6,
        Ending::CannotRead(_) => 7,
        Ending::CannotWrite => 8,
        Ending::NoMemory => 9,
        Ending::TooLong(_) => 10,
        Ending::NotBuilt(_) => 11,
    }
}

/// The line of an ending that is no output and not told without memory.
fn line(alloc: Global, ending: &Ending<'_>) -> Result<String, AllocError>
    requires { CanWant ending.now }
    ensures { IfOk result (λ t. string_bytes t ≡ line_of ending.now) }
{
    match ending {
        Ending::ArgsRefused(refusal) => text_line(alloc, "args", refusal),
        Ending::ModuleRefused(file, refusal) => module_line(alloc, file, refusal),
        Ending::CheckRefused(refusal) => check_line(alloc, refusal),
        Ending::ImageRefused(file, refusal) => image_line(alloc, file, refusal),
        Ending::NotExported(entry, count) => not_exported_line(alloc, entry, *count),
        Ending::CannotRead(file) => cannot_read_line(alloc, file),
        Ending::TooLong(file) => too_long_line(alloc, file),
        Ending::NotBuilt(file) => not_built_line(alloc, file),
        Ending::Said(_)
        | Ending::Usage
        | Ending::ArgsDoNotFit
        | Ending::CannotWrite
        | Ending::NoMemory => unreachable!(),
    }
}

/// Says a line that takes memory, or that there was none for it.
fn say<E: Sink>(alloc: Global, err: &mut E, ending: &Ending<'_>) -> u8
    requires { CanWant ending.now }
    ensures { Finishes ending.now result (E.seen err.old) (E.seen err.new) }
{
    match line(alloc, ending) {
        Ok(text) => {
            put_piece(err, text.as_bytes());
            status(ending)
        }
        Err(_) => {
            put_piece(err, b"hipe: want of memory\n");
            9
        }
    }
}

/// Says how a command ended, and gives its status. A fault of `err` changes none.
pub fn finish<E: Sink>(alloc: Global, err: &mut E, ending: &Ending<'_>) -> u8
    requires { IsSayable ending.now }
    ensures { Finishes ending.now result (E.seen err.old) (E.seen err.new) }
{
    match ending {
        Ending::Said(status) => *status,
        Ending::Usage => {
            put_piece(err, b"hipe: usage\n");
            6
        }
        Ending::ArgsDoNotFit => {
            put_piece(err, b"hipe: arguments do not fit\n");
            6
        }
        Ending::CannotWrite => {
            put_piece(err, b"hipe: cannot write\n");
            8
        }
        Ending::NoMemory => {
            put_piece(err, b"hipe: want of memory\n");
            9
        }
        Ending::ArgsRefused(_)
        | Ending::ModuleRefused(_, _)
        | Ending::CheckRefused(_)
        | Ending::ImageRefused(_, _)
        | Ending::NotExported(_, _)
        | Ending::CannotRead(_)
        | Ending::TooLong(_)
        | Ending::NotBuilt(_) => say(alloc, err, ending),
    }
}
