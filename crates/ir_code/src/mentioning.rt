//! What modules mention.
ghost use Rattle.ir_code.specs.Mentions.{Named, Literal, function_mentions, mentions_of, module_mentions, operand_mentions, shape_mentions};
ghost use Rattle.ir_code.specs.Shown.{shown};
ghost use Rattle.beam_code.specs.Shape.{shape_of};
ghost use Rattle.term_tree.specs.Term.{tree_of};
ghost use Rattle.std.specs.Prelude.{◌≡◌, ◌∷◌, [], ◌++◌, flat_map, map, IfOk, OnOk};

use beam_code::{Case, Function, Instr, Item, Module, Operand};
use std::alloc::{AllocError, Global};
use term_tree::{Name, Term};

/// What an instruction or a module mentions: a name, or a literal operand.
#[derive(Clone, Copy)]
pub enum Mention<'a> {
    /// An atom, as the name of a module or a function, or as an operand.
    Named(&'a Name),
    /// A literal operand.
    Literal(&'a Term),
}

fn put_name<'a>(all: &mut Vec<Mention<'a>>, name: &'a Name) -> Result<(), AllocError>
    ensures { OnOk result (shown all.new.items ≡ shown all.old.items ++ Named name.now ∷ []) }
{
    all.push(Mention::Named(name))?;
    Ok(())
}

fn put_literal<'a>(all: &mut Vec<Mention<'a>>, term: &'a Term) -> Result<(), AllocError>
    ensures { OnOk result (shown all.new.items ≡ shown all.old.items ++ Literal (tree_of term.now) ∷ []) }
{
    all.push(Mention::Literal(term))?;
    Ok(())
}

fn put_operand<'a>(all: &mut Vec<Mention<'a>>, operand: &'a Operand) -> Result<(), AllocError>
    ensures { OnOk result (shown all.new.items ≡ shown all.old.items ++ operand_mentions operand.now) }
{
    match operand {
        Operand::Atom(name) => put_name(all, name),
        Operand::Literal(term) => put_literal(all, term),
        Operand::X(_) | Operand::Y(_) | Operand::Int(_) | Operand::Nil => Ok(()),
    }
}

fn put_operands<'a>(all: &mut Vec<Mention<'a>>, operands: &'a [Operand]) -> Result<(), AllocError>
    ensures { OnOk result (shown all.new.items ≡ shown all.old.items ++ flat_map operand_mentions operands.now) }
{
    for operand in operands {
        put_operand(all, operand)?;
    }
    Ok(())
}

fn put_cases<'a>(all: &mut Vec<Mention<'a>>, cases: &'a [Case]) -> Result<(), AllocError>
    ensures { OnOk result (shown all.new.items ≡ shown all.old.items ++ flat_map operand_mentions (map (λ c. c.value) cases.now)) }
{
    for case in cases {
        put_operand(all, &case.value)?;
    }
    Ok(())
}

fn put_both<'a>(
    all: &mut Vec<Mention<'a>>,
    a: &'a Operand,
    b: &'a Operand,
) -> Result<(), AllocError>
    ensures { OnOk result (shown all.new.items ≡ shown all.old.items ++ flat_map operand_mentions (a.now ∷ b.now ∷ [])) }
{
    put_operand(all, a)?;
    put_operand(all, b)
}

fn put_selection<'a>(
    all: &mut Vec<Mention<'a>>,
    from: &'a Operand,
    cases: &'a [Case],
) -> Result<(), AllocError>
    ensures { OnOk result (shown all.new.items ≡ shown all.old.items ++ flat_map operand_mentions (from.now ∷ map (λ c. c.value) cases.now)) }
{
    put_operand(all, from)?;
    put_cases(all, cases)
}

fn put_names<'a>(all: &mut Vec<Mention<'a>>, a: &'a Name, b: &'a Name) -> Result<(), AllocError>
    ensures { OnOk result (shown all.new.items ≡ shown all.old.items ++ Named a.now ∷ Named b.now ∷ []) }
{
    put_name(all, a)?;
    put_name(all, b)
}

fn put_instr<'a>(all: &mut Vec<Mention<'a>>, instr: &'a Instr) -> Result<(), AllocError>
    ensures { OnOk result (shown all.new.items ≡ shown all.old.items ++ shape_mentions (shape_of instr.now)) }
{
    match instr {
        Instr::FuncInfo(owner, name, _) => put_names(all, owner, name),
        Instr::Move(from, _)
        | Instr::GetList(from, _, _)
        | Instr::GetHd(from, _)
        | Instr::GetTl(from, _)
        | Instr::GetTupleElement(from, _, _)
        | Instr::SelectTupleArity(from, _, _)
        | Instr::Badmatch(from)
        | Instr::CaseEnd(from)
        | Instr::TryCaseEnd(from) => put_operand(all, from),
        Instr::PutList(a, b, _) | Instr::BifRaise(a, b, _) | Instr::Raise(a, b, _) => {
            put_both(all, a, b)
        }
        Instr::PutTuple2(_, operands)
        | Instr::Test(_, _, operands)
        | Instr::Bif(_, _, operands, _)
        | Instr::GcBif(_, _, _, operands, _) => put_operands(all, operands.as_slice()),
        Instr::SelectVal(from, _, cases) => put_selection(all, from, cases.as_slice()),
        Instr::CallExt(_, callee)
        | Instr::CallExtLast(_, callee, _)
        | Instr::CallExtOnly(_, callee) => put_names(all, &callee.owner, &callee.name),
        _ => Ok(()),
    }
}

fn put_items<'a>(all: &mut Vec<Mention<'a>>, items: &'a [Item]) -> Result<(), AllocError>
    ensures { OnOk result (shown all.new.items ≡ shown all.old.items ++ flat_map (λ x. shape_mentions (shape_of x.instr)) items.now) }
{
    for item in items {
        put_instr(all, item.instr())?;
    }
    Ok(())
}

fn put_function<'a>(all: &mut Vec<Mention<'a>>, function: &'a Function) -> Result<(), AllocError>
    ensures { OnOk result (shown all.new.items ≡ shown all.old.items ++ function_mentions function.now) }
{
    put_name(all, &function.name)?;
    put_items(all, function.items.as_slice())
}

fn put_functions<'a>(
    all: &mut Vec<Mention<'a>>,
    functions: &'a [Function],
) -> Result<(), AllocError>
    ensures { OnOk result (shown all.new.items ≡ shown all.old.items ++ flat_map function_mentions functions.now) }
{
    for function in functions {
        put_function(all, function)?;
    }
    Ok(())
}

fn put_exports<'a>(all: &mut Vec<Mention<'a>>, exports: &'a [(Name, u8)]) -> Result<(), AllocError>
    ensures { OnOk result (shown all.new.items ≡ shown all.old.items ++ map (λ e. Named e.0) exports.now) }
{
    for export in exports {
        put_name(all, &export.0)?;
    }
    Ok(())
}

fn put_module<'a>(all: &mut Vec<Mention<'a>>, source: &'a Module) -> Result<(), AllocError>
    ensures { OnOk result (shown all.new.items ≡ shown all.old.items ++ module_mentions source.now) }
{
    put_name(all, &source.name)?;
    put_exports(all, source.exports.as_slice())?;
    put_functions(all, source.functions.as_slice())
}

/// What modules mention, in the order of their texts: the name of each, those of its exports, and
/// what its functions mention, each its name first. The one error is want of memory.
pub fn mentions<'a>(alloc: Global, modules: &'a [Module]) -> Result<Vec<Mention<'a>>, AllocError>
    ensures { IfOk result (λ all. shown all.items ≡ mentions_of modules.now) }
{
    let mut all = Vec::new(alloc);
    for m in modules {
        put_module(&mut all, m)?;
    }
    Ok(all)
}
