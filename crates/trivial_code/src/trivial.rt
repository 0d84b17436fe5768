// Trivial functions: what each of their items does, and what they return.

ghost use Rattle.beam_code.specs.Canonical.{is_canonical_operand};
ghost use Rattle.std.specs.Prelude.{◌≡◌, IsTrue, drop};
ghost use Rattle.trivial_code.specs.Trivial.{action_of, are_plain, moved, origin_from, origin_of, is_trivial, move_from, moves, source_of, are_trivial};
ghost use Rattle.std.specs.List.{list_all};

use beam_check::Checked;
use beam_code::{Function, Instr, Item, Operand, Place};

/// What is moved to x0: what an x register holds, or a constant.
#[derive(Clone, Copy)]
pub enum Source {
    Register(u16),
    Constant,
}

/// What an item of a trivial function does: nothing, it moves something to x0, it returns, or it
/// raises.
#[derive(Clone, Copy)]
pub enum Action {
    Passes,
    Moves(Source),
    Returns,
    Raises,
}

/// What a trivial function returns: what came in an x register, or the constant that the item with
/// this number moves.
#[derive(Clone, Copy)]
pub enum Origin {
    Argument(u16),
    Moved(usize),
}

/// What an operand is that a trivial function may move.
fn source_of(from: &Operand) -> Option<Source>
    requires { IsTrue (is_canonical_operand from.now) }
    ensures { result ≡ source_of from.now }
{
    match from {
        Operand::X(n) => Some(Source::Register(*n)),
        Operand::Y(_) => None,
        Operand::Int(_) => Some(Source::Constant),
        Operand::Atom(_) => Some(Source::Constant),
        Operand::Nil => Some(Source::Constant),
        Operand::Literal(_) => Some(Source::Constant),
    }
}

fn moves(source: Option<Source>) -> Option<Action>
    ensures { result ≡ moves source }
{
    match source {
        Some(source) => Some(Action::Moves(source)),
        None => None,
    }
}

fn move_to(from: &Operand, to: Place) -> Option<Action>
    requires { IsTrue (is_canonical_operand from.now) }
    ensures { result ≡ move_from from.now to }
{
    match to {
        Place::X(0) => moves(source_of(from)),
        _ => None,
    }
}

/// What an item does, where it is one that a trivial function may have.
fn done_by(item: &Item) -> Option<Action>
    ensures { result ≡ action_of item.now.instr }
{
    item.terms_are_canonical();
    match item.instr() {
        Instr::Label(_) => Some(Action::Passes),
        Instr::Line(_) => Some(Action::Passes),
        Instr::Comment(_) => Some(Action::Passes),
        Instr::FuncInfo(_, _, _) => Some(Action::Raises),
        Instr::Move(from, to) => move_to(from, *to),
        Instr::Return => Some(Action::Returns),
        _ => None,
    }
}

fn are_plain(items: &[Item]) -> bool
    ensures { result ≡ are_plain items.now }
{
    for item in items {
        if done_by(item).is_none() {
            return false;
        }
    }
    true
}

/// What x0 has behind a move to it: what comes from x0 itself is there already.
fn moved(at: usize, so: Origin, source: Source) -> Origin
    ensures { result ≡ moved at so source }
{
    match source {
        Source::Register(0) => so,
        Source::Register(n) => Origin::Argument(n),
        Source::Constant => Origin::Moved(at),
    }
}

/// What items return from a number on, where they come to a `return`.
fn origin_from(items: &[Item], from: usize) -> Option<Origin>
    ensures { result ≡ origin_from from (Origin.Argument 0) (drop from items.now) }
{
    let mut so = Origin::Argument(0);
    for i in from..items.len() {
        match done_by(&items[i]) {
            Some(Action::Passes) => {}
            Some(Action::Moves(source)) => so = moved(i, so, source),
            Some(Action::Returns) => return Some(so),
            _ => return None,
        }
    }
    None
}

/// What a function returns, where it is trivial.
pub fn returned(f: &Function) -> Option<Origin>
    ensures { result ≡ origin_of f.now }
{
    let items = f.items.as_slice();
    if are_plain(items) {
        origin_from(items, f.entry as usize + 1)
    } else {
        None
    }
}

fn are_all_trivial(functions: &[Function]) -> bool
    ensures { result ≡ list_all is_trivial functions.now }
{
    for f in functions {
        if returned(f).is_none() {
            return false;
        }
    }
    true
}

/// Whether each function of the modules is trivial.
pub fn are_trivial(checked: &Checked) -> bool
    ensures { result ≡ are_trivial checked.now }
{
    for m in checked.modules() {
        if !are_all_trivial(m.functions.as_slice()) {
            return false;
        }
    }
    true
}
