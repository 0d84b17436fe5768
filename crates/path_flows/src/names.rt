// Sets of registers by name.

ghost use Rattle.std.specs.Prelude.{◌≡◌, nat_eq, nat_lt};
ghost use Rattle.data_flow.specs.Names as sets;
ghost use Rattle.path_flows.specs.Sets as spec;
ghost use Rattle.path_flows.specs.Sets.{word};

use beam_code::{Operand, Place};
use data_flow::Names;

/// The bit of one name in the word that begins at `from`.
fn bit(name: u32, from: u32) -> u128
    ensures { result ≡ word (λ i. nat_eq i name) from }
{
    if name < from {
        0
    } else if name - from >= 128 {
        0
    } else {
        1u128 << (name - from)
    }
}

/// The bits of the names below `count` in the word that begins at `from`.
fn bits_below(count: u32, from: u32) -> u128
    ensures { result ≡ word (λ i. nat_lt i count) from }
{
    if count <= from {
        0
    } else if count - from >= 128 {
        u128::MAX
    } else {
        (1u128 << (count - from)) - 1
    }
}

/// The first x registers and the first slots.
#[tactic(auto, unfolding(crate::specs::Sets::names))]
pub(crate) fn below(xs: u32, slots: u32) -> Names
    ensures { result ≡ spec.below xs slots }
{
    Names {
        a: bits_below(xs, 0),
        b: bits_below(xs, 128),
        c: bits_below(slots, 0),
        d: bits_below(slots, 128),
    }
}

pub(crate) fn x_name(n: u32) -> Names
    ensures { result ≡ spec.x_name n }
{
    Names {
        a: bit(n, 0),
        b: bit(n, 128),
        c: 0,
        d: 0,
    }
}

fn slot_name(n: u32) -> Names
    ensures { result ≡ spec.slot_name n }
{
    Names {
        a: 0,
        b: 0,
        c: bit(n, 0),
        d: bit(n, 128),
    }
}

/// The name of a y register: its slot, if the stack has it.
pub(crate) fn y_name(stack: Option<u32>, y: u32) -> Names
    ensures { result ≡ spec.y_name stack y }
{
    match stack {
        None => Names::NONE,
        Some(size) => {
            if y < size {
                slot_name(size - (y + 1))
            } else {
                Names::NONE
            }
        }
    }
}

/// The names of either.
#[tactic(auto, unfolding(data_flow::specs::Names::join))]
pub(crate) fn join(s: Names, t: Names) -> Names
    ensures { result ≡ sets.join s t }
{
    Names {
        a: s.a | t.a,
        b: s.b | t.b,
        c: s.c | t.c,
        d: s.d | t.d,
    }
}

/// The names of the first alone.
#[tactic(auto, unfolding(crate::specs::Sets::without))]
pub(crate) fn without(s: Names, t: Names) -> Names
    ensures { result ≡ spec.without s t }
{
    Names {
        a: s.a & !t.a,
        b: s.b & !t.b,
        c: s.c & !t.c,
        d: s.d & !t.d,
    }
}

fn place_name(stack: Option<u32>, place: Place) -> Names
    ensures { result ≡ spec.place_name stack place }
{
    match place {
        Place::X(n) => x_name(u32::from(n)),
        Place::Y(n) => y_name(stack, u32::from(n)),
    }
}

pub(crate) fn with_place(stack: Option<u32>, place: Place, set: Names) -> Names
    ensures { result ≡ sets.join set (spec.place_name stack place) }
{
    join(set, place_name(stack, place))
}

fn operand_name(stack: Option<u32>, operand: &Operand) -> Names
    ensures { result ≡ spec.operand_name stack operand.now }
{
    match operand {
        Operand::X(n) => x_name(u32::from(*n)),
        Operand::Y(n) => y_name(stack, u32::from(*n)),
        _ => Names::NONE,
    }
}

pub(crate) fn with_operand(stack: Option<u32>, operand: &Operand, set: Names) -> Names
    ensures { result ≡ sets.join set (spec.operand_name stack operand.now) }
{
    join(set, operand_name(stack, operand))
}

pub(crate) fn with_operands(stack: Option<u32>, operands: &[Operand], set: Names) -> Names
    ensures { result ≡ spec.with_operands stack operands.now set }
{
    let mut all = set;
    for operand in operands {
        all = with_operand(stack, operand, all);
    }
    all
}
