//! Built-ins on words, through their one gate.
ghost use Rattle.beam_code.specs.BuiltIns.{built_ins};
ghost use Rattle.std.specs.Prelude.{◌≡◌, ◌<◌, length};

use crate::lists::{heap, lay_list};
use anyhow::{Result, bail};
use hand_words::{HandWords, MOST_HEAP};
use prim_gates::{PrimAnswer, gate};
use std::alloc::Global;
use tagged_words::{Atoms, small};
use word_walks::Scratch;

/// The word of the empty list.
const NIL: u32 = 59;

/// From one small integer to the next.
const SMALL_STEP: u32 = 16;

/// How many lists there is room for, the one that is read among them.
const LISTS: u32 = 8;

/// Has a built-in done so often, and says how often it gave a value: a sum, a comparison, or the elements of a list of so
/// many integers before the empty list, in their order or in reverse.
pub fn gates_passed(alloc: Global, measure: &str, integers: u32, times: u32) -> Result<String> {
    match measure {
        "sum" => integers_joined(alloc, 0, times),
        "less" => integers_joined(alloc, 18, times),
        "append" => lists_joined(alloc, 40, integers, times),
        "reverse" => lists_joined(alloc, 43, integers, times),
        _ => bail!("no built-in is measured so"),
    }
}

/// Does built-in `k` on words `a` and `b`, unless there are more than `most` words, and says whether it gave a value.
fn gate_once(
    k: u32,
    words: &mut HandWords,
    a: u32,
    b: u32,
    atoms: &Atoms,
    scratch: &mut Scratch,
    most: u32,
) -> bool
    requires there { k < length built_ins }
    requires room { most < length scratch.old }
    ensures { length scratch.new ≡ length scratch.old }
{
    if words.count() > most {
        return false;
    }
    matches!(
        gate(k, a, b, NIL, words, atoms, scratch),
        PrimAnswer::Value(_)
    )
}

/// Does built-in `k` so often on words `a` and `b`, as long as there are at most `most` words, and says how often it gave
/// a value; `a` goes up by a step each time, and begins again after 1024.
fn gate_again(
    k: u32,
    words: &mut HandWords,
    a: u32,
    step: u32,
    b: u32,
    atoms: &Atoms,
    scratch: &mut Scratch,
    most: u32,
    times: u32,
) -> u32
    requires there { k < length built_ins }
    requires room { most < length scratch.old }
{
    let mut values: u32 = 0;
    for i in 0..times {
        let first = a.wrapping_add(step.wrapping_mul(i % 1024));
        if gate_once(k, words, first, b, atoms, scratch, most) {
            values = values.wrapping_add(1);
        }
    }
    values
}

/// Does built-in `k` so often on two small integers.
fn integers_joined(alloc: Global, k: u32, times: u32) -> Result<String>
    requires { k < length built_ins }
{
    let atoms = Atoms::new(alloc)?;
    let mut words = heap(alloc, 0, 0)?;
    let mut scratch = Scratch::new(alloc, 2)?;
    let values = gate_again(
        k,
        &mut words,
        small(0),
        SMALL_STEP,
        small(512),
        &atoms,
        &mut scratch,
        1,
        times,
    );
    Ok(format!(in alloc; "{values} of {times} values")?)
}

/// Does built-in `k` so often on a list of integers and the empty list.
fn lists_joined(alloc: Global, k: u32, integers: u32, times: u32) -> Result<String>
    requires { k < length built_ins }
{
    let atoms = Atoms::new(alloc)?;
    let mut words = heap(alloc, integers, LISTS)?;
    let list = lay_list(alloc, &mut words, &atoms, integers)?;
    let most = words.count().saturating_mul(LISTS).min(MOST_HEAP);
    let mut scratch = Scratch::new(alloc, most + 1)?;
    let values = gate_again(
        k,
        &mut words,
        list,
        0,
        NIL,
        &atoms,
        &mut scratch,
        most,
        times,
    );
    Ok(format!(in alloc;
        "{values} of {times} lists of {} words in all",
        words.count()
    )?)
}
