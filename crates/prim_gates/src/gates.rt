//! The gate of built-ins: each by its number.
ghost use Rattle.std.specs.Prelude.{◌≡◌, ◌<◌, ◌≤◌, [], ◌∷◌, length};
ghost use Rattle.beam_code.specs.BuiltIns.{built_ins};
ghost use Rattle.prim_gates.specs.Gate.{prim};
ghost use Rattle.prim_gates.specs.Reply.{Raise};
ghost use Rattle.prim_gates.specs.Said.{said, Answered};
ghost use Rattle.prim_gates.specs.Shallow.{argument, AreSeen};
ghost use Rattle.tagged_words.specs.Seen.{Seen};
ghost use Rattle.tagged_words.specs.Store.{words_in};

use crate::answer::{ERROR, EXIT, PrimAnswer, THROW, says};
use crate::lists::{append, list_length, list_to_tuple, member, reverse};
use crate::looking::{one_term, two_integers, two_truths};
use crate::orders::{of_either, of_order};
use crate::tuples::{element, part, set_element, tuple_to_list};
use tagged_words::{Atoms, HeapWords};
use word_walks::Scratch;

/// A raise with the number of a class, and the word of a reason.
fn raised(class: u32, reason: u32) -> PrimAnswer
    ensures { said result ≡ Raise class reason }
{
    PrimAnswer::Raise { class, reason }
}

/// Does the built-in with the number `k`, from 0 to 56, on the words of as many arguments as it takes, `a`, `b` and `c`
/// in order; the others are not looked at. Any 32-bit words may stand there: a word that is looked at and stands for no
/// term is the answer `Fault`.
///
/// The words of a new list or tuple are pushed on the heap, from its lowest up; with any other answer the heap is as it
/// was. `scratch` is longer than there are words in the store, and keeps its length. It takes no memory.
pub fn gate<H: HeapWords>(
    k: u32,
    a: u32,
    b: u32,
    c: u32,
    heap: &mut H,
    atoms: &Atoms,
    scratch: &mut Scratch,
) -> PrimAnswer
    requires there { k < length built_ins }
    requires room { words_in (H.store heap.old) < length scratch.old }
    ensures answer { (x y z : Seen) → AreSeen (H.store heap.old) atoms.now (a ∷ b ∷ c ∷ []) (x ∷ y ∷ z ∷ [])
        → Answered H.Grows H.store H.room H.end heap.old result (λ m. prim k m (argument a x) (argument b y) (argument c z)) heap.new }
    ensures same { length scratch.new ≡ length scratch.old }
{
    match k {
        0..=9 => two_integers(k, heap, atoms, a, b),
        10..=13 => one_term(k, heap, atoms, a),
        14..=21 => of_order(k, heap, atoms, a, b, scratch),
        22..=24 => two_truths(k, heap, atoms, a, b),
        25..=31 => one_term(k, heap, atoms, a),
        32 => part(heap, atoms, 0, a),
        33 => part(heap, atoms, 4, a),
        34 => element(heap, atoms, a, b),
        35 => one_term(k, heap, atoms, a),
        36 => list_length(heap, atoms, a),
        37..=38 => of_either(k, heap, atoms, a, b, scratch),
        39 => set_element(heap, atoms, a, b, c),
        40 => append(heap, atoms, a, b, scratch),
        41 => list_to_tuple(heap, atoms, a),
        42 => tuple_to_list(heap, atoms, a),
        43 => reverse(heap, atoms, a, b),
        44 => member(heap, atoms, a, b, scratch),
        45 => raised(THROW, a),
        46 => raised(EXIT, a),
        47..=48 => raised(ERROR, a),
        _ => says(false),
    }
}
