//! Built-ins that look into conses and tuples (Erlang reference manual, Data Types, Tuple and List).
ghost use Rattle.beam_code.specs.BuiltIns.{BuiltIn, Badarg};
ghost use Rattle.std.specs.Prelude.{◌≡◌, ℕ, ◌+◌, ◌*◌, ◌<◌, ◌≤◌, ◌<ℤ◌, Some, is_some, true, pos, nat_eq, if◌then◌else◌, ◌⊎◌, [], ◌∷◌};
ghost use Rattle.prim_gates.specs.Chain.{reads_down, with_place};
ghost use Rattle.prim_gates.specs.Reply.{read, cells, last_cell, Argument};
ghost use Rattle.prim_gates.specs.Said.{said, Answered, HasPushed};
ghost use Rattle.prim_gates.specs.Gate.{Memory, prim};
ghost use Rattle.prim_gates.specs.Shallow.{argument, AreSeen};
ghost use Rattle.prim_gates.specs.Shapes.{part_of, element_of};
ghost use Rattle.tagged_words.specs.Look.{address_end};
ghost use Rattle.tagged_words.specs.Seen.{Seen, Sees, Int};
ghost use Rattle.tagged_words.specs.Store.{word_of};
ghost use Rattle.tagged_words.specs.Word.{nil_word};

use crate::answer::{BADARG, PrimAnswer};
use crate::lists::{push_cell, push_word};
use tagged_words::{Atoms, HeapWords, Look, Words, header, look_at};

/// The word of the empty list.
const NIL: u32 = 59;

/// The word at an address where there is one.
pub(crate) fn word_there<W: Words>(words: &W, at: u32) -> u32
    requires { is_some (word_of (W.store words.now) at) ≡ true }
    ensures word { word_of (W.store words.now) at ≡ Some result }
    ensures read { result ≡ read (W.store words.now) at }
{
    match words.word(at) {
        Some(word) => word,
        None => unreachable!(),
    }
}

/// The word of a cons at an offset: 0 for its head, 4 for its tail.
pub(crate) fn part<W: Words>(words: &W, atoms: &Atoms, offset: u32, w: u32) -> PrimAnswer
    requires { (offset ≡ 0) ⊎ (offset ≡ 4) }
    ensures { (b : BuiltIn) (v : Seen) → b.failure ≡ Badarg → Sees (W.store words.now) atoms.now address_end w v → said result ≡ part_of (W.store words.now) b offset w v }
{
    match look_at(words, atoms, u32::MAX, w) {
        Look::Cons(at) => PrimAnswer::Value(word_there(words, at + offset)),
        Look::Bad => PrimAnswer::Fault { word: w },
        _ => BADARG,
    }
}

/// A positive index.
fn without_sign(index: i32) -> u32
    requires { pos 0 <ℤ index }
    ensures same { pos result ≡ index }
    ensures some { 0 < result }
{
    index as u32
}

/// The element of a tuple at an index from 1.
fn element_at<W: Words>(words: &W, atoms: &Atoms, index: i32, first: u32, tuple: u32) -> PrimAnswer
    ensures { (b : BuiltIn) (v : Seen) → b.failure ≡ Badarg → Sees (W.store words.now) atoms.now address_end tuple v → said result ≡ element_of (W.store words.now) b index first tuple v }
{
    match look_at(words, atoms, u32::MAX, tuple) {
        Look::Tuple(at, count) => {
            if index <= 0 {
                return BADARG;
            }
            let place = without_sign(index);
            if place <= count {
                PrimAnswer::Value(word_there(words, at + 4 * place))
            } else {
                BADARG
            }
        }
        Look::Bad => PrimAnswer::Fault { word: tuple },
        _ => BADARG,
    }
}

/// The element of a tuple at an index from 1 that a word shows.
pub(crate) fn element<W: Words>(words: &W, atoms: &Atoms, a: u32, b: u32) -> PrimAnswer
    ensures { (m : Memory) (x y : Seen) (z : Argument) → m.store ≡ W.store words.now
        → AreSeen (W.store words.now) atoms.now (a ∷ b ∷ []) (x ∷ y ∷ []) → said result ≡ prim 34 m (argument a x) (argument b y) z }
{
    match look_at(words, atoms, u32::MAX, a) {
        Look::Small(index) => element_at(words, atoms, index, a, b),
        Look::Bad => PrimAnswer::Fault { word: a },
        _ => BADARG,
    }
}

/// Pushes the elements of a tuple as a list, from its last one down, and gives the word of the list.
fn push_elements<H: HeapWords>(heap: &mut H, at: u32, count: u32) -> u32
    requires there { (k : ℕ) → k < 1 + count → is_some (word_of (H.store heap.old) (at + 4 * k)) ≡ true }
    requires room { 2 * count ≤ H.room heap.old }
    ensures pushed { HasPushed H.Grows H.store H.room H.end heap.old (cells (H.end heap.old) (reads_down (H.store heap.old) at count) nil_word) heap.new }
    ensures word { result ≡ last_cell (H.end heap.old) (reads_down (H.store heap.old) at count) nil_word }
{
    let mut left = count;
    let mut tail = NIL;
    'elements: while left > 0 {
        let head = word_there(heap, at + 4 * left);
        tail = push_cell(heap, head, tail);
        left -= 1;
    }
    tail
}

/// The elements of a tuple as a list.
pub(crate) fn tuple_to_list<H: HeapWords>(heap: &mut H, atoms: &Atoms, w: u32) -> PrimAnswer
    ensures { (v : Seen) (y z : Argument) → Sees (H.store heap.old) atoms.now address_end w v
        → Answered H.Grows H.store H.room H.end heap.old result (λ m. prim 42 m (argument w v) y z) heap.new }
{
    match look_at(heap, atoms, u32::MAX, w) {
        Look::Tuple(at, count) => {
            if count > heap.left() / 2 {
                return PrimAnswer::HeapFull;
            }
            PrimAnswer::Value(push_elements(heap, at, count))
        }
        Look::Bad => PrimAnswer::Fault { word: w },
        _ => BADARG,
    }
}

/// A new element at an index, and else the one that is there.
fn element_or<W: Words>(words: &W, at: u32, place: u32, index: u32, new: u32) -> u32
    requires { is_some (word_of (W.store words.now) (at + 4 * place)) ≡ true }
    ensures { result ≡ (if nat_eq place index then new else read (W.store words.now) (at + 4 * place)) }
{
    if place == index {
        new
    } else {
        word_there(words, at + 4 * place)
    }
}

/// Pushes the elements of a tuple with a new one at an index from 1.
fn push_with<H: HeapWords>(heap: &mut H, at: u32, count: u32, index: u32, new: u32)
    requires there { (k : ℕ) → k < 1 + count → is_some (word_of (H.store heap.old) (at + 4 * k)) ≡ true }
    requires room { count ≤ H.room heap.old }
    ensures { HasPushed H.Grows H.store H.room H.end heap.old (with_place (H.store heap.old) at 1 count index new) heap.new }
{
    let mut place = 1;
    let mut left = count;
    'elements: while left > 0 {
        let element = element_or(heap, at, place, index, new);
        push_word(heap, element);
        place += 1;
        left -= 1;
    }
}

/// A tuple with a new element at an index from 1.
fn set_at<H: HeapWords>(
    heap: &mut H,
    atoms: &Atoms,
    index: i32,
    first: u32,
    tuple: u32,
    new: u32,
) -> PrimAnswer
    ensures { (v : Seen) (z : Seen) → Sees (H.store heap.old) atoms.now address_end tuple v
        → Answered H.Grows H.store H.room H.end heap.old result (λ m. prim 39 m (argument first (Int index)) (argument tuple v) (argument new z)) heap.new }
{
    match look_at(heap, atoms, u32::MAX, tuple) {
        Look::Tuple(at, count) => {
            if index <= 0 {
                return BADARG;
            }
            let place = without_sign(index);
            if place > count {
                return BADARG;
            }
            if count >= heap.left() {
                return PrimAnswer::HeapFull;
            }
            let cell = heap.top();
            push_word(heap, header(count));
            push_with(heap, at, count, place, new);
            PrimAnswer::Value(cell + 2)
        }
        Look::Bad => PrimAnswer::Fault { word: tuple },
        _ => BADARG,
    }
}

/// A tuple with a new element at an index from 1 that a word shows.
pub(crate) fn set_element<H: HeapWords>(
    heap: &mut H,
    atoms: &Atoms,
    a: u32,
    b: u32,
    c: u32,
) -> PrimAnswer
    ensures { (x y z : Seen) → AreSeen (H.store heap.old) atoms.now (a ∷ b ∷ []) (x ∷ y ∷ [])
        → Answered H.Grows H.store H.room H.end heap.old result (λ m. prim 39 m (argument a x) (argument b y) (argument c z)) heap.new }
{
    match look_at(heap, atoms, u32::MAX, a) {
        Look::Small(index) => set_at(heap, atoms, index, a, b, c),
        Look::Bad => PrimAnswer::Fault { word: a },
        _ => BADARG,
    }
}
