//! Built-ins on lists (Erlang reference manual, Data Types, List; the modules erlang and lists).
ghost use Rattle.beam_code.specs.Answer as values;
ghost use Rattle.beam_code.specs.BuiltIns.{BuiltIn, Badarg};
ghost use Rattle.std.specs.Prelude.{◌≡◌, ◌+◌, ◌*◌, ◌<◌, ◌≤◌, ℕ, pos, List, [], ◌∷◌, length, reverse, slice_get};
ghost use Rattle.prim_gates.specs.Ended.{ended, is_bad};
ghost use Rattle.prim_gates.specs.Chain.{heads_by, kept_down, IsChain};
ghost use Rattle.prim_gates.specs.Gate.{prim};
ghost use Rattle.prim_gates.specs.Reply.{valued, Argument, cells, last_cell};
ghost use Rattle.prim_gates.specs.Said.{said, Answered, HasPushed};
ghost use Rattle.prim_gates.specs.Shallow.{argument};
ghost use Rattle.prim_gates.specs.Shapes.{heads, end_of, at_end, member_of};
ghost use Rattle.tagged_words.specs.Look.{address_end, look_of};
ghost use Rattle.tagged_words.specs.Seen.{Seen, Sees};
ghost use Rattle.tagged_words.specs.Store.{words_in};

use crate::answer::{BADARG, FALSE, PrimAnswer, TRUE};
use crate::integers::exact;
use crate::tuples::word_there;
use std::cmp::Ordering;
use tagged_words::{Atoms, HeapWords, Look, Words, atom, header, look_at};
use word_walks::{NotATerm, Scratch, compare_words};

/// How a list ends.
#[derive(Clone, Copy, Drop)]
pub(crate) enum ListEnd {
    /// In the empty list.
    Proper,
    /// In another term.
    Improper,
    /// In this word, which stands for no term.
    Bad(u32),
}

/// What a walk along a list finds: how many cells there are, and how the list ends.
#[derive(Clone, Copy, Drop)]
pub(crate) struct Walked {
    pub(crate) count: u32,
    pub(crate) end: ListEnd,
}

/// Goes along a list by its tails, each of which leads below its cell.
pub(crate) fn walk<W: Words>(words: &W, atoms: &Atoms, w: u32) -> Walked
    ensures count { (v : Seen) → Sees (W.store words.now) atoms.now address_end w v → result.count ≡ length (heads (W.store words.now) w v) }
    ensures end { (v : Seen) → Sees (W.store words.now) atoms.now address_end w v → ended result.end ≡ end_of v }
{
    let mut limit = u32::MAX;
    let mut word = w;
    let mut count = 0;
    'cells: loop {
        match look_at(words, atoms, limit, word) {
            Look::Cons(at) => {
                word = word_there(words, at + 4);
                limit = at;
                count += 1;
            }
            Look::Nil => return Walked {
                count,
                end: ListEnd::Proper,
            },
            Look::Bad => return Walked {
                count,
                end: ListEnd::Bad(word),
            },
            _ => return Walked {
                count,
                end: ListEnd::Improper,
            },
        }
    }
}

/// How many elements a list has that ends in the empty list.
pub(crate) fn list_length<W: Words>(words: &W, atoms: &Atoms, w: u32) -> PrimAnswer
    ensures { (b : BuiltIn) (v : Seen) → b.failure ≡ Badarg → Sees (W.store words.now) atoms.now address_end w v
        → said result ≡ at_end b w (valued b.failure w (values.exact (pos (length (heads (W.store words.now) w v))))) (end_of v) }
{
    let walked = walk(words, atoms, w);
    match walked.end {
        ListEnd::Proper => exact(i64::from(walked.count)),
        ListEnd::Improper => BADARG,
        ListEnd::Bad(word) => PrimAnswer::Fault { word },
    }
}

/// Whether a word stands for no term, where its pointer has to lead below a limit.
fn shows_nothing<W: Words>(words: &W, atoms: &Atoms, limit: u32, w: u32) -> bool
    ensures { result ≡ is_bad (look_of (W.store words.now) atoms.now limit w) }
{
    match look_at(words, atoms, limit, w) {
        Look::Bad => true,
        _ => false,
    }
}

/// Whether a term is an element of a list: each head is compared before its tail is looked at.
pub(crate) fn member<W: Words>(
    words: &W,
    atoms: &Atoms,
    first: u32,
    list: u32,
    scratch: &mut Scratch,
) -> PrimAnswer
    requires room { words_in (W.store words.now) < length scratch.old }
    ensures answer { (b : BuiltIn) (v y : Seen) → b.failure ≡ Badarg → Sees (W.store words.now) atoms.now address_end first v
        → Sees (W.store words.now) atoms.now address_end list y → said result ≡ member_of b first v y }
    ensures same { length scratch.new ≡ length scratch.old }
{
    let mut limit = u32::MAX;
    let mut word = list;
    'cells: loop {
        match look_at(words, atoms, limit, word) {
            Look::Cons(at) => {
                if shows_nothing(words, atoms, u32::MAX, first) {
                    return PrimAnswer::Fault { word: first };
                }
                let head = word_there(words, at);
                if shows_nothing(words, atoms, at, head) {
                    return PrimAnswer::Fault { word: head };
                }
                match compare_words(words, atoms, first, head, scratch) {
                    Ok(order) => match order {
                        Ordering::Equal => return PrimAnswer::Value(atom(TRUE)),
                        _ => {}
                    },
                    Err(NotATerm { word }) => return PrimAnswer::Fault { word },
                }
                word = word_there(words, at + 4);
                limit = at;
            }
            Look::Nil => return PrimAnswer::Value(atom(FALSE)),
            Look::Bad => return PrimAnswer::Fault { word },
            _ => return BADARG,
        }
    }
}

/// Pushes a word where there is room.
pub(crate) fn push_word<H: HeapWords>(heap: &mut H, word: u32)
    requires { 0 < H.room heap.old }
    ensures { HasPushed H.Grows H.store H.room H.end heap.old (word ∷ []) heap.new }
{
    heap.push(word);
}

/// Pushes a cons, and gives its word.
pub(crate) fn push_cell<H: HeapWords>(heap: &mut H, head: u32, tail: u32) -> u32
    requires { 2 ≤ H.room heap.old }
    ensures pushed { HasPushed H.Grows H.store H.room H.end heap.old (head ∷ tail ∷ []) heap.new }
    ensures word { result ≡ H.end heap.old + 1 }
{
    let cell = heap.top();
    push_word(heap, head);
    push_word(heap, tail);
    cell + 1
}

/// Pushes the heads of so many cells of a list, each on the one before, and gives the word of the last cons.
fn push_heads<H: HeapWords>(heap: &mut H, list: u32, count: u32, end: u32) -> u32
    requires there { IsChain (H.store heap.old) list count }
    requires room { 2 * count ≤ H.room heap.old }
    ensures pushed { HasPushed H.Grows H.store H.room H.end heap.old (cells (H.end heap.old) (heads_by (H.store heap.old) list count) end) heap.new }
    ensures word { result ≡ last_cell (H.end heap.old) (heads_by (H.store heap.old) list count) end }
{
    let mut word = list;
    let mut left = count;
    let mut tail = end;
    'cells: while left > 0 {
        let head = word_there(heap, word - 1);
        word = word_there(heap, word + 3);
        tail = push_cell(heap, head, tail);
        left -= 1;
    }
    tail
}

/// The elements of a list in reverse, before a tail.
pub(crate) fn reverse<H: HeapWords>(heap: &mut H, atoms: &Atoms, list: u32, tail: u32) -> PrimAnswer
    ensures { (v y : Seen) (z : Argument) → Sees (H.store heap.old) atoms.now address_end list v
        → Answered H.Grows H.store H.room H.end heap.old result (λ m. prim 43 m (argument list v) (argument tail y) z) heap.new }
{
    let walked = walk(heap, atoms, list);
    match walked.end {
        ListEnd::Proper => {
            if walked.count > heap.left() / 2 {
                return PrimAnswer::HeapFull;
            }
            PrimAnswer::Value(push_heads(heap, list, walked.count, tail))
        }
        ListEnd::Improper => BADARG,
        ListEnd::Bad(word) => PrimAnswer::Fault { word },
    }
}

/// Pushes the heads of so many cells of a list.
fn push_elements_of<H: HeapWords>(heap: &mut H, list: u32, count: u32)
    requires there { IsChain (H.store heap.old) list count }
    requires room { count ≤ H.room heap.old }
    ensures { HasPushed H.Grows H.store H.room H.end heap.old (heads_by (H.store heap.old) list count) heap.new }
{
    let mut word = list;
    let mut left = count;
    'cells: while left > 0 {
        let head = word_there(heap, word - 1);
        word = word_there(heap, word + 3);
        push_word(heap, head);
        left -= 1;
    }
}

/// The elements of a list as a tuple.
pub(crate) fn list_to_tuple<H: HeapWords>(heap: &mut H, atoms: &Atoms, list: u32) -> PrimAnswer
    ensures { (v : Seen) (y z : Argument) → Sees (H.store heap.old) atoms.now address_end list v
        → Answered H.Grows H.store H.room H.end heap.old result (λ m. prim 41 m (argument list v) y z) heap.new }
{
    let walked = walk(heap, atoms, list);
    match walked.end {
        ListEnd::Proper => {
            if walked.count >= heap.left() {
                return PrimAnswer::HeapFull;
            }
            let cell = heap.top();
            push_word(heap, header(walked.count));
            push_elements_of(heap, list, walked.count);
            PrimAnswer::Value(cell + 2)
        }
        ListEnd::Improper => BADARG,
        ListEnd::Bad(word) => PrimAnswer::Fault { word },
    }
}

/// Goes along a list as `walk` does, and keeps its heads, the first in entry 0.
fn walk_keeping<W: Words>(words: &W, atoms: &Atoms, w: u32, scratch: &mut Scratch) -> Walked
    requires room { words_in (W.store words.now) < length scratch.old }
    ensures count { (v : Seen) → Sees (W.store words.now) atoms.now address_end w v → result.count ≡ length (heads (W.store words.now) w v) }
    ensures end { (v : Seen) → Sees (W.store words.now) atoms.now address_end w v → ended result.end ≡ end_of v }
    ensures kept { (v : Seen) → Sees (W.store words.now) atoms.now address_end w v → (k : ℕ) → k < result.count → slice_get scratch.new k ≡ slice_get (heads (W.store words.now) w v) k }
    ensures same { length scratch.new ≡ length scratch.old }
{
    let mut limit = u32::MAX;
    let mut word = w;
    let mut count = 0;
    'cells: loop {
        match look_at(words, atoms, limit, word) {
            Look::Cons(at) => {
                scratch.keep(count, word_there(words, at));
                word = word_there(words, at + 4);
                limit = at;
                count += 1;
            }
            Look::Nil => return Walked {
                count,
                end: ListEnd::Proper,
            },
            Look::Bad => return Walked {
                count,
                end: ListEnd::Bad(word),
            },
            _ => return Walked {
                count,
                end: ListEnd::Improper,
            },
        }
    }
}

/// Pushes the words that are kept, from the last one down, as a list before a tail, and gives the word of the list.
fn push_kept<H: HeapWords>(heap: &mut H, scratch: &Scratch, count: u32, end: u32) -> u32
    requires kept { count ≤ length scratch.now }
    requires room { 2 * count ≤ H.room heap.old }
    ensures pushed { HasPushed H.Grows H.store H.room H.end heap.old (cells (H.end heap.old) (kept_down scratch.now count) end) heap.new }
    ensures word { result ≡ last_cell (H.end heap.old) (kept_down scratch.now count) end }
{
    let mut left = count;
    let mut tail = end;
    'cells: while left > 0 {
        let head = scratch.kept(left - 1);
        tail = push_cell(heap, head, tail);
        left -= 1;
    }
    tail
}

/// The elements of a list before a tail.
pub(crate) fn append<H: HeapWords>(
    heap: &mut H,
    atoms: &Atoms,
    list: u32,
    tail: u32,
    scratch: &mut Scratch,
) -> PrimAnswer
    requires room { words_in (H.store heap.old) < length scratch.old }
    ensures answer { (v y : Seen) (z : Argument) → Sees (H.store heap.old) atoms.now address_end list v
        → Answered H.Grows H.store H.room H.end heap.old result (λ m. prim 40 m (argument list v) (argument tail y) z) heap.new }
    ensures same { length scratch.new ≡ length scratch.old }
{
    let walked = walk_keeping(heap, atoms, list, scratch);
    match walked.end {
        ListEnd::Proper => {
            if walked.count > heap.left() / 2 {
                return PrimAnswer::HeapFull;
            }
            PrimAnswer::Value(push_kept(heap, scratch, walked.count, tail))
        }
        ListEnd::Improper => BADARG,
        ListEnd::Bad(word) => PrimAnswer::Fault { word },
    }
}
