ghost use Rattle.std.specs.Prelude.{◌≡◌, ◌↔◌, IsTrue, Contains};

use beam_code::HandlerKind;
use sqlite_items::Items;
use term_tree::Name;

/// What is known of a frame whose call returns to the address `ret`: the function `fid` waits at
/// its item `item`, in `frame` words. `live` holds the numbers of the slots that may still be
/// read, ascending, from 1 to `frame - 1`. `handler` is the address where a raise goes on, or 0
/// exactly where `kind` is `None`.
#[derive(Drop, Debug)]
pub struct Descriptor {
    pub ret: u32,
    pub fid: u32,
    pub item: u32,
    pub frame: u32,
    pub kind: HandlerKind,
    pub handler: u32,
    pub live: Items<u32>,
}

/// A function in native form: its number, the index of its first code word, and how many words
/// it has.
#[derive(Clone, Copy, PartialEq, Eq, Debug)]
pub struct Native {
    pub fid: u32,
    pub first: u32,
    pub count: u32,
}

/// The parts of an image: the texts of its modules, its atoms by number, its literal words, the
/// words of its literals, its native functions, their code words, and the descriptors of its
/// call sites by ascending return address.
#[derive(Drop, Debug)]
pub struct Parts {
    pub texts: Items<Items<u8>>,
    pub atoms: Items<Name>,
    pub literals: Items<u32>,
    pub roots: Items<u32>,
    pub natives: Items<Native>,
    pub code: Items<u32>,
    pub descriptors: Items<Descriptor>,
}

impl Descriptor {
    /// Whether the slot with this number may still be read.
    pub fn is_live(&self, slot: u32) -> bool
        ensures { IsTrue result ↔ Contains self.now.live slot }
    {
        self.live.as_slice().contains(&slot)
    }
}
