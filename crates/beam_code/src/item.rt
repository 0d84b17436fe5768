// An instruction in its line, and the items of a function: their terms are canonical.
use crate::Instr;
use sqlite_items::Items;
use std::alloc::{AllocError, Global};
use std::marker::Model;

/// One instruction of a function, with the line of the text that it stands in, from 1. Its terms
/// are canonical.
#[derive(Drop, Debug)]
pub struct Item {
    line: u32,
    instr: Instr,
}

impl Model for Item {
    ghost use Rattle.std.specs.Coded.{codes};
    ghost use Rattle.std.specs.Prelude.{IsTrue};
    ghost use Rattle.beam_code.specs.contracts.instr.Instr.{the_row};
    ghost use Rattle.beam_code.specs.Lined.{Lined};
    ghost use Rattle.beam_code.specs.Canonical.{is_canonical_instr};

    ghost Value = { Lined };

    ghost coded = { Prim.hlevel (codes, the_row.coded) };

    ghost view = { λ i. record { line = i.line; instr = i.instr } };

    ghost invariant = { λ i. IsTrue (is_canonical_instr i.instr) };
}

impl Item {
    ghost use Rattle.std.specs.Prelude.{◌≡◌, IsTrue};
    ghost use Rattle.beam_code.specs.Canonical.{is_canonical_instr};

    pub fn new(line: u32, instr: Instr) -> Item
        requires canonical { IsTrue (is_canonical_instr instr) }
        ensures { result ≡ record { line = line; instr = instr } }
    {
        Item { line, instr }
    }

    pub fn line(&self) -> u32
        ensures { result ≡ self.now.line }
    {
        self.line
    }

    pub fn instr(&self) -> &Instr
        ensures { result.now ≡ self.now.instr }
    {
        &self.instr
    }

    /// That the terms are canonical, which the type keeps.
    pub fn terms_are_canonical(&self)
        ensures { IsTrue (is_canonical_instr self.now.instr) }
    {
        let _ = &self.instr;
    }
}

/// The items of a function, which contracts see as their list. The terms of all are canonical.
#[derive(Drop, Debug)]
pub struct Body {
    items: Items<Item>,
}

impl Model for Body {
    ghost use Rattle.std.specs.Coded.{codes, coded_list};
    ghost use Rattle.std.specs.Prelude.{List, IsTrue};
    ghost use Rattle.beam_code.specs.contracts.item.Item.{the_row};
    ghost use Rattle.beam_code.specs.Lined.{Lined};
    ghost use Rattle.beam_code.specs.Canonical.{are_canonical_items};

    ghost Value = { List Lined };

    ghost coded = { coded_list the_row.coded };

    ghost view = { λ b. b.items };

    ghost invariant = { λ b. IsTrue (are_canonical_items b.items) };
}

impl Body {
    ghost use Rattle.std.specs.Prelude.{◌≡◌, ◌∷◌, ◌++◌, [], IsTrue, OnOk, OnErr, length, slice_get};
    ghost use Rattle.std.specs.Option.{option_copied};
    ghost use Rattle.beam_code.specs.Canonical.{are_canonical_items};

    pub fn new(alloc: Global) -> Body
        ensures { result ≡ [] }
    {
        Body {
            items: Items::new(alloc),
        }
    }

    pub fn push(&mut self, item: Item) -> Result<(), AllocError>
        ensures ok { OnOk result (self.new ≡ self.old ++ item ∷ []) }
        ensures err { OnErr result (self.new ≡ self.old) }
    {
        item.terms_are_canonical();
        self.items.push(item)
    }

    pub fn as_slice(&self) -> &[Item]
        ensures { result.now ≡ self.now }
    {
        self.items.as_slice()
    }

    pub fn len(&self) -> usize
        ensures { result ≡ length self.now }
    {
        self.items.len()
    }

    pub fn get(&self, at: usize) -> Option<&Item>
        ensures { option_copied result ≡ slice_get self.now at }
    {
        self.items.get(at)
    }

    /// That the terms are canonical, which the type keeps.
    pub fn terms_are_canonical(&self)
        ensures { IsTrue (are_canonical_items self.now) }
    {
        let _ = &self.items;
    }
}
