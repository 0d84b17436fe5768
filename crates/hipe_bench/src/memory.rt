//! A small memory for a benchmark.

use sparc_code::WordMemory;

/// 64 words from address 0.
#[derive(Drop)]
pub struct Cells {
    cells: [u32; 64],
}

impl Cells {
    pub fn new() -> Cells {
        Cells { cells: [1; 64] }
    }
}

impl WordMemory for Cells {
    ghost use Rattle.std.specs.Prelude.{ℕ, ◌≡◌, ◌/◌, ◌%◌, ◌&&◌, Bool, Option, Some, None, IsTrue, nat_eq, nat_lt, if◌then◌else◌, length, slice_index, slice_set};
    ghost use Rattle.std.proofs.Common.{rules, arith};
    ghost use Rattle.std.proofs.lemmas.Grind.{common_steps};

    ghost words = { λ m a. if nat_eq (a % 4) 0 && nat_lt (a / 4) (length m.cells) then Some (slice_index m.cells (a / 4)) else None };

    ghost stores = { λ m a. nat_eq (a % 4) 0 && nat_lt (a / 4) (length m.cells) };

    ghost stored = { λ m a w. record m { cells = slice_set m.cells (a / 4) w } };

    #[inline]
    fn load(&self, addr: u32) -> Option<u32> {
        if addr % 4 == 0 && addr < 256 {
            Some(self.cells[(addr / 4) as usize])
        } else {
            None
        }
    }

    #[inline]
    fn store(&mut self, addr: u32, w: u32) -> bool {
        if addr % 4 == 0 && addr < 256 {
            self.cells[(addr / 4) as usize] = w;
            true
        } else {
            false
        }
    }

    ghost holds_what_it_stores = { Prim.search rules };

    ghost changes_one_word = { Prim.grind (arith, common_steps) };

    ghost keeps_places = { Prim.grind (arith, common_steps) };
}
