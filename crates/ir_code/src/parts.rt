//! The parts of constants.

use std::marker::Model;
use tagged_words::Atoms;

/// The constants of modules.
#[derive(Drop)]
pub struct Constants {
    /// The machine's own atoms, and behind them those that are mentioned, each at its first
    /// appearance.
    pub atoms: Atoms,
    /// The words of all literal operands, one after the other, from address 0x08000000 on.
    pub literals: Vec<u32>,
    /// The word that stands for each literal operand, in the order of the texts.
    pub roots: Vec<u32>,
}

impl Model for Constants {
    ghost use Rattle.ir_code.specs.Constants as seen;

    ghost Value = { seen.Constants };

    ghost view = { λ c. record { atoms = c.atoms; literals = c.literals.items; roots = c.roots.items } };
}
