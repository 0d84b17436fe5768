ghost use Rattle.std.specs.Prelude.{◌≡◌, ◌≢◌, ℕ, ◌++◌, IfOk, OnOk, IsTrue, false};
ghost use Rattle.paths.specs.Rules.{Ways};
ghost use Rattle.path_search.specs.Found.{IsByItem};

use sqlite_items::Items;
use std::alloc::{AllocError, Global};

/// What a search asks of the paths that it looks at.
pub trait Walk {
    /// Where a path ends: an item, and what the path carries there.
    type Point: Drop;

    ghost ways: { Self → Ways Self.Point };

    ghost item_of: { Self → Self.Point → ℕ };

    ghost number_of: { Self → Self.Point → ℕ };

    /// Where each path begins.
    fn start(&self, alloc: Global) -> Result<Self::Point, AllocError>
        ensures { IfOk result (λ p. p ≡ (ways self.now).graph.start) };

    /// Adds the points to which a path may go on.
    fn moves(&self, from: &Self::Point, to: &mut Items<Self::Point>) -> Result<(), AllocError>
        ensures { OnOk result (to.new ≡ to.old ++ (ways self.now).graph.moves from.now) };

    /// Whether a path breaks the rule by itself.
    fn breaks(&self, point: &Self::Point) -> bool
        ensures { result ≡ (ways self.now).breaks point.now };

    /// Whether two paths break the rule together.
    fn splits(&self, a: &Self::Point, b: &Self::Point) -> bool
        ensures { result ≡ (ways self.now).splits a.now b.now };

    /// Whether the first path ends the second.
    fn is_apart(&self, a: &Self::Point, b: &Self::Point) -> bool
        ensures { result ≡ (ways self.now).apart a.now b.now };

    /// Whether some path may end another: where none does, no point is compared with those at its
    /// item.
    fn may_end(&self) -> bool
        ensures { result ≡ false → (x : Self.Point) → (y : Self.Point) → (ways self.now).apart x y ≡ false }
    {
        true
    }

    /// Whether the points are the same.
    fn is_same(&self, a: &Self::Point, b: &Self::Point) -> bool
        ensures same { IsTrue result → a.now ≡ b.now }
        ensures other { result ≡ false → a.now ≢ b.now };

    /// The item of a point, from 0.
    fn item(&self, point: &Self::Point) -> u32
        ensures { result ≡ item_of self.now point.now };

    /// A number by which points are looked up: the fewer points share it, the faster.
    fn number(&self, point: &Self::Point) -> u64
        ensures { result ≡ number_of self.now point.now };

    ghost by_item: { (walk : Self) → IsByItem (ways walk) (item_of walk) };
}
