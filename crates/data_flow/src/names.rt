ghost use Rattle.std.specs.Prelude.{◌≡◌};
ghost use Rattle.data_flow.specs.Names as names;
ghost use Rattle.data_flow.specs.Names.{AreNames};

/// A set of 512 names, those of each word beginning at its lowest bit.
#[derive(Clone, Copy)]
pub struct Names {
    pub a: u128,
    pub b: u128,
    pub c: u128,
    pub d: u128,
}

impl Names {
    pub const NONE: Names = Names {
        a: 0,
        b: 0,
        c: 0,
        d: 0,
    };
}

/// The names of both.
#[tactic(auto, unfolding(crate::specs::Names::meet))]
pub(crate) fn meet(x: Names, y: Names) -> Names
    ensures { result ≡ names.meet x y }
{
    Names {
        a: x.a & y.a,
        b: x.b & y.b,
        c: x.c & y.c,
        d: x.d & y.d,
    }
}

/// The names of either.
#[tactic(auto, unfolding(crate::specs::Names::join))]
pub(crate) fn join(x: Names, y: Names) -> Names
    ensures { result ≡ names.join x y }
{
    Names {
        a: x.a | y.a,
        b: x.b | y.b,
        c: x.c | y.c,
        d: x.d | y.d,
    }
}

/// Whether both have the same names.
#[tactic(auto, unfolding(crate::specs::Names::same))]
pub(crate) fn same(x: Names, y: Names) -> bool
    ensures is { result ≡ names.same x y }
    ensures fits { AreNames x }
{
    x.a == y.a && x.b == y.b && x.c == y.c && x.d == y.d
}
