//! Laws of the runs of checked modules: each state is one that a path shows, no row is stuck, and
//! a run ends.
#![tactic(auto)]

mod example;

ghost use Rattle.run_laws.specs.Activations.{ActivationsAreShort, ActivationsFollowPaths};
ghost use Rattle.run_laws.specs.Ranks.{RanksAreOfItems, RanksFall};
ghost use Rattle.run_laws.specs.Runs.{NoRowIsStuck, RunsEnd, StatesAreShown};
ghost use Rattle.run_laws.specs.Static.{HandlersAreStatic};

pub use example::{example_is_checked, example_means};

/// A law: each state of a run is one that a path shows: the item, the size of the stack, the marks
/// of handlers, the registers that are defined, and the heap words that the last heap test covers.
/// Each frame that waits stands at a call where such a path ends.
pub fn states_are_shown()
    ensures { StatesAreShown }
{}

/// A law: no row of a run is stuck.
pub fn no_row_is_stuck()
    ensures { NoRowIsStuck }
{}

/// A law: a run ends within the rows that are stated for it, so its meaning is an outcome.
pub fn runs_end()
    ensures { RunsEnd }
{}

/// A law: in each state of a run the size of the stack, and the handler that the marks of y registers give, are those of
/// every path to the item, for the running function and for each frame that waits.
pub fn handlers_are_static()
    ensures { HandlersAreStatic }
{}

/// A law: the rank of a point, which is the most items on a path onward from it, falls at each move of a path.
pub fn ranks_fall()
    ensures { RanksFall }
{}

/// A law: all paths that come to an item have one rank there.
pub fn ranks_are_of_items()
    ensures { RanksAreOfItems }
{}

/// A law: the path that shows where a function is comes to no item twice, and makes fewer moves than
/// the function has items.
pub fn activations_are_short()
    ensures { ActivationsAreShort }
{}

/// A law: successive states of an activation are shown by successive points of one path, from row to row, where a call
/// comes back with a value, and where a handler of its own takes an exception.
pub fn activations_follow_paths()
    ensures { ActivationsFollowPaths }
{}
