//! What is so of the paths of every function of the profile, and its limits.

ghost use Rattle.path_rules.specs.Laws.{PathsEnd, PathsKeepRules, PathsStay};
ghost use Rattle.path_rules.specs.Numbers.{TheNumbersAre};

/// No path of a function breaks a rule, and all that come to an item have one stack and the same
/// tags there.
pub fn paths_keep_rules()
    ensures { PathsKeepRules }
{}

/// No path of a function comes to an item again, and each makes fewer moves than there are items.
pub fn paths_end()
    ensures { PathsEnd }
{}

/// Each path ends at an item of its function, where calls of the function begin at one.
pub fn paths_stay()
    ensures { PathsStay }
{}

/// What the limits of the profile are.
pub fn the_numbers_are()
    ensures { TheNumbersAre }
{}
