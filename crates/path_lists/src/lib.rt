//! That what is said of paths by rounds is so of whole paths, as lists of items.
#![tactic(auto)]

ghost use Rattle.path_lists.specs.Laws.{PathsAreLists, RulesAreOfPaths};

/// The points that the paths of a function come to are those where paths as lists of items end.
pub fn paths_are_lists()
    ensures { PathsAreLists }
{}

/// A rule is broken at a point exactly where a path breaks it there, or two paths do together.
pub fn rules_are_of_paths()
    ensures { RulesAreOfPaths }
{}
