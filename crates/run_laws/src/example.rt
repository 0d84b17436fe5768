//! An example of runs through two modules.
#![tactic(auto)]

ghost use Rattle.run_laws.specs.Example.{ExampleMeans, example as example_modules};
ghost use Rattle.run_laws.specs.Formed.{AreChecked};

/// A law: what two calls of the example mean, one without an exception and one with.
pub fn example_means()
    ensures { ExampleMeans }
{}

/// A law: the modules of the example meet the premise of the laws.
pub fn example_is_checked()
    ensures { AreChecked example_modules }
{}
