//! Overloaded attributes, by computation: each case is the contract of a function that does nothing.

ghost use Rattle.std.specs.Prelude.{◌≡◌, []};
ghost use Rattle.at_start.specs.Overloading.{told_apart};
ghost use Rattle.at_start.specs.SampleOverloads.{accessors, apart, written};

/// Declarations and calls, also in braces of folds and in arguments, each by its number; the name of an accessor stays.
pub fn overloaded_attributes()
    ensures apart { told_apart [] written ≡ apart }
    ensures accessors { told_apart [] accessors ≡ accessors }
{}
