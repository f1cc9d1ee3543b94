//! What the board's search finds in the tables, and what they hold as a list.

ghost use Rattle.vm_shadow.specs.Laws.{SearchesFindEntries, TablesAreOfTheArea, TablesStand, TablesAreNeeded};
ghost use Rattle.vm_shadow.specs.Listed.{EntriesAreListed, NothingIsListed, FillsAreListed, DropsAreListed};

/// A search from a root, for either space, finds exactly the entries of the root's space and changes nothing.
pub fn searches_find_entries()
    ensures { SearchesFindEntries }
{}

/// What a shadow holds is of its area's bytes alone, and all its tables stand there.
pub fn tables_are_of_the_area()
    ensures alone { TablesAreOfTheArea }
    ensures stand { TablesStand }
{}

/// The tables that stand are exactly those that the entries need, each once.
pub fn tables_are_needed()
    ensures { TablesAreNeeded }
{}

/// What a shadow holds is a list of entries, at most one a space and page, and what each call makes of it.
pub fn entries_are_listed()
    ensures all { EntriesAreListed }
    ensures cleared { NothingIsListed }
    ensures filled { FillsAreListed }
    ensures dropped { DropsAreListed }
{}
