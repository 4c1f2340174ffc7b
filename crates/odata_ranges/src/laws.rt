//! A law, as the contract of a function that does nothing but cite others.
ghost use Rattle.odata_ranges.specs.Ranges.{AreEntitiesKept};

/// A law: an entity that the engines can keep is kept as its type says, whatever is expanded in it.
pub fn entities_are_kept()
    ensures { AreEntitiesKept }
{}
