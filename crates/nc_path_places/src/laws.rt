//! What follows from the definitions in `specs/`, each as the contract of a function that does nothing.
ghost use Rattle.nc_path_places.specs.Laws.{ProperKeysAreApart};

/// In a schema that modules define no predicate is of two keys.
pub fn proper_keys_are_apart()
    ensures { ProperKeysAreApart }
{}
