//! Laws of the histories that versions represent. Each is the contract of a function that does nothing.
ghost use Rattle.versions.specs.Laws.{HoldingLaw, MapsLaw, ReadOnlyLaw};

/// Numbers may cease to be active, and each number from the greatest installed on may become active: so it is when transactions begin and
/// end.
pub fn law_numbers_change()
    ensures { HoldingLaw }
{}

/// What stands for a history stands for it with one more record that wrote nothing.
pub fn law_read_only_record_follows()
    ensures { ReadOnlyLaw }
{}

/// Over a map, the records of a history leave a map at each number.
pub fn law_history_has_maps()
    ensures { MapsLaw }
{}
