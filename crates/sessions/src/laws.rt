//! Laws of sessions. Each is the contract of a function that does nothing.
ghost use Rattle.sessions.specs.Laws.{SameBytes};
ghost use Rattle.sessions.specs.FoundMaps.{FoundAfter, FoundDuring};

/// Two transactions that began with equal maps and asked the same were answered the same bytes, whatever others did. (Snapshot
/// isolation as in Fekete, Liarokapis, O'Neil, O'Neil and Shasha, TODS 2005.)
pub fn law_replies_are_private()
    ensures { SameBytes }
{}

/// Of the maps that a crash may leave: once all was answered it is the one that is committed, or one with a COMMIT that was answered a
/// store fault; during one event more it is also the one with the COMMIT that this executes.
pub fn law_crashes_leave_the_last_map()
    ensures after { FoundAfter }
    ensures during { FoundDuring }
{}
