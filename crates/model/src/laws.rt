//! The laws of histories and of the machine. Each is the contract of a function that does nothing.
ghost use Rattle.model.specs.Cycle.{CycleLaw, DangerousCycleLaw, DangerousPivotLaw};
ghost use Rattle.model.specs.Laws.{AnswersComeBefore, ConflictsAreRecent, FaultsAreOfForm, LastMayCommit};
ghost use Rattle.model.specs.Laws.{VerdictHolds};
ghost use Rattle.model.specs.Laws.{MachineLaw, OrdersKeepTime, PlacesKeepTime, PlacesLaw, PlacesRise, ReplayLaw};
ghost use Rattle.model.specs.Restarts.{ReplaysFollow, RestartLaw};

/// Each cycle of dependencies has a pivot, and the one after it committed first of all, if no two concurrent transactions write one
/// key (Fekete et al. 2005).
pub fn cycle_has_pivot()
    ensures { CycleLaw }
{}

/// The pivots for which commits are refused are those that the law of cycles tells of: a dangerous pivot is a pivot, and each cycle
/// has a dangerous one, if no two concurrent transactions write one key. So a history that has none has no cycle.
pub fn law_cycle_has_dangerous_pivot()
    ensures pivots { DangerousPivotLaw }
    ensures cycles { DangerousCycleLaw }
{}

/// Without dangerous pivots and without concurrent writers of one key, the transactions of a history have a serial order, which is the
/// one by their places: each dependency rises in it, and it gives the same replies and the same final map. In every serial order one that
/// had committed when another began stands before that; by their places it does, be there pivots or not.
pub fn law_history_has_serial_order()
    ensures dependencies { PlacesRise }
    ensures real_time { PlacesKeepTime }
    ensures replay { ReplayLaw }
    ensures ahead { OrdersKeepTime }
{}

/// A request is refused for its form for four faults alone: an unknown command, another number of parts, a key or a limit out of bounds.
pub fn law_faults_are_of_form()
    ensures { FaultsAreOfForm }
{}

/// Whatever the sessions ask of the store, each open transaction was answered by its own copy alone, and the committed ones have a
/// serial order, which respects real time and gives the same replies and the same final map. The order by places is one, in which each
/// dependency rises: for of what has committed none is a dangerous pivot, and no two concurrent ones write one key.
pub fn law_machine_is_serializable()
    ensures serializable { MachineLaw }
    ensures places { PlacesLaw }
{}

/// A number that was answered to a COMMIT before another's BEGIN is executed is at most that one's begin number. So the real time that a
/// serial order respects is that of the answers.
pub fn law_answers_come_before()
    ensures before { AnswersComeBefore }
{}

/// What COMMIT lets pass never has a dangerous pivot or concurrent writers of one key, so the laws of histories hold of it. And it refuses
/// for a conflict only where another transaction has committed since the BEGIN: of those that contend one gets through.
pub fn law_verdict_is_sound()
    ensures holds { VerdictHolds }
    ensures none { LastMayCommit }
    ensures recent { ConflictsAreRecent }
{}

/// Of a store that is opened several times, each time over the map that it had come to before, all that was committed has one order, the
/// serial orders of each opening in a row, in which each transaction is given the replies that it had, and at whose end the map is the
/// one found.
pub fn law_restarts_have_one_order()
    ensures follow { ReplaysFollow }
    ensures order { RestartLaw }
{}
