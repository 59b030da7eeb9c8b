//! The laws of how few postings merges leave: contracts of functions that do nothing.
ghost use Rattle.pivot_check.specs.FewKept.{FewKeptLaw, KeepsLittleLaw};
ghost use Rattle.pivot_check.specs.Redundant.{FewPostingsLaw};

/// Does nothing, and takes no memory. Its contract says: of the postings of one key by rising number, none of which makes the next
/// redundant, there are two for each active begin number at most, and two more. None that `move_least` leaves behind another of its key is
/// redundant.
pub fn law_few_postings()
    ensures { FewPostingsLaw }
{}

/// Does nothing, and takes no memory. Its contract bounds what is kept of K written keys, however many commits there were. A run of which
/// no posting makes the next redundant, for those who began at B numbers, has at most (2 * B + 2) * K postings (`run`). All runs of a
/// `Committed` that keeps little have together 2 * (2 * B + 1) times as many at most, where B is 64, once they are finished and no two
/// beside one another become one (`runs`). That it keeps little is true of a new one, and each call of it leaves it so.
pub fn law_few_kept()
    ensures run { FewKeptLaw }
    ensures runs { KeepsLittleLaw }
{}
