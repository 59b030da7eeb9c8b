//! What merges rest on, and what they leave: contracts of functions that do nothing.
ghost use Rattle.std.specs.Prelude.{◌≡◌};
ghost use Rattle.merging_runs.specs.AtRest.{RunsAreFewLaw, RunsHoldLittleLaw};
ghost use Rattle.merging_runs.specs.declared.merges.TheConstants.{RELEASED_MAX, SWEPT_MAX};

/// Does nothing, and takes no memory. Its contract has the numbers behind names of other clauses: how many elements two runs have at most
/// that are made one although one who may still ask began between their numbers, and for how many elements of a run memory is released
/// at once.
pub fn law_merge_limits()
    ensures swept { SWEPT_MAX ≡ 16384 }
    ensures released { RELEASED_MAX ≡ 4096 }
{}

/// Does nothing, and takes no memory. Its contract bounds runs that are finished, of which no two beside one another become one, however
/// many commits there were. Where those who may still ask began at B numbers, they hold together at most 2 * (2 * B + 1) times what the
/// longest holds (`elements`), and are 2 * B + 1 times the logarithm of that at most (`runs`).
pub fn law_runs_hold_little()
    ensures elements { RunsHoldLittleLaw }
    ensures runs { RunsAreFewLaw }
{}
