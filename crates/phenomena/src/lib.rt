//! What the store's histories have none of, in the words of Adya (1999): cycles of dependencies, and reads of what nobody committed.
//!
//! The definitions stand in `specs/`: what a transaction reads by its requests and replies, the versions of a key, the direct dependencies
//! between committed transactions, and the phenomena.
#![tactic(auto)]

ghost use Rattle.phenomena.specs.Laws.{DirectIsDependency, NoCycle, NoPhenomena, ReadsLaw};

use model::{law_history_has_serial_order, law_machine_is_serializable};

/// No history that the store reaches has a cycle of dependencies, nor of dependencies and of pairs of which one had committed when the
/// other began. `Engine::law_is_lawful` and `Hub::law_is_lawful` say of each state that an engine or a hub stands for that the machine
/// reaches it.
/// So this holds of what has committed in each of them.
pub fn law_histories_have_no_cycle()
    ensures { NoCycle }
{
    law_machine_is_serializable();
    law_history_has_serial_order();
}

/// Each of Adya's direct dependencies between transactions that have committed, by a write, by a read of an item or of a predicate or by
/// what comes after such a read, is a dependency of this profile.
pub fn law_direct_dependencies_are_dependencies()
    ensures { DirectIsDependency }
{
    law_machine_is_serializable();
}

/// The store keeps Adya's highest level, PL-3. What a transaction reads, be it open or committed, is the last write of one that has
/// committed, or what the store was opened with: so there is no aborted read (G1a) and no intermediate one (G1b). And a history that the
/// store reaches has no cycle of his dependencies: none of writes (G0), of writes and reads (G1c), or with an anti-dependency (G-single,
/// G2).
pub fn law_histories_have_no_phenomena()
    ensures reads { ReadsLaw }
    ensures cycles { NoPhenomena }
{
    law_machine_is_serializable();
    law_history_has_serial_order();
}
