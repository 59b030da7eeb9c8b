//! Laws, each the contract of a function that does nothing: what drives do to a hub is a run of its events, and how large shares are.
ghost use Rattle.std.specs.Prelude.{◌≡◌};
ghost use Rattle.stream_driver.specs.declared.buffered.TheConstants.{HEAVY_TURNS, LIGHT_MAX, SHARE_MAX};
ghost use Rattle.stream_driver.specs.declared.driving.TheConstants.{LOOKED_MAX};
ghost use Rattle.stream_driver.specs.Sessions.{LeadsAreRuns};

use sector::Sectors;
use sessions::Hub;

/// Does nothing, and takes no memory. Its contract says that what leads from one hub to another is a run of the hub, whatever else is
/// said of it: lawful at each moment, with the failures of the device counted, and what a crash leaves known.
pub fn law_leads_are_runs<D: Sectors>(hub: &Hub<D>)
    ensures runs { LeadsAreRuns hub.now }
{
    // The law speaks of any hub: this one is named for its types alone.
    let _ = hub;
}

/// Does nothing, and takes no memory. Its contract says how many bytes a share of a turn is, and a light one, for how many turns a stream
/// is heavy, and how many pages a request looks at that ends a share: other clauses have the names.
pub fn law_shares()
    ensures whole { SHARE_MAX ≡ 262144 }
    ensures light { LIGHT_MAX ≡ 32768 }
    ensures turns { HEAVY_TURNS ≡ 16 }
    ensures looked { LOOKED_MAX ≡ 8 }
{}
