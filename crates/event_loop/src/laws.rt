//! The law of the loop's limits: the contract of a function that does nothing.
ghost use Rattle.std.specs.Prelude.{◌≡◌};
ghost use Rattle.event_loop.specs.declared.lingering.TheConstants.{LINGERING_BYTES, LINGERING_BYTES_A_TURN};
ghost use Rattle.event_loop.specs.declared.lingering.TheConstants.{LINGERING_MAX};
ghost use Rattle.event_loop.specs.declared.order.TheConstants.{WIDTH_MIN};
ghost use Rattle.event_loop.specs.declared.socket.TheConstants.{PROBES, SECONDS_BETWEEN_PROBES, SILENT_SECONDS};

/// Does nothing, and takes no memory. Its contract has the numbers behind names of other clauses: how wide a turn is at least, how many
/// connections linger, how many bytes of one are dropped in all and in a turn, and after how many seconds, how often and how many times the
/// system asks whether a silent peer is still there.
pub fn law_limits()
    ensures width { WIDTH_MIN ≡ 2 }
    ensures linger { LINGERING_MAX ≡ 64 }
    ensures dropped { LINGERING_BYTES ≡ 67108864 }
    ensures dropped_a_turn { LINGERING_BYTES_A_TURN ≡ 65536 }
    ensures silent { SILENT_SECONDS ≡ 120 }
    ensures between { SECONDS_BETWEEN_PROBES ≡ 30 }
    ensures probes { PROBES ≡ 4 }
{}
