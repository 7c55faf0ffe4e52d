//! The law of proxies.
ghost use Rattle.join_proxy.specs.Laws.{RoundTrip};

/// Does nothing. Its clause is a law: what was forwarded comes back to who asked.
pub fn round_trip()
    ensures { RoundTrip }
{}
