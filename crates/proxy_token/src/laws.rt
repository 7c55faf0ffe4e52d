//! The laws of tokens.
ghost use Rattle.proxy_token.specs.Answer.{OneClient, CountersDiffer};

/// Does nothing. Its clauses are laws: bytes are the token of one client at most, and counters keep
/// tokens apart.
pub fn token_laws()
    ensures one_client { OneClient }
    ensures counters_differ { CountersDiffer }
{}
