//! The laws of reading an object.
ghost use Rattle.cbor_cojp.specs.Join.{join_at};
ghost use Rattle.cbor_cojp.specs.Config.{config_at};
ghost use Rattle.cbor_cojp.specs.Laws.{Lasts, JoinCompletes, ConfigCompletes};

/// Does nothing. Its clauses are laws: a fault other than a cut or bytes that are left stays, whatever bytes follow, and
/// what was read up to a cut can be completed to an object.
pub fn object_laws()
    ensures join_lasts { Lasts join_at }
    ensures join_completes { JoinCompletes }
    ensures config_lasts { Lasts config_at }
    ensures config_completes { ConfigCompletes }
{}
