//! The laws of the definitions.
ghost use Rattle.aes_ccm.specs.Laws.{InverseIsInverse, OneInverse, OnePlaintext, SealingLength};

/// Does nothing. Its clauses are laws of the field and of sealings.
pub fn sealing_laws()
    ensures inverse { InverseIsInverse }
    ensures one_inverse { OneInverse }
    ensures sealing_length { SealingLength }
    ensures one_plaintext { OnePlaintext }
{}
