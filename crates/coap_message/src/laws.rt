//! The laws of messages.
ghost use Rattle.coap_message.specs.Laws.{OneMessage, OneFault, NoFault, MessageOrFault, OneForm, OneSpelling};
ghost use Rattle.coap_message.specs.Sizes.{HeaderLen, OptionLen, MostExtension, MostPayload};

/// Does nothing. Its clauses are laws: what holds of the definitions of messages, faults and extended numbers.
pub fn message_laws()
    ensures one_message { OneMessage }
    ensures one_fault { OneFault }
    ensures no_fault { NoFault }
    ensures message_or_fault { MessageOrFault }
    ensures one_form { OneForm }
    ensures one_spelling { OneSpelling }
{}

/// Does nothing. Its clauses are laws: how long the pieces of a written message are.
pub fn size_laws()
    ensures header { HeaderLen }
    ensures option { OptionLen }
    ensures extension { MostExtension }
    ensures payload { MostPayload }
{}
