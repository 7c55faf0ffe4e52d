//! Where the answer to a request goes.
ghost use Rattle.coap_message.specs.Message.{packet_of};
ghost use Rattle.oscore_message.specs.Finding.{IsReplyTo};

use crate::answer::Reply;
use crate::bytes::append;
use crate::found::Found;
use arrayvec::ArrayVec;
use coap_message::Kind;

impl Found<'_> {
    /// Where the answer goes: it acknowledges a CON, and to a NON it is a NON with the message ID `mid`.
    pub fn reply(&self, mid: u16) -> Reply
        ensures { IsReplyTo (packet_of self.now.message).header mid result }
    {
        let mut token = ArrayVec::new();
        append(&mut token, self.message.token);
        match self.message.kind {
            Kind::Con => Reply {
                kind: Kind::Ack,
                mid: self.message.mid,
                token,
            },
            _ => Reply {
                kind: Kind::Non,
                mid,
                token,
            },
        }
    }
}
