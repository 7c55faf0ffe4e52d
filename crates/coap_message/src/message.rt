//! Messages that were read, in the bytes that they were read from.
ghost use Rattle.std.specs.Prelude.{◌≡◌, ◌≤◌, [], length};
ghost use Rattle.coap_message.specs.Reading.{behind_options};

use crate::header::Kind;
use crate::option::Options;

/// A message in its datagram (RFC 7252, 3). `options` are the options' bytes, without the marker after them.
#[derive(Clone, Copy, Debug, PartialEq, Eq)]
pub struct Message<'a> {
    pub kind: Kind,
    pub code: u8,
    /// The message ID.
    pub mid: u16,
    pub token: &'a [u8],
    pub options: &'a [u8],
    pub payload: &'a [u8],
    pub ghost whole: { behind_options 0 options.now ≡ [] },
}

impl<'a> Message<'a> {
    ghost use Rattle.coap_message.specs.OptionsLeft.{options_left};
    ghost use Rattle.coap_message.specs.Options.{IsOptions};
    ghost use Rattle.coap_message.specs.Message.{packet_of};

    /// The options in their order.
    pub fn iter(&self) -> Options<'a>
        ensures all { options_left result ≡ (packet_of self.now).options }
        ensures spelled { IsOptions 0 self.now.options.now (options_left result) }
        ensures few { length (options_left result) ≤ length self.now.options.now }
    {
        Options::in_bytes(self.options)
    }
}

/// An inner message in its OSCORE plaintext (RFC 8613, 5.3).
#[derive(Clone, Copy, Debug, PartialEq, Eq)]
pub struct Inner<'a> {
    pub code: u8,
    pub options: &'a [u8],
    pub payload: &'a [u8],
    pub ghost whole: { behind_options 0 options.now ≡ [] },
}

impl<'a> Inner<'a> {
    ghost use Rattle.coap_message.specs.OptionsLeft.{options_left};
    ghost use Rattle.coap_message.specs.Options.{IsOptions};
    ghost use Rattle.coap_message.specs.Message.{inner_packet_of};

    /// The options in their order.
    pub fn iter(&self) -> Options<'a>
        ensures all { options_left result ≡ (inner_packet_of self.now).options }
        ensures spelled { IsOptions 0 self.now.options.now (options_left result) }
        ensures few { length (options_left result) ≤ length self.now.options.now }
    {
        Options::in_bytes(self.options)
    }
}
