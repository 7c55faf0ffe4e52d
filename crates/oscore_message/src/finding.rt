//! Requests as they are found in a datagram, before any key is used.
ghost use Rattle.std.specs.Prelude.{◌≡◌, ◌≤◌, ◌<◌, ◌^◌, [], ◌∷◌, List, ℕ, Result, length, Ok, Some, IfOk, true, ◌↔◌};
ghost use Rattle.coap_message.specs.Message.{packet_of};
ghost use Rattle.coap_message.specs.Reading.{seen};
ghost use Rattle.oscore_message.specs.declared.found.FindFault.{FindFault};
ghost use Rattle.oscore_message.specs.OptionValue.{fields_of, IsOptionValue};
ghost use Rattle.oscore_message.specs.Finding.{Request, request_of, HasValue, IsFinding, IsFindingOf};

use crate::found::{FindFault, Found};
use crate::option_value::{BadOption, OptionValue};
use crate::options::{is_request, oscore_value};
use crate::value_reader::read_option;
use coap_message::{Message, parse};
use oscore_context::Side;

// The message, and the value of its OSCORE option.
fn find_value(bytes: &[u8]) -> Result<(Message<'_>, &[u8]), FindFault>
    requires { length bytes.now ≤ 1280 }
    ensures { IsFindingOf bytes.now result }
{
    let message = match parse(bytes) {
        Ok(message) => message,
        Err(_) => return Err(FindFault::NotCoap),
    };
    if !is_request(&message) {
        return Err(FindFault::NotRequest);
    }
    match oscore_value(message.iter()) {
        None => Err(FindFault::NoOscore),
        Some(value) => Ok((message, value)),
    }
}

fn has_kid(option: &OptionValue<'_>, kid: &[u8]) -> bool
    ensures { result ≡ true ↔ (fields_of option.now).kid ≡ Some kid.now }
{
    match option.kid {
        None => false,
        Some(other) => other == kid,
    }
}

fn find_from<'a>(kid: &[u8], bytes: &'a [u8]) -> Result<Found<'a>, FindFault>
    requires { length bytes.now ≤ 1280 }
    ensures { IsFinding kid.now bytes.now (seen request_of result) }
{
    let (message, value) = match find_value(bytes) {
        Ok(found) => found,
        Err(fault) => return Err(fault),
    };
    let option = match read_option(value) {
        Ok(option) => option,
        Err(BadOption(at)) => return Err(FindFault::BadOption(at)),
    };
    let Some(number) = option.number else {
        return Err(FindFault::BadOption(0));
    };
    if !has_kid(&option, kid) {
        return Err(FindFault::OtherKid);
    }
    Ok(Found {
        message,
        option,
        number,
    })
}

/// Finds a pledge's request in a datagram (RFC 8613, 8.2; RFC 9031, 8.1.1): its kid is empty.
pub fn find(bytes: &[u8]) -> Result<Found<'_>, FindFault>
    requires { length bytes.now ≤ 1280 }
    // What is found is there, and a reason applies, with none before it.
    ensures found { IsFinding [] bytes.now (seen request_of result) }
    // What is there is found, and the first reason that applies is answered.
    ensures only { (r : Result Request FindFault) → IsFinding [] bytes.now r → seen request_of result ≡ r }
{
    find_from(Side::Pledge.id(), bytes)
}

/// Finds a registrar's request, an update, in a datagram: its kid is the registrar's Sender ID, `JRC`.
pub fn find_update(bytes: &[u8]) -> Result<Found<'_>, FindFault>
    requires { length bytes.now ≤ 1280 }
    ensures found { IsFinding (0x4a ∷ 0x52 ∷ 0x43 ∷ []) bytes.now (seen request_of result) }
    ensures only { (r : Result Request FindFault) → IsFinding (0x4a ∷ 0x52 ∷ 0x43 ∷ []) bytes.now r → seen request_of result ≡ r }
{
    find_from(Side::Registrar.id(), bytes)
}
