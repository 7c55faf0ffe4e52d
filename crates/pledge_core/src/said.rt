//! What an answer's plaintext says.
ghost use Rattle.std.specs.Prelude.{◌≡◌, length};
ghost use Rattle.cbor_cojp.specs.Config.{config_at};
ghost use Rattle.pledge_core.specs.Taking.{said, configured};

use cbor_cojp::{Short, read_config};
use coap_message::parse_inner;

// The code 2.04.
const CHANGED: u8 = 68;

/// What an answer's plaintext says.
#[derive(Clone, Copy, Debug, PartialEq, Eq)]
pub(crate) enum Said {
    Joins(Short),
    Refuses(u8),
    Nothing,
}

fn read_payload(bytes: &[u8]) -> Said
    ensures { result ≡ configured (config_at (length bytes.now) bytes.now) }
{
    match read_config(bytes) {
        Err(_) => Said::Nothing,
        Ok(config) => match config.short {
            None => Said::Nothing,
            Some(short) => Said::Joins(short),
        },
    }
}

/// Reads an answer's plaintext.
pub(crate) fn read_answer(plain: &[u8]) -> Said
    ensures { result ≡ said plain.now }
{
    match parse_inner(plain) {
        Err(_) => Said::Nothing,
        Ok(inner) => {
            if inner.code != CHANGED {
                return Said::Refuses(inner.code);
            }
            read_payload(inner.payload)
        }
    }
}
