//! Options: their number and their value (RFC 7252, 3.1).
ghost use Rattle.std.specs.Prelude.{◌≡◌, ◌≤◌, ◌+◌, ◌++◌, ◌↔◌, IsTrue, [], length};
ghost use Rattle.std.specs.Option.{option_map};
ghost use Rattle.arrayvec.specs.ArrayVec.{array_vec_len};
ghost use Rattle.coap_message.specs.Options.{IsOptions, IsCritical, option_spelling};
ghost use Rattle.coap_message.specs.Reading.{option_at, options_of, behind_options};

use crate::extended::{
    append, extension_length, nibble_for, push_extension, read_extended, read_sized,
};
use arrayvec::ArrayVec;

/// Whether a message with an option of this number must be refused by who doesn't know it (RFC 7252, 5.4.1).
pub fn is_critical(number: u16) -> bool
    ensures { IsTrue result ↔ IsCritical number }
{
    number % 2 == 1
}

/// The option that is at the start, after one of the number `last`, and what follows.
#[tactic(auto, unfolding(crate::specs::Reading::option_at))]
pub(crate) fn read_option(last: u16, bytes: &[u8]) -> Option<(u16, &[u8], &[u8])>
    ensures { option_map (λ x. ((x.0, x.1.now), x.2.now)) result ≡ option_at last bytes.now }
{
    match bytes {
        [] => None,
        [first, rest @ ..] => {
            let (delta, rest) = read_extended(*first / 16, rest)?;
            let (value, rest) = read_sized(*first % 16, rest)?;
            let number = last as usize + delta;
            if number > 65535 {
                return None;
            }
            Some((number as u16, value, rest))
        }
    }
}

/// The bytes after all options.
pub(crate) fn skip_options(bytes: &[u8]) -> &[u8]
    ensures { result.now ≡ behind_options 0 bytes.now }
{
    let mut last = 0;
    let mut rest = bytes;
    while let Some((number, _, after)) = read_option(last, rest) {
        last = number;
        rest = after;
    }
    rest
}

/// How many bytes an option is written with, after one of the number `last`.
pub(crate) fn option_length(last: u16, number: u16, value: &[u8]) -> usize
    requires { last ≤ number }
    ensures { result ≡ length (option_spelling last number value.now) }
{
    let delta = (number - last) as usize;
    1 + extension_length(delta) + extension_length(value.len()) + value.len()
}

/// Appends an option, after one of the number `last`.
pub(crate) fn push_option(out: &mut ArrayVec<u8, 1280>, last: u16, number: u16, value: &[u8])
    requires above { last ≤ number }
    requires room { array_vec_len out.old + length (option_spelling last number value.now) ≤ 1280 }
    ensures { out.new.items ≡ out.old.items ++ option_spelling last number value.now }
{
    let delta = (number - last) as usize;
    let first = 16 * nibble_for(delta) + nibble_for(value.len());
    out.push(first);
    push_extension(out, delta);
    push_extension(out, value.len());
    append(out, value);
}

/// The options of a message in their order: each one's number and value.
#[derive(Clone, Copy, Debug)]
pub struct Options<'a> {
    pub(crate) last: u16,
    pub(crate) bytes: &'a [u8],
    pub ghost whole: { behind_options last bytes.now ≡ [] },
}

impl<'a> Options<'a> {
    ghost use Rattle.coap_message.specs.OptionsLeft.{options_left};

    /// The options that these bytes spell.
    pub(crate) fn in_bytes(bytes: &'a [u8]) -> Options<'a>
        requires { behind_options 0 bytes.now ≡ [] }
        ensures all { options_left result ≡ options_of 0 bytes.now }
        ensures spelled { IsOptions 0 bytes.now (options_left result) }
        ensures few { length (options_left result) ≤ length bytes.now }
    {
        Options { last: 0, bytes }
    }
}

impl<'a> Iterator for Options<'a> {
    ghost use Rattle.std.specs.Iterator.{YieldsFirstBy, item_count};
    ghost use Rattle.coap_message.specs.OptionsLeft.{option_view, options_left};

    type Item = (u16, &'a [u8]);

    ghost next_gives = { YieldsFirstBy option_view options_left };

    ghost remaining = { item_count options_left };

    fn next(&mut self) -> Option<(u16, &'a [u8])> {
        let (number, value, rest) = read_option(self.last, self.bytes)?;
        self.last = number;
        self.bytes = rest;
        Some((number, value))
    }
}
