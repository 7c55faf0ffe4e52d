//! Extended numbers, and values whose length they are (RFC 7252, 3.1; for the token's length RFC 8974, 2.1).
ghost use Rattle.std.specs.Prelude.{◌≡◌, ◌<◌, ◌≤◌, ◌+◌, ◌^◌, ◌++◌, length, IfSome};
ghost use Rattle.std.specs.Option.{option_map};
ghost use Rattle.arrayvec.specs.ArrayVec.{array_vec_len};
ghost use Rattle.coap_message.specs.Extended.{nibble_of, extension};
ghost use Rattle.coap_message.specs.Reading.{extended_at, sized_at};

use arrayvec::ArrayVec;

/// The number that a nibble and the bytes after it begin with, and what follows.
#[tactic(auto, unfolding(crate::specs::Reading::extended_at))]
pub(crate) fn read_extended(nibble: u8, bytes: &[u8]) -> Option<(usize, &[u8])>
    ensures value { option_map (λ x. (x.0, x.1.now)) result ≡ extended_at nibble bytes.now }
    ensures small { IfSome result (λ x. x.0 < 2 ^ 17) }
{
    match nibble {
        0..=12 => Some((nibble as usize, bytes)),
        13 => match bytes {
            [] => None,
            [first, rest @ ..] => Some((*first as usize + 13, rest)),
        },
        14 => match bytes {
            [] => None,
            [_] => None,
            [first, second, rest @ ..] => {
                Some((256 * *first as usize + *second as usize + 269, rest))
            }
        },
        _ => None,
    }
}

/// The value whose length a nibble and the bytes after it begin with, and what follows.
#[tactic(auto, unfolding(crate::specs::Reading::sized_at))]
pub(crate) fn read_sized(nibble: u8, bytes: &[u8]) -> Option<(&[u8], &[u8])>
    ensures { option_map (λ x. (x.0.now, x.1.now)) result ≡ sized_at nibble bytes.now }
{
    let (length, rest) = read_extended(nibble, bytes)?;
    if rest.len() < length {
        return None;
    }
    Some(rest.split_at(length))
}

/// The nibble that a number is written with.
pub(crate) fn nibble_for(number: usize) -> u8
    ensures value { result ≡ nibble_of number }
    ensures below { result < 15 }
{
    if number < 13 {
        number as u8
    } else if number < 269 {
        13
    } else {
        14
    }
}

/// How many bytes extend the nibble that a number is written with.
pub(crate) fn extension_length(number: usize) -> usize
    ensures value { result ≡ length (extension number) }
    ensures small { result ≤ 2 }
{
    if number < 13 {
        0
    } else if number < 269 {
        1
    } else {
        2
    }
}

/// Appends the bytes that extend the nibble.
pub(crate) fn push_extension(out: &mut ArrayVec<u8, 1280>, number: usize)
    requires fits { number < 65805 }
    requires room { array_vec_len out.old + length (extension number) ≤ 1280 }
    ensures { out.new.items ≡ out.old.items ++ extension number }
{
    if number < 13 {
        return;
    }
    if number < 269 {
        out.push((number - 13) as u8);
        return;
    }
    out.push(((number - 269) / 256) as u8);
    out.push(((number - 269) % 256) as u8);
}

/// Appends bytes for which there is room.
pub(crate) fn append(out: &mut ArrayVec<u8, 1280>, bytes: &[u8])
    requires { array_vec_len out.old + length bytes.now ≤ 1280 }
    ensures { out.new.items ≡ out.old.items ++ bytes.now }
{
    out.try_extend_from_slice(bytes).unwrap();
}
