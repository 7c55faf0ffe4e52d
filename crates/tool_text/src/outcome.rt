//! What is printed for an outcome.
ghost use Rattle.std.specs.Prelude.{◌≡◌, ◌≤◌, ◌++◌, ◌+◌, OnOk, OnErr, codes, decimal, length};
ghost use Rattle.arrayvec.specs.ArrayVec.{array_vec_len};
ghost use Rattle.edge_traits.specs.Faults.{HasCause};
ghost use Rattle.edge_traits.specs.Sink.{Appends, AppendsPrefix};
ghost use Rattle.tool_text.specs.Outcome.{outcome_text, address_text, code_text, lease_text, quiet_text};

use arrayvec::ArrayVec;
use edge_traits::{Failed, Sink, write_all};
use itoa::Buffer;
use join_history::Quiet;

/// What a line of a script came to. `until` is a whole second, and a code is one of RFC 7252, 3.
#[derive(Clone, Copy, Debug, PartialEq, Eq)]
pub enum Outcome {
    /// The request gets a lease on this address.
    Grant { address: u16, until: u64 },
    /// The request is refused.
    Refuse { code: u8 },
    /// The last decision holds, and gave this lease.
    AgainGrant { address: u16, until: u64 },
    /// The last decision holds, and was a refusal.
    AgainRefuse { code: u8 },
    /// The request gets no answer.
    Quiet(Quiet),
    /// The disk failed, and this is its count of faults. The decision was made and is pending.
    Unsure { faults: u64 },
    /// An entry is due, and the log has this many entries and no room.
    Full { entries: u32 },
}

/// The most digits of a number.
const NUMBER_SIZE: usize = 20;

/// The most bytes of a lease's text: four digits, a space, and twenty digits.
const LEASE_SIZE: usize = 25;

/// The most bytes of an outcome's text: a word with its space, a lease, and the LF.
const TEXT_SIZE: usize = 32;

/// Prints the line of an outcome, with its LF.
pub fn write_outcome<K: Sink>(out: &mut K, outcome: &Outcome) -> Result<(), Failed>
    ensures ok { OnOk result (Appends (K.written out.old) (K.written out.new) (outcome_text outcome.now)) }
    ensures err { OnErr result (AppendsPrefix (K.written out.old) (K.written out.new) (outcome_text outcome.now)) }
    ensures cause { HasCause (K.fault_count out.old) (K.fault_count out.new) result }
{
    write_all(out, text_of(outcome).as_slice())
}

fn text_of(outcome: &Outcome) -> ArrayVec<u8, TEXT_SIZE>
    ensures { result.items ≡ outcome_text outcome.now }
{
    match *outcome {
        Outcome::Grant { address, until } => line(b"grant ", lease(address, until).as_slice()),
        Outcome::Refuse { code } => line(b"refuse ", &code_digits(code)),
        Outcome::AgainGrant { address, until } => line(b"again ", lease(address, until).as_slice()),
        Outcome::AgainRefuse { code } => line(b"again ", &code_digits(code)),
        Outcome::Quiet(why) => line(b"quiet ", quiet_word(why)),
        Outcome::Unsure { faults } => number_line(b"unsure ", faults),
        Outcome::Full { entries } => number_line(b"full ", u64::from(entries)),
    }
}

fn line(word: &[u8], rest: &[u8]) -> ArrayVec<u8, TEXT_SIZE>
    requires { length word.now + length rest.now + 1 ≤ TEXT_SIZE }
    ensures { result.items ≡ word.now ++ rest.now ++ codes "\n" }
{
    let mut text = ArrayVec::new();
    push(&mut text, word);
    push(&mut text, rest);
    text.push(b'\n');
    text
}

fn number_line(word: &[u8], number: u64) -> ArrayVec<u8, TEXT_SIZE>
    requires { length word.now + NUMBER_SIZE + 1 ≤ TEXT_SIZE }
    ensures { result.items ≡ word.now ++ decimal number ++ codes "\n" }
{
    let mut buffer = Buffer::new();
    line(word, buffer.format(number).as_bytes())
}

fn lease(address: u16, until: u64) -> ArrayVec<u8, LEASE_SIZE>
    ensures { result.items ≡ lease_text address until }
{
    let mut buffer = Buffer::new();
    let mut text = ArrayVec::new();
    push(&mut text, &address_digits(address));
    text.push(b' ');
    push(&mut text, buffer.format(until).as_bytes());
    text
}

fn push<const N: usize>(text: &mut ArrayVec<u8, N>, bytes: &[u8])
    requires { array_vec_len text.old + length bytes.now ≤ N }
    ensures { text.new.items ≡ text.old.items ++ bytes.now }
{
    text.try_extend_from_slice(bytes).unwrap();
}

fn address_digits(address: u16) -> [u8; 4]
    ensures { result ≡ address_text address }
{
    let mut digits = [0; 4];
    hex::encode_to_slice(address.to_be_bytes(), &mut digits).unwrap();
    digits
}

fn code_digits(code: u8) -> [u8; 3]
    ensures { result ≡ code_text code }
{
    let detail = code % 32;
    [b'0' + code / 32, b'0' + detail / 10, b'0' + detail % 10]
}

fn quiet_word(why: Quiet) -> &'static [u8]
    ensures { result.now ≡ quiet_text why }
{
    match why {
        Quiet::Taken => b"taken",
        Quiet::Old => b"old",
        Quiet::Late => b"late",
    }
}
