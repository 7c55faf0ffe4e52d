//! The bucket: how many bytes may be forwarded (RFC 9031, 8.4.2, join rate).
ghost use Rattle.std.specs.Prelude.{◌≡◌, ◌≤◌, ◌-◌};
ghost use Rattle.join_proxy.specs.Tokens.{capacity, bucket_of, tokens_at, bucket_after};

/// One datagram of the greatest length is always forwarded at last.
const MAX_DATAGRAM: u64 = 1280;
/// For how many seconds of silence the rate is kept.
const SAVED: u64 = 10;

/// The rate in bytes a second, the tokens that were left, and when.
#[derive(Clone, Copy, Debug, PartialEq, Eq)]
pub struct Bucket {
    pub(crate) rate: u32,
    pub(crate) level: u64,
    pub(crate) since: u64,
}

fn capacity(rate: u32) -> u64
    ensures { result ≡ capacity rate }
{
    (SAVED * u64::from(rate)).max(MAX_DATAGRAM)
}

impl Bucket {
    pub fn new(rate: u32, tokens: u64, now: u64) -> Bucket
        ensures { result ≡ bucket_of rate tokens now }
    {
        Bucket {
            rate,
            level: capacity(rate).min(tokens),
            since: now,
        }
    }

    /// The tokens at a time. A clock that goes back gains nothing.
    pub fn tokens(self, now: u64) -> u64
        ensures { result ≡ tokens_at self now }
    {
        let gained = u64::from(self.rate).saturating_mul(now.saturating_sub(self.since));
        capacity(self.rate).min(self.level.saturating_add(gained))
    }

    /// The bucket where this many bytes, of which it has enough, are forwarded.
    pub fn after(self, now: u64, size: u64) -> Bucket
        requires { size ≤ tokens_at self now }
        ensures { result ≡ bucket_after self now size }
    {
        Bucket {
            rate: self.rate,
            level: self.tokens(now) - size,
            since: self.since.max(now),
        }
    }
}
