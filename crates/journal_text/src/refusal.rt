//! Why a request is refused.
ghost use Rattle.std.specs.Prelude.{◌≡◌};

/// 4.00
pub const BAD_REQUEST: u8 = 0x80;

/// 4.02
pub const BAD_OPTION: u8 = 0x82;

/// 4.03
pub const FORBIDDEN: u8 = 0x83;

/// 4.04
pub const NOT_FOUND: u8 = 0x84;

/// 4.05
pub const METHOD_NOT_ALLOWED: u8 = 0x85;

/// 5.03
pub const SERVICE_UNAVAILABLE: u8 = 0xa3;

/// Why a genuine request gets no address. Each reason fixes the inner answer.
#[derive(Clone, Copy, Debug, PartialEq, Eq)]
pub enum Refusal {
    /// The inner message or its payload has no reading (4.00, no payload).
    Form,
    /// The value of this label of the Join Request is repeated, of the wrong kind or out of range (4.00).
    Malformed(u8),
    /// The value of this label isn't supported (4.00).
    Unsupported(u8),
    /// A critical inner option isn't known (4.02).
    Option,
    /// This rule of the inventory denies the pledge (4.03).
    Denied(u8),
    /// The path isn't `j` (4.04).
    Path,
    /// The method isn't POST (4.05).
    Method,
    /// No address of the pool is free (5.03).
    NoAddress,
}

impl Refusal {
    ghost use Rattle.std.specs.Prelude.{◌≡◌, ◌↔◌, IsTrue};
    ghost use Rattle.journal_text.specs.Codes.{code_of, IsReason};

    /// The code of the inner answer: the class in the upper three bits, the detail in the lower five (RFC 7252, 3).
    pub const fn code(self) -> u8
        ensures { result ≡ code_of self }
    {
        match self {
            Refusal::Form | Refusal::Malformed(_) | Refusal::Unsupported(_) => BAD_REQUEST,
            Refusal::Option => BAD_OPTION,
            Refusal::Denied(_) => FORBIDDEN,
            Refusal::Path => NOT_FOUND,
            Refusal::Method => METHOD_NOT_ALLOWED,
            Refusal::NoAddress => SERVICE_UNAVAILABLE,
        }
    }

    /// Whether the registrar has this reason: the labels are those of RFC 9031 that a Join Request has, and the rules
    /// are 1 to 4.
    pub fn is_reason(self) -> bool
        ensures { IsTrue result ↔ IsReason self }
    {
        match self {
            Refusal::Malformed(label) => matches!(label, 1 | 5 | 8),
            Refusal::Unsupported(label) => label == 1,
            Refusal::Denied(rule) => 1 <= rule && rule <= 4,
            _ => true,
        }
    }
}
