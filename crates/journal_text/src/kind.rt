//! The kinds of entries, each with the byte that its spelling begins with.
ghost use Rattle.std.specs.Prelude.{◌≡◌};

/// What an entry decides.
#[derive(Clone, Copy, Debug, PartialEq, Eq)]
pub enum Kind {
    Settings,
    Enroll,
    Grant,
    Refuse,
    Block,
    Roll,
    Given,
    Stale,
    Switch,
    Release,
}

impl Kind {
    ghost use Rattle.journal_text.specs.Kinds.{kind_code, kind_of};

    /// The first byte of an entry of this kind.
    pub const fn code(self) -> u8
        ensures { result ≡ kind_code self }
    {
        match self {
            Kind::Settings => 1,
            Kind::Enroll => 2,
            Kind::Grant => 3,
            Kind::Refuse => 4,
            Kind::Block => 5,
            Kind::Roll => 6,
            Kind::Given => 7,
            Kind::Stale => 8,
            Kind::Switch => 9,
            Kind::Release => 10,
        }
    }

    /// The kind of the entries that begin with this byte.
    pub const fn of(code: u8) -> Option<Kind>
        ensures { result ≡ kind_of code }
    {
        match code {
            1 => Some(Kind::Settings),
            2 => Some(Kind::Enroll),
            3 => Some(Kind::Grant),
            4 => Some(Kind::Refuse),
            5 => Some(Kind::Block),
            6 => Some(Kind::Roll),
            7 => Some(Kind::Given),
            8 => Some(Kind::Stale),
            9 => Some(Kind::Switch),
            10 => Some(Kind::Release),
            _ => None,
        }
    }
}
