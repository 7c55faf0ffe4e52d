//! The fields of an inventory.
ghost use Rattle.std.specs.Prelude.{◌≡◌, Some};
ghost use Rattle.join_policy.specs.Names.{name_of};

use std::fmt;

/// A field of the document, or of a row of its array `pledge`.
#[derive(Clone, Copy, Debug, PartialEq, Eq)]
pub enum FieldName {
    Network,
    PoolFirst,
    PoolCount,
    Hours,
    Keys,
    Rate,
    Jrc,
    Refused,
    NodeHost,
    Pledge,
    Id,
    Psk,
    Allow,
    Sixlbr,
}

impl FieldName {
    ghost use Rattle.std.specs.Prelude.{◌≡◌};
    ghost use Rattle.join_policy.specs.Names.{name_of};

    /// The name as a document spells it.
    pub fn name(self) -> &'static str
        ensures { result.now ≡ name_of self }
    {
        match self {
            FieldName::Network => "network",
            FieldName::PoolFirst => "pool_first",
            FieldName::PoolCount => "pool_count",
            FieldName::Hours => "hours",
            FieldName::Keys => "keys",
            FieldName::Rate => "rate",
            FieldName::Jrc => "jrc",
            FieldName::Refused => "refused",
            FieldName::NodeHost => "node_host",
            FieldName::Pledge => "pledge",
            FieldName::Id => "id",
            FieldName::Psk => "psk",
            FieldName::Allow => "allow",
            FieldName::Sixlbr => "sixlbr",
        }
    }
}

impl fmt::Display for FieldName {
    ghost output = { λ field. Some (name_of field) };

    fn fmt<W: fmt::Write>(&self, f: &mut fmt::Formatter<W>) -> fmt::Result {
        f.write_str(self.name())
    }
}
