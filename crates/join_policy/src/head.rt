//! The document's own fields: the network, its settings, and what else the rows don't say.
ghost use Rattle.std.specs.Prelude.{◌≡◌, ◌+◌, ◌≤◌, IfOk};
ghost use Rattle.toml.specs.View.{view};
ghost use Rattle.join_policy.specs.Reading.{pool_at, told_at, head_at};
ghost use Rattle.join_policy.specs.Sound.{IsSoundHead};

use crate::FieldName;
use crate::lookup::{
    optional_bytes, optional_number, optional_refused, required_network, required_number,
};
use arrayvec::ArrayVec;
use edge_traits::PledgeId;
use journal_text::Settings;
use toml::Value;

/// The pool of short addresses.
#[derive(Clone, Copy)]
pub struct Pool {
    pub first: u16,
    pub count: u16,
}

/// What pledges learn beside keys and address.
#[derive(Drop)]
pub struct Told {
    pub rate: Option<u32>,
    pub jrc: Option<[u8; 16]>,
    pub refused: ArrayVec<PledgeId, 16>,
}

/// What a document says beside its rows.
#[derive(Drop)]
pub struct Head {
    pub network: ArrayVec<u8, 16>,
    pub keys: u8,
    pub node_host: [u8; 14],
    pub settings: Settings,
}

#[tactic(auto, unfolding(crate::specs::Reading::pool_at))]
fn read_pool(document: &Value) -> Result<Pool, FieldName>
    ensures exact { result ≡ pool_at (view document.now) }
    ensures in_range { IfOk result (λ pool. (1 ≤ pool.first) × (1 ≤ pool.count) × (pool.first + pool.count ≤ 65534)) }
{
    let first = required_number(FieldName::PoolFirst, 1, 65533, document)?;
    let count = required_number(FieldName::PoolCount, 1, 65534 - first, document)?;
    Ok(Pool {
        first: first as u16,
        count: count as u16,
    })
}

#[tactic(auto, unfolding(crate::specs::Reading::told_at))]
fn read_told(document: &Value) -> Result<Told, FieldName>
    ensures { result ≡ told_at (view document.now) }
{
    let rate = optional_number(FieldName::Rate, 0, u32::MAX, document)?;
    let jrc = optional_bytes::<16>(FieldName::Jrc, document)?;
    let refused = match optional_refused(FieldName::Refused, document)? {
        None => ArrayVec::new(),
        Some(refused) => refused,
    };
    Ok(Told { rate, jrc, refused })
}

#[tactic(auto, unfolding(crate::specs::Reading::head_at))]
pub fn read_head(document: &Value) -> Result<Head, FieldName>
    ensures exact { result ≡ head_at (view document.now) }
    ensures sound { IfOk result (λ head. IsSoundHead head.network.items head.keys head.settings) }
{
    let network = required_network(FieldName::Network, document)?;
    let pool = read_pool(document)?;
    let hours = required_number(FieldName::Hours, 0, 65535, document)?;
    let keys = optional_number(FieldName::Keys, 1, 4, document)?;
    let told = read_told(document)?;
    let node_host = optional_bytes::<14>(FieldName::NodeHost, document)?;
    Ok(Head {
        network,
        keys: keys.unwrap_or(1) as u8,
        node_host: node_host.unwrap_or([0; 14]),
        settings: Settings {
            first: pool.first,
            count: pool.count,
            hours: hours as u16,
            rate: told.rate,
            jrc: told.jrc,
            refused: told.refused,
        },
    })
}
