//! What a history is opened with.
use edge_traits::PledgeId;
use journal_text::Settings;

/// The settings, and for each pledge that has a key its identifier and the check of that key, in the inventory's order.
#[derive(Drop)]
pub struct Opening {
    pub settings: Settings,
    pub rows: Vec<(PledgeId, [u8; 32])>,
}
