use super::*;
use crate::aad::aad_of;
use arrayvec::ArrayVec;
use coap_message::{Draft, Head, Kind, TooLong, parse};
use edge_traits::PledgeId;
use oscore_context::{Context, Keys, Side, nonce_of};
use std::alloc::Global;
use std::process::Abort;
use std::test::Fail;

mod exchanges;
mod hostile;
mod option;
mod vectors;

const A1: PledgeId = PledgeId([0, 0, 0, 0, 0, 0, 0, 0xa1]);

const PSK: [u8; 16] = [7; 16];

/// A buffer that holds these bytes.
fn buffer<const N: usize>(rt: &impl Abort, bytes: &[u8]) -> ArrayVec<u8, N> {
    let mut buffer = ArrayVec::new();
    assert!(rt; buffer.try_extend_from_slice(bytes).is_ok());
    buffer
}
