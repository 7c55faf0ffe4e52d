//! Key ids and keys in force, worked out by hand from the rule: key i of epoch e has the id 1 + (4 e + i) mod 252.
use crate::{KeySet, Phase, key_id};
use arrayvec::ArrayVec;
use std::process::Abort;
use std::test::Fail;

const FIRST: [u8; 16] = *b"\xe6\xbf\x42\x87\xc2\xd7\x61\x8d\x6a\x96\x87\x44\x5f\xfd\x33\xe6";

const SECOND: [u8; 16] = *b"\x00\x11\x22\x33\x44\x55\x66\x77\x88\x99\xaa\xbb\xcc\xdd\xee\xff";

fn set_of(epoch: u32, key: [u8; 16]) -> KeySet {
    let mut keys = ArrayVec::new();
    keys.push(key);
    KeySet { epoch, keys }
}

fn are_in_force(rt: &impl Abort, phase: &Phase, epoch: u32, keys: &[(u8, [u8; 16])]) {
    let found = phase.in_force();
    assert!(rt; found.as_slice() == keys, "keys");
    assert_eq!(rt; phase.epoch(), epoch);
    assert!(rt; phase.clone().unwrap() == *phase, "clone");
}

#[test]
fn ids_go_round_from_1_to_252(rt: HostRuntime) {
    assert_eq!(&rt; key_id(1, 0), 5);
    assert_eq!(&rt; key_id(2, 0), 9);
    assert_eq!(&rt; key_id(1, 3), 8);
    assert_eq!(&rt; key_id(62, 3), 252);
    assert_eq!(&rt; key_id(63, 0), 1);
    assert_eq!(&rt; key_id(u32::MAX, 3), 16);
}

#[test]
fn old_keys_come_before_new_ones(rt: HostRuntime) {
    are_in_force(&rt, &Phase::None, 0, &[]);
    are_in_force(&rt, &Phase::Steady(set_of(1, FIRST)), 1, &[(5, FIRST)]);
    are_in_force(
        &rt,
        &Phase::Spreading(set_of(1, FIRST), set_of(2, SECOND)),
        2,
        &[(5, FIRST), (9, SECOND)],
    );
}

#[test]
fn a_set_shows_its_epoch_and_no_key(rt: HostRuntime) -> Result<(), Fail> {
    let set = set_of(7, FIRST);
    let text = format!(in rt.alloc(); "{set:?}")?;
    assert_eq!(rt; text.as_str(), "KeySet { epoch: 7, .. }");
    let text = format!(in rt.alloc(); "{:?}", Phase::Steady(set))?;
    assert_eq!(rt; text.as_str(), "Steady(KeySet { epoch: 7, .. })");
    Ok(())
}
