use crate::{WideCover, keystream};
use booter::Booter;
use cover::Cover;
use handover::Handover;
use keystream::wide::Wide;
use refusal::Refusal;
use std::test::Fail;

fn new_cover() -> WideCover {
    Cover::new(Handover::new(Booter::new()))
}

// What a key and an IV are refused by, if they are.
fn tried(key: &[u8], iv: &[u8]) -> Result<(), Refusal> {
    let mut out = [9u8; 4];
    keystream(key, iv, 0, &mut out)
}

#[test]
fn lengths(rt: HostRuntime) {
    assert_eq!(rt; tried(&[7; 0], &[7; 16]), Err(Refusal::KeyLength));
    assert_eq!(rt; tried(&[7; 15], &[7; 16]), Err(Refusal::KeyLength));
    assert_eq!(rt; tried(&[7; 17], &[7; 16]), Err(Refusal::KeyLength));
    assert_eq!(rt; tried(&[7; 256], &[7; 256]), Ok(()));
    assert_eq!(rt; tried(&[7; 257], &[7; 16]), Err(Refusal::KeyLength));
    assert_eq!(rt; tried(&[7; 16], &[7; 0]), Err(Refusal::IvLength));
    assert_eq!(rt; tried(&[7; 16], &[7; 15]), Err(Refusal::IvLength));
    assert_eq!(rt; tried(&[7; 16], &[7; 17]), Err(Refusal::IvLength));
    assert_eq!(rt; tried(&[7; 16], &[7; 257]), Err(Refusal::IvLength));
    assert_eq!(rt; tried(&[7; 15], &[7; 17]), Err(Refusal::KeyLength));
}

// The numbers by which users see them.
#[test]
fn numbers(rt: HostRuntime) {
    assert_eq!(rt; Refusal::KeyLength.number(), 2);
    assert_eq!(rt; Refusal::NotBegun.number(), 4);
    assert_eq!(rt; Refusal::IvLength.number(), 6);
    assert_eq!(rt; Refusal::PositionLimit.number(), 13);
}

// What a stretch from `from` on is refused by, if it is.
fn stretched(from: u64, out: &mut [u8]) -> Result<(), Refusal> {
    let key = [1u8; 16];
    keystream(&key, &key, from, out)
}

#[test]
fn the_last_position(rt: HostRuntime) {
    let mut out = [9u8; 7];
    assert_eq!(rt;
        stretched(4_294_967_290, &mut out),
        Err(Refusal::PositionLimit)
    );
    assert_eq!(rt; out, [9u8; 7]);
    assert_eq!(rt;
        stretched(4_294_967_296, &mut out[..1]),
        Err(Refusal::PositionLimit)
    );
    assert_eq!(rt; out, [9u8; 7]);
    assert_eq!(rt;
        stretched(u64::MAX, &mut out[..1]),
        Err(Refusal::PositionLimit)
    );
    assert_eq!(rt; out, [9u8; 7]);
    assert_eq!(rt; stretched(4_294_967_296, &mut out[..0]), Ok(()));
    assert_eq!(rt; out, [9u8; 7]);
}

#[test]
fn before_a_set_up(rt: HostRuntime) {
    let mut cover = new_cover();
    let mut bytes = [5u8; 3];
    let mut none = [0u8; 0];
    assert_eq!(rt; cover.cover(&mut bytes), Err(Refusal::NotBegun));
    assert_eq!(rt; cover.cover(&mut none), Err(Refusal::NotBegun));
    assert_eq!(rt; cover.set_up(&[1; 16], &[1; 3]), Err(Refusal::IvLength));
    assert_eq!(rt; bytes, [5u8; 3]);
}

#[test]
fn a_refused_set_up_leaves_the_cover(rt: HostRuntime) -> Result<(), Fail> {
    let key = [1u8; 16];
    let mut straight = [0u8; 20];
    let mut first = [0u8; 5];
    let mut second = [0u8; 15];
    keystream(&key, &key, 0, &mut straight)?;
    let mut cover = new_cover();
    cover.set_up(&key, &key)?;
    assert_eq!(rt; cover.cover(&mut first)?, 0);
    assert_eq!(rt; cover.set_up(&[1; 15], &key), Err(Refusal::KeyLength));
    assert_eq!(rt; cover.cover(&mut second)?, 5);
    assert!(rt; straight.iter().eq(first.iter().chain(second.iter())));
    Ok(())
}
