//! Byte sources.

use byte_source::{ByteSource, STREAM_LENGTH, ShakeSource, Tape};
use keccak::shake128;
use profile::SEED_LENGTH;
use std::test::Fail;

const SEED: [u8; SEED_LENGTH] = [0, 1, 2, 3, 4, 5, 6, 7, 8, 9, 10, 11, 12, 13, 14, 15];

#[test]
fn tape_gives_its_bytes_for_every_seed(rt: HostRuntime) {
    let mut tape = Tape::new(&[5, 6]);
    assert_eq!(rt; tape.next(), None, "it has not begun");
    for seed in [[0; SEED_LENGTH], SEED] {
        tape.begin(&seed);
        assert_eq!(rt; tape.next(), Some(5));
        assert_eq!(rt; tape.next(), Some(6));
        assert_eq!(rt; tape.next(), None);
        assert_eq!(rt; tape.next(), None);
    }
    tape.begin(&SEED);
    assert_eq!(rt; tape.next(), Some(5), "to begin is to start over");
    tape.begin(&SEED);
    assert_eq!(rt; tape.next(), Some(5));
}

/// The first four bytes, those around the first block's end, and the last two are from an
/// implementation in C.
#[test]
fn shake_gives_twenty_four_blocks(rt: HostRuntime) -> Result<(), Fail> {
    let mut source = ShakeSource::new();
    assert_eq!(rt; source.next(), None, "it has not begun");
    source.begin(&SEED);
    let mut bytes = [0; STREAM_LENGTH];
    for byte in &mut bytes {
        *byte = source.next().ok_or("used up too soon")?;
    }
    assert_eq!(rt; source.next(), None);
    assert_eq!(rt; source.next(), None);
    assert_eq!(rt; &bytes[..4], [152, 72, 25, 70].as_slice());
    assert_eq!(rt; &bytes[166..170], [67, 201, 218, 94].as_slice());
    assert_eq!(rt; &bytes[STREAM_LENGTH - 2..], [173, 129].as_slice());
    Ok(())
}

#[test]
fn shake_begins_anew(rt: HostRuntime) {
    let mut source = ShakeSource::new();
    let mut whole = [0; 169];
    shake128(&SEED, &mut whole);
    for other in [[7; SEED_LENGTH], SEED] {
        source.begin(&other);
        assert!(rt; source.next().is_some());
        source.begin(&SEED);
        for byte in whole {
            assert_eq!(rt; source.next(), Some(byte));
        }
    }
}
