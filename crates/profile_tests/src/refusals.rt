//! Every refusal of every function, once.

use house::{House, S};
use profile::Profile;
use reconcile::{Ding, Okcn, Reconciler};
use ring::{Fault, Modulus};
use std::test::Fail;
use survey::count_keys;

#[test]
fn numbers_out_of_range(rt: HostRuntime) {
    assert_eq!(rt; House::<S, Ding>::round(12289), Err(Fault::OutOfRange(0)));
    assert_eq!(rt;
        House::<S, Ding>::round(u32::MAX),
        Err(Fault::OutOfRange(0))
    );
    assert_eq!(rt; House::<S, Ding>::recover(4096), Err(Fault::OutOfRange(0)));
    assert_eq!(rt;
        House::<S, Ding>::reconcile(12289, 0),
        Err(Fault::OutOfRange(0))
    );
    assert_eq!(rt;
        House::<S, Okcn>::reconcile(12289, 0),
        Err(Fault::OutOfRange(0))
    );
    assert_eq!(rt; House::<S, Ding>::read(12289, 0), Err(Fault::OutOfRange(0)));
    assert_eq!(rt; House::<S, Okcn>::read(12289, 0), Err(Fault::OutOfRange(0)));
}

#[test]
fn signals_and_coins_out_of_range(rt: HostRuntime) {
    assert_eq!(rt; House::<S, Ding>::read(0, 2), Err(Fault::OutOfRange(0)));
    assert_eq!(rt; House::<S, Okcn>::read(0, 4), Err(Fault::OutOfRange(0)));
    assert_eq!(rt;
        House::<S, Ding>::read(0, 256),
        Err(Fault::OutOfRange(0)),
        "the low byte alone would be a signal"
    );
    assert_eq!(rt;
        House::<S, Okcn>::read(0, u32::MAX),
        Err(Fault::OutOfRange(0))
    );
    assert_eq!(rt;
        House::<S, Ding>::reconcile(0, 2),
        Err(Fault::CoinOutOfRange(0))
    );
    assert_eq!(rt;
        House::<S, Okcn>::reconcile(0, 255),
        Err(Fault::CoinOutOfRange(0))
    );
    assert_eq!(rt;
        House::<S, Ding>::reconcile(12289, 2),
        Err(Fault::OutOfRange(0)),
        "the number comes before the coin"
    );
    assert_eq!(rt;
        House::<S, Okcn>::reconcile(12289, 2),
        Err(Fault::OutOfRange(0))
    );
}

#[test]
fn surveys(rt: HostRuntime) {
    assert_eq!(rt;
        count_keys::<House<S, Ding>>(0, 2),
        Err(Fault::OutOfRange(0))
    );
    assert_eq!(rt;
        count_keys::<House<S, Ding>>(2, 1),
        Err(Fault::CoinOutOfRange(0))
    );
    assert_eq!(rt;
        count_keys::<House<S, Ding>>(2, 2),
        Err(Fault::OutOfRange(0))
    );
}

#[test]
fn moduli(rt: HostRuntime) -> Result<(), Fail> {
    assert!(rt; Modulus::new(1).is_none(), "too small");
    assert!(rt; Modulus::new(256).is_none(), "even");
    assert!(rt; Modulus::new(8388609).is_none(), "too large");
    let q = Modulus::new(257).ok_or("257 is not a modulus")?;
    assert_eq!(rt; q.signed(128), Ok(128));
    assert_eq!(rt; q.signed(129), Ok(-128));
    assert_eq!(rt; q.signed(257), Err(Fault::OutOfRange(0)));
    Ok(())
}

#[test]
fn reports(rt: HostRuntime) {
    let faults = [
        Fault::WrongLength(1),
        Fault::OutOfRange(2),
        Fault::SumTooLarge(3),
        Fault::CoinOutOfRange(4),
        Fault::SourceSpent(5),
    ];
    for (i, fault) in faults.iter().enumerate() {
        assert_eq!(rt; fault.layer(), 1);
        assert_eq!(rt; usize::from(fault.number()), i + 1);
        assert_eq!(rt; fault.place(), i + 1);
    }
}
