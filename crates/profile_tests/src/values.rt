//! Each function of each house profile at the edges of its regions.

use house::{House, S, T, W};
use profile::Profile;
use reconcile::{Ding, Okcn, Reconciler};
use std::process::Abort;

#[derive(Clone, Copy)]
struct Expected {
    x: u32,
    rounded: u32,
    recovered: u32,
    /// signal and key bit
    coin_0: (u32, u32),
    coin_1: (u32, u32),
    /// the key bit that is read with the first and with the last signal
    read_first: u32,
    read_last: u32,
}

fn row(
    x: u32,
    rounded: u32,
    recovered: u32,
    coin_0: (u32, u32),
    coin_1: (u32, u32),
    read_first: u32,
    read_last: u32,
) -> Expected {
    Expected {
        x,
        rounded,
        recovered,
        coin_0,
        coin_1,
        read_first,
        read_last,
    }
}

fn agrees<P: Profile>(rt: &impl Abort, rows: &[Expected], last_signal: u32) {
    for row in rows {
        assert_eq!(rt; P::round(row.x), Ok(row.rounded));
        assert_eq!(rt; P::recover(row.rounded), Ok(row.recovered));
        assert_eq!(rt; P::reconcile(row.x, 0), Ok(row.coin_0));
        assert_eq!(rt; P::reconcile(row.x, 1), Ok(row.coin_1));
        assert_eq!(rt; P::read(row.x, 0), Ok(row.read_first));
        assert_eq!(rt; P::read(row.x, last_signal), Ok(row.read_last));
    }
}

#[test]
fn t_ding(rt: HostRuntime) {
    let rows = [
        row(1, 1, 5, (0, 1), (0, 1), 1, 0),
        row(64, 16, 66, (0, 0), (0, 0), 0, 1),
        row(65, 15, 61, (1, 0), (0, 1), 1, 0),
        row(128, 32, 130, (1, 1), (1, 1), 0, 1),
        row(193, 47, 191, (0, 0), (1, 0), 0, 0),
        row(255, 63, 257, (0, 0), (0, 0), 0, 0),
        row(256, 62, 252, (0, 1), (0, 1), 1, 1),
    ];
    agrees::<House<T, Ding>>(&rt, &rows, 1);
}

#[test]
fn t_okcn(rt: HostRuntime) {
    let rows = [
        row(1, 0, 0, (0, 0), (0, 0), 0, 1),
        row(64, 16, 65, (1, 0), (2, 0), 0, 0),
        row(65, 16, 65, (2, 0), (2, 0), 0, 0),
        row(128, 31, 126, (3, 0), (0, 1), 1, 0),
        row(193, 47, 191, (2, 1), (2, 1), 1, 1),
        row(255, 63, 257, (3, 1), (3, 1), 0, 1),
        row(256, 63, 257, (3, 1), (3, 1), 0, 1),
    ];
    agrees::<House<T, Okcn>>(&rt, &rows, 3);
}

#[test]
fn s_ding(rt: HostRuntime) {
    let rows = [
        row(1, 1, 3, (0, 1), (0, 1), 1, 0),
        row(3072, 1024, 3074, (0, 0), (0, 0), 0, 1),
        row(3073, 1023, 3069, (1, 0), (0, 1), 1, 0),
        row(6144, 2048, 6146, (1, 1), (1, 1), 0, 1),
        row(9217, 3071, 9215, (0, 0), (1, 0), 0, 0),
        row(12287, 4095, 12289, (0, 0), (0, 0), 0, 0),
        row(12288, 4094, 12286, (0, 1), (0, 1), 1, 1),
    ];
    agrees::<House<S, Ding>>(&rt, &rows, 1);
}

#[test]
fn s_okcn(rt: HostRuntime) {
    let rows = [
        row(1, 0, 0, (0, 0), (0, 0), 0, 1),
        row(3072, 1024, 3073, (1, 0), (2, 0), 0, 0),
        row(3073, 1024, 3073, (2, 0), (2, 0), 0, 0),
        row(6144, 2047, 6142, (3, 0), (0, 1), 1, 0),
        row(9217, 3071, 9215, (2, 1), (2, 1), 1, 1),
        row(12287, 4094, 12285, (3, 1), (3, 1), 0, 1),
        row(12288, 4095, 12289, (3, 1), (3, 1), 0, 1),
    ];
    agrees::<House<S, Okcn>>(&rt, &rows, 3);
}

#[test]
fn w_ding(rt: HostRuntime) {
    let rows = [
        row(1, 1, 511, (0, 1), (0, 1), 1, 0),
        row(2095104, 4096, 2095232, (0, 0), (0, 0), 0, 1),
        row(2095105, 4095, 2094721, (1, 0), (0, 1), 1, 0),
        row(4190208, 8192, 4190464, (1, 1), (1, 1), 0, 1),
        row(6285313, 12287, 6285185, (0, 0), (1, 0), 0, 0),
        row(8380415, 16383, 8380417, (0, 0), (0, 0), 0, 0),
        row(8380416, 16382, 8379906, (0, 1), (0, 1), 1, 1),
    ];
    agrees::<House<W, Ding>>(&rt, &rows, 1);
}

#[test]
fn w_okcn(rt: HostRuntime) {
    let rows = [
        row(1, 0, 0, (0, 0), (0, 0), 0, 1),
        row(2095104, 4096, 2095232, (1, 0), (2, 0), 0, 0),
        row(2095105, 4096, 2095232, (2, 0), (2, 0), 0, 0),
        row(4190208, 8191, 4189952, (3, 0), (0, 1), 1, 0),
        row(6285313, 12287, 6285184, (2, 1), (2, 1), 1, 1),
        row(8380415, 16383, 8380417, (3, 1), (3, 1), 0, 1),
        row(8380416, 16383, 8380417, (3, 1), (3, 1), 0, 1),
    ];
    agrees::<House<W, Okcn>>(&rt, &rows, 3);
}
