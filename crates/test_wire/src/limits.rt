//! Which limits there are, with values worked out by hand.

use crate::checks::check;
use dap_frame::{LimitFault, Limits};

/// Seven limits, and the first that is out of its range.
static LIMITS: [([u64; 7], Option<LimitFault>); 9] = [
    ([32, 1023, 1, 1, 1, 1, 1], Some(LimitFault::Body)),
    ([32, 1024, 1, 1, 1, 1, 1], Some(LimitFault::Requests)),
    ([32, 1024, 2, 1, 1, 1, 1], None),
    ([31, 1023, 1, 0, 0, 0, 0], Some(LimitFault::Header)),
    (
        [65536, 16777216, 4096, 1048577, 0, 0, 0],
        Some(LimitFault::References),
    ),
    (
        [65536, 16777216, 4096, 1048576, 65537, 0, 0],
        Some(LimitFault::Breakpoints),
    ),
    (
        [65536, 16777216, 4096, 1048576, 65536, 9007199254740992, 0],
        Some(LimitFault::Seq),
    ),
    (
        [
            65536,
            16777216,
            4096,
            1048576,
            65536,
            9007199254740991,
            2147483648,
        ],
        Some(LimitFault::Reference),
    ),
    (
        [
            65536,
            16777216,
            4096,
            1048576,
            65536,
            9007199254740991,
            2147483647,
        ],
        None,
    ),
];

/// Whether the first of these limits that is out of its range is this.
fn is_first(seven: [u64; 7], fault: Option<LimitFault>) -> bool {
    let [h, b, n, r, k, s, m] = seven;
    match Limits::new(h, b, n, r, k, s, m) {
        Ok(_limits) => fault.is_none(),
        Err(found) => fault == Some(found),
    }
}

#[test]
fn limits_in_order(rt: HostRuntime) {
    for (place, (seven, fault)) in LIMITS.iter().enumerate() {
        check(&rt, is_first(*seven, *fault), place);
    }
}

/// The seven limits, one after the other.
fn all_of(limits: &Limits) -> [u64; 7] {
    [
        limits.get(LimitFault::Header),
        limits.get(LimitFault::Body),
        limits.get(LimitFault::Requests),
        limits.get(LimitFault::References),
        limits.get(LimitFault::Breakpoints),
        limits.get(LimitFault::Seq),
        limits.get(LimitFault::Reference),
    ]
}

/// The usual limits but for one, or which is out of its range.
fn usual_with(limit: LimitFault, value: u64) -> Result<[u64; 7], LimitFault> {
    match Limits::usual().with(limit, value) {
        Ok(limits) => Ok(all_of(&limits)),
        Err(fault) => Err(fault),
    }
}

const S: u64 = 9007199254740991;

static SET: [(LimitFault, u64, Result<[u64; 7], LimitFault>); 10] = [
    (
        LimitFault::Header,
        33,
        Ok([33, 4194304, 64, 65536, 4096, S, 2147483647]),
    ),
    (
        LimitFault::Body,
        65536,
        Ok([8192, 65536, 64, 65536, 4096, S, 2147483647]),
    ),
    (
        LimitFault::Requests,
        3,
        Ok([8192, 4194304, 3, 65536, 4096, S, 2147483647]),
    ),
    (
        LimitFault::References,
        4,
        Ok([8192, 4194304, 64, 4, 4096, S, 2147483647]),
    ),
    (
        LimitFault::Breakpoints,
        5,
        Ok([8192, 4194304, 64, 65536, 5, S, 2147483647]),
    ),
    (
        LimitFault::Seq,
        6,
        Ok([8192, 4194304, 64, 65536, 4096, 6, 2147483647]),
    ),
    (
        LimitFault::Reference,
        7,
        Ok([8192, 4194304, 64, 65536, 4096, S, 7]),
    ),
    (LimitFault::Body, 1023, Err(LimitFault::Body)),
    (LimitFault::Header, 65537, Err(LimitFault::Header)),
    (LimitFault::Seq, 0, Err(LimitFault::Seq)),
];

#[test]
fn sets_one_limit(rt: HostRuntime) {
    for (place, (limit, value, wanted)) in SET.iter().enumerate() {
        check(&rt, usual_with(*limit, *value) == *wanted, place);
    }
}

#[test]
fn usual_limits(rt: HostRuntime) {
    let usual = Limits::usual();
    let wide = [usual.get(LimitFault::Header), usual.seq()];
    check(&rt, wide == [8192, 9007199254740991], "header and seq");
    let sizes = [
        usual.header(),
        usual.body(),
        usual.requests(),
        usual.references(),
        usual.breakpoints(),
    ];
    check(&rt, sizes == [8192, 4194304, 64, 65536, 4096], "sizes");
    check(&rt, usual.reference() == 2147483647, "reference");
}
