//! Cube roots and scaled quotients.
use int_roots::{cbrt, muldiv};

/// Numbers with their cube roots.
const ROOTS: [(u128, u64); 6] = [
    (0, 0),
    (7, 1),
    (8, 2),
    (999_999_999, 999),
    (1_000_000_000, 1000),
    (79_228_162_514_264_337_593_543_950_335, 4_294_967_295),
];

/// Two factors and a divisor with their quotient.
const QUOTIENTS: [(u64, u64, u64, u64); 5] = [
    (u64::MAX, 2, 1, u64::MAX),
    (u64::MAX, 2, 4, 9_223_372_036_854_775_807),
    (u64::MAX, u64::MAX, u64::MAX, u64::MAX),
    (1448, 1448, 4344, 482),
    (0, 5, 7, 0),
];

#[test]
fn cube_roots_are_cut(rt: HostRuntime) {
    for (n, root) in ROOTS {
        assert!(rt; cbrt(n) == root, "at {n}");
    }
}

#[test]
fn quotients_are_cut_and_bounded(rt: HostRuntime) {
    for (a, b, c, quotient) in QUOTIENTS {
        assert!(rt; muldiv(a, b, c) == quotient, "at {a} * {b} / {c}");
    }
}
