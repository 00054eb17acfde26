//! The expected numbers were computed by Python.

use goldi_field::{Felt, PRIME};

fn felt(n: u64) -> Felt {
    Felt::new(n).unwrap_or(Felt::ZERO)
}

#[test]
fn numbers_below_the_prime(rt: HostRuntime) {
    assert_eq!(rt; Felt::new(0), Some(Felt::ZERO));
    assert_eq!(rt; Felt::new(1), Some(Felt::ONE));
    assert_eq!(rt; felt(PRIME - 1).value(), 18446744069414584320);
    assert_eq!(rt; Felt::new(PRIME), None);
    assert_eq!(rt; Felt::new(u64::MAX), None);
}

#[test]
fn sums_differences_and_products(rt: HostRuntime) {
    let rows = [
        (0, 0, 0, 0, 0),
        (1, 18446744069414584320, 0, 2, 18446744069414584320),
        (
            18446744069414584320,
            18446744069414584320,
            18446744069414584319,
            0,
            1,
        ),
        (4294967296, 4294967296, 8589934592, 0, 4294967295),
        (
            9223372036854775808,
            2,
            9223372036854775810,
            9223372036854775806,
            4294967295,
        ),
        (
            1753635133440165772,
            8554224884056360729,
            10307860017496526501,
            11646154318798389364,
            1,
        ),
        (3, 5, 8, 18446744069414584319, 15),
    ];
    for (a, b, sum, difference, product) in rows {
        assert_eq!(rt; felt(a).add(felt(b)).value(), sum, "{a} + {b}");
        assert_eq!(rt; felt(a).sub(felt(b)).value(), difference, "{a} - {b}");
        assert_eq!(rt; felt(a).mul(felt(b)).value(), product, "{a} * {b}");
    }
    assert_eq!(rt; felt(5).neg().value(), 18446744069414584316);
    assert_eq!(rt; Felt::ZERO.neg(), Felt::ZERO);
}

#[test]
fn powers_of_some_numbers(rt: HostRuntime) {
    let rows = [
        (0, 0, 1),
        (0, 1, 0),
        (2, 63, 9223372036854775808),
        (2, 64, 4294967295),
        (2, 96, 18446744069414584320),
        (2, 192, 1),
        (7, 18446744069414584320, 1),
        (7, 18446744069414584319, 2635249152773512046),
        (7, 9223372034707292160, 18446744069414584320),
        (
            18446744069414584320,
            18446744073709551615,
            18446744069414584320,
        ),
        (1753635133440165772, 2147483648, 18446744069414584320),
        (1234567890123456789, 987654321, 5715234969911550016),
    ];
    for (base, exponent, power) in rows {
        assert_eq!(rt;
            felt(base).pow(exponent).value(),
            power,
            "{base} ^ {exponent}"
        );
    }
}

#[test]
fn inverses_of_some_numbers(rt: HostRuntime) {
    let rows = [
        (1, 1),
        (2, 9223372034707292161),
        (3, 12297829379609722881),
        (4294967296, 18446744065119617026),
        (1753635133440165772, 8554224884056360729),
        (1234567890123456789, 15859278008190446452),
        (18446744069414584319, 9223372034707292160),
        (18446744069414584320, 18446744069414584320),
    ];
    for (number, inverse) in rows {
        assert_eq!(rt; felt(number).inv(), Felt::new(inverse), "at {number}");
    }
    assert_eq!(rt; Felt::ZERO.inv(), None);
}
