use builtin_range::*;

#[test]
fn range_cells_end_below_two_to_the_32(rt: HostRuntime) {
    for (n, expected) in [
        (0, true),
        (4294967295, true),
        (4294967296, false),
        (18446744069414584320, false),
    ] {
        assert_eq!(rt; in_range(n), expected, "{n}");
    }
}

#[test]
fn the_first_number_out_of_range_is_named(rt: HostRuntime) {
    assert_eq!(rt; check_cells(&[]), Ok(()));
    assert_eq!(rt; check_cells(&[7, 4294967295]), Ok(()));
    assert_eq!(rt;
        check_cells(&[7, 4294967296, 0, 18446744069414584320]),
        Err(1)
    );
}
