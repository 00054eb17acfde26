use batch_plan::*;
use cairo_model::Shape;

const EMPTY: Shape = Shape { steps: 4, size: 12 };

#[test]
fn a_batch_has_sixteen_of_the_waiting(rt: HostRuntime) {
    let found = [cut(&[]), cut(&[EMPTY; 16]), cut(&[EMPTY; 17])];
    assert_eq!(rt; found, [0, 16, 16]);
}

#[test]
fn a_batch_has_four_of_the_largest(rt: HostRuntime) {
    let long = Shape {
        steps: 65_536,
        size: 12,
    };
    let large = Shape {
        steps: 4,
        size: 65_536,
    };
    let found = [
        cut(&[long; 4]),
        cut(&[long, long, long, long, EMPTY]),
        cut(&[large; 4]),
        cut(&[large, large, EMPTY, large, large]),
    ];
    assert_eq!(rt; found, [4, 4, 4, 4]);
}
