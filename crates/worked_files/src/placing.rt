use cairo_model::{Cert, Checked, FieldState, Layout, felt_of};
use goldi_field::Felt;
use hex::decode;
use pie_replay::admit;
use relocator::{Placed, alone, lone_cert, relocate};
use std::alloc::{AllocError, Global};
use std::process::Abort;
use std::test::Fail;
use worked_vectors::files::FIVE;

// Its cells under the layout alone.
const CELLS_ALONE: [(u64, u64); 18] = [
    (1, 0x480680017fff8000),
    (2, 5),
    (3, 0x400280007ffb7fff),
    (4, 0x482680017ffb8000),
    (5, 1),
    (6, 0x480a7ffc7fff8000),
    (7, 0x480a7ffd7fff8000),
    (8, 0x208b7fff7fff7ffe),
    (10, 20),
    (11, 22),
    (12, 23),
    (13, 24),
    (14, 25),
    (15, 5),
    (16, 21),
    (17, 22),
    (18, 23),
    (20, 5),
];

// Its cells where the program and the execution segment are exchanged.
const CELLS_EXCHANGED: [(u64, u64); 18] = [
    (1, 20),
    (2, 22),
    (3, 23),
    (4, 24),
    (5, 25),
    (6, 5),
    (7, 21),
    (8, 22),
    (9, 23),
    (11, 0x480680017fff8000),
    (12, 5),
    (13, 0x400280007ffb7fff),
    (14, 0x482680017ffb8000),
    (15, 1),
    (16, 0x480a7ffc7fff8000),
    (17, 0x480a7ffd7fff8000),
    (18, 0x208b7fff7fff7ffe),
    (20, 5),
];

const STATES_ALONE: [(u32, u32, u32); 7] = [
    (1, 15, 15),
    (3, 16, 15),
    (4, 16, 15),
    (6, 17, 15),
    (7, 18, 15),
    (8, 19, 15),
    (25, 19, 24),
];

const STATES_EXCHANGED: [(u32, u32, u32); 7] = [
    (11, 6, 6),
    (13, 7, 6),
    (14, 7, 6),
    (16, 8, 6),
    (17, 9, 6),
    (18, 10, 6),
    (25, 10, 24),
];

const LAYOUTS: [([u32; 7], bool); 8] = [
    ([1, 10, 20, 22, 23, 24, 25], true),
    ([11, 1, 20, 22, 23, 24, 25], true),
    ([1, 9, 18, 1, 1, 1, 4_294_967_295], true),
    ([1, 8, 20, 22, 23, 24, 25], false),
    ([1, 10, 8, 22, 23, 24, 25], false),
    ([2, 10, 1, 22, 23, 24, 25], true),
    ([0, 10, 20, 22, 23, 24, 25], false),
    ([1, 10, 20, 0, 23, 24, 25], false),
];

fn five(alloc: Global) -> Result<Checked, Fail> {
    Ok(admit(alloc, decode(alloc, FIVE)?.as_slice())?)
}

fn layout_of(alloc: Global, bases: &[u32]) -> Result<Layout, AllocError> {
    let mut list = Vec::new(alloc);
    for base in bases {
        list.push(felt_of(*base))?;
    }
    Ok(Layout { bases: list })
}

fn expect_states(rt: &impl Abort, states: &[FieldState], expected: &[(u32, u32, u32)]) {
    assert_eq!(rt; states.len(), expected.len());
    for (state, (pc, ap, fp)) in states.iter().zip(expected) {
        assert!(rt;
            state.pc == felt_of(*pc) && state.ap == felt_of(*ap) && state.fp == felt_of(*fp)
        );
    }
}

fn expect_cells(rt: &impl Abort, cells: &[(Felt, Felt)], expected: &[(u64, u64)]) {
    assert_eq!(rt; cells.len(), expected.len());
    for ((address, value), (expected_address, expected_value)) in cells.iter().zip(expected) {
        assert!(rt; address.value() == *expected_address && value.value() == *expected_value);
    }
}

// Whether the layout of these bases fits.
fn is_fit(alloc: Global, checked: &Checked, bases: &[u32]) -> Result<bool, AllocError> {
    let layout = layout_of(alloc, bases)?;
    Ok(layout.fits(checked.pie()))
}

fn expect_fit(
    rt: &impl Abort,
    alloc: Global,
    checked: &Checked,
    layouts: &[([u32; 7], bool)],
) -> Result<(), AllocError> {
    for (bases, fits) in layouts {
        let found = is_fit(alloc, checked, bases.as_slice())?;
        assert!(rt; found == *fits);
    }
    Ok(())
}

#[test]
fn a_layout_fits_where_each_segment_keeps_clear_of_all_others(rt: HostRuntime) -> Result<(), Fail> {
    let (ended, too_few) = {
        let checked = five(rt.alloc())?;
        let ended = expect_fit(&rt, rt.alloc(), &checked, LAYOUTS.as_slice());
        let too_few = [1, 10, 20, 22, 23, 24];
        (ended, is_fit(rt.alloc(), &checked, too_few.as_slice()))
    };
    ended?;
    assert!(rt; !too_few?);
    Ok(())
}

fn expect_alone(rt: &impl Abort, cert: &Cert) {
    assert!(rt; cert.output.start == felt_of(20) && cert.output.stop == felt_of(21));
    assert!(rt; cert.range.start == felt_of(22) && cert.range.stop == felt_of(22));
    assert!(rt; cert.hash.start == felt_of(23) && cert.hash.stop == felt_of(23));
    assert!(rt; cert.tasks.is_empty());
    expect_states(rt, cert.states.as_slice(), STATES_ALONE.as_slice());
}

fn expect_cert_alone(rt: &impl Abort, alloc: Global, checked: &Checked) -> Result<(), AllocError> {
    let cert = lone_cert(alloc, checked)?;
    expect_alone(rt, &cert);
    Ok(())
}

fn placed_alone(alloc: Global, checked: &Checked) -> Result<Placed, AllocError> {
    // That the PIE is accepted, as `alone` asks, is what this ensures.
    let _run = checked.states();
    let layout = alone(alloc, checked.pie())?;
    relocate(alloc, checked, &layout)
}

#[test]
fn the_certificate_alone_of_a_worked_pie(rt: HostRuntime) -> Result<(), Fail> {
    let (ended, placed) = {
        let checked = five(rt.alloc())?;
        let ended = expect_cert_alone(&rt, rt.alloc(), &checked);
        (ended, placed_alone(rt.alloc(), &checked))
    };
    ended?;
    expect_cells(&rt, placed?.cells.as_slice(), CELLS_ALONE.as_slice());
    Ok(())
}

// What is placed by the layout of these bases, where it fits.
fn placed_by(
    alloc: Global,
    checked: &Checked,
    bases: &[u32],
) -> Result<Option<Placed>, AllocError> {
    let placed = {
        let layout = layout_of(alloc, bases)?;
        if !layout.fits(checked.pie()) {
            return Ok(None);
        }
        relocate(alloc, checked, &layout)
    };
    Ok(Some(placed?))
}

#[test]
fn cells_rise_where_a_layout_exchanges_two_segments(rt: HostRuntime) -> Result<(), Fail> {
    let placed = {
        let checked = five(rt.alloc())?;
        let bases = [11, 1, 20, 22, 23, 24, 25];
        placed_by(rt.alloc(), &checked, bases.as_slice())
    };
    let fits = match placed? {
        Some(placed) => {
            expect_cells(&rt, placed.cells.as_slice(), CELLS_EXCHANGED.as_slice());
            expect_states(&rt, placed.states.as_slice(), STATES_EXCHANGED.as_slice());
            true
        }
        None => false,
    };
    assert!(rt; fits);
    Ok(())
}
