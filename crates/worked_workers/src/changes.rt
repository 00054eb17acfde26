//! Certificates of a batch with one task of seven segments, with one change (docs/CERTIFICATE.md has the places).

use cairo_model::Cert;
use cert_format::{read_cert, write_cert};
use std::alloc::{AllocError, Global};

/// What is changed.
#[derive(Clone, Copy, Debug, PartialEq, Eq)]
pub(crate) enum Change {
    /// The kind is that of a PIE alone, which has no mark.
    IsAlone,
    /// The cell at address 1 is one more.
    FirstWord,
    NoStates,
    LastStateLeftOut,
    /// The stop of the range span is one more.
    RangeStop,
    /// The first range cell is 2^32.
    RangeCell,
    /// The ninth cell of the hash span is one more.
    HashCell,
    /// The frame pointer of state 1 is one more.
    FramePointer,
    NoMarks,
    /// The mark's row is one more.
    MarkRow,
}

// The kind, the last byte of the range span's stop, the number of marks, the mark and what stands behind it.
const KIND: usize = 8;

const RANGE_STOP: usize = 40;

const MARKS: usize = 57;

const MARK_ROW: usize = 64;

const CELL_COUNT: usize = 125;

const CELLS: usize = 129;

/// The certificate with this change.
pub(crate) fn changed(alloc: Global, cert: &Cert, change: Change) -> Result<Cert, AllocError> {
    let bytes = write_cert(alloc, cert)?;
    let other = changed_bytes(alloc, cert, bytes.as_slice(), change)?;
    read_cert(alloc, other.as_slice()).map_err(|_| AllocError)
}

fn changed_bytes(
    alloc: Global,
    cert: &Cert,
    bytes: &[u8],
    change: Change,
) -> Result<Vec<u8>, AllocError> {
    let cells = cert.cells.as_slice().len();
    let states = CELLS.saturating_add(cells.saturating_mul(16));
    let last = bytes.len().saturating_sub(24);
    match change {
        Change::IsAlone => {
            let unmarked = spliced(alloc, bytes, MARKS, CELL_COUNT, &[0; 4])?;
            spliced(alloc, unmarked.as_slice(), KIND, KIND + 1, &[0])
        }
        Change::FirstWord => raised(alloc, bytes, CELLS + 15),
        Change::NoStates => spliced(alloc, bytes, states, bytes.len(), &[0; 4]),
        Change::LastStateLeftOut => {
            let fewer = (cert.states.len() as u32).wrapping_sub(1).to_be_bytes();
            let counted = spliced(alloc, bytes, states, states.saturating_add(4), &fewer)?;
            spliced(alloc, counted.as_slice(), last, bytes.len(), &[])
        }
        Change::RangeStop => raised(alloc, bytes, RANGE_STOP),
        Change::RangeCell => {
            let at = value_of(cert, cert.range.start.value());
            spliced(
                alloc,
                bytes,
                at,
                at.saturating_add(8),
                &[0, 0, 0, 1, 0, 0, 0, 0],
            )
        }
        Change::HashCell => {
            let at = value_of(cert, cert.hash.start.value().saturating_add(8));
            raised(alloc, bytes, at.saturating_add(7))
        }
        Change::FramePointer => raised(alloc, bytes, states.saturating_add(4 + 24 + 23)),
        Change::NoMarks => spliced(alloc, bytes, MARKS, CELL_COUNT, &[0; 4]),
        Change::MarkRow => raised(alloc, bytes, MARK_ROW),
    }
}

// Where the value of the cell with this address begins.
fn value_of(cert: &Cert, address: u64) -> usize {
    let cells = cert.cells.as_slice();
    let index = cells.iter().position(|(at, _)| at.value() == address);
    CELLS
        .saturating_add(index.unwrap_or(0).saturating_mul(16))
        .saturating_add(8)
}

// The bytes with others in this stretch.
fn spliced(
    alloc: Global,
    bytes: &[u8],
    from: usize,
    to: usize,
    with: &[u8],
) -> Result<Vec<u8>, AllocError> {
    let mut all = bytes.get(..from).unwrap_or(&[]).to_vec(alloc)?;
    all.extend_from_slice(with)?;
    all.extend_from_slice(bytes.get(to..).unwrap_or(&[]))?;
    Ok(all)
}

// The bytes with one of them one more.
fn raised(alloc: Global, bytes: &[u8], at: usize) -> Result<Vec<u8>, AllocError> {
    let mut all = bytes.to_vec(alloc)?;
    if let Some(byte) = all.get_mut(at) {
        *byte = byte.wrapping_add(1);
    }
    Ok(all)
}
