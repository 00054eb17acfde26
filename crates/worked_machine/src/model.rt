use builtin_hash::{ProgramHash, program_hash};
use cairo_model::*;
use std::alloc::{AllocError, Global};
use std::cmp::Ordering;
use std::hash::{DefaultHasher, Hash, Hasher};
use std::test::Fail;

fn fact_of(rt: &HostRuntime, program: ProgramHash, numbers: &[u32]) -> Result<Fact, Fail> {
    let mut outputs = Vec::new(rt.alloc());
    for number in numbers {
        outputs.push(felt_of(*number))?;
    }
    Ok(Fact {
        program,
        outputs: Outputs::of(outputs),
    })
}

// The programs of two examples. Their hashes begin with 4ae2a31b and 644b2c86.
const EMPTY: [u64; 4] = [
    0x480a7ffb7fff8000,
    0x480a7ffc7fff8000,
    0x480a7ffd7fff8000,
    0x208b7fff7fff7ffe,
];

const FIVE: [u64; 8] = [
    0x480680017fff8000,
    5,
    0x400280007ffb7fff,
    0x482680017ffb8000,
    1,
    0x480a7ffc7fff8000,
    0x480a7ffd7fff8000,
    0x208b7fff7fff7ffe,
];

// How two facts, each by its program and its numbers, are ordered, whether they are equal, and whether they differ.
fn compared(
    rt: &HostRuntime,
    first: (ProgramHash, &[u32]),
    second: (ProgramHash, &[u32]),
) -> Result<(Ordering, bool, bool), Fail> {
    let first = fact_of(rt, first.0, first.1)?;
    let second = fact_of(rt, second.0, second.1)?;
    Ok((first.cmp(&second), first == second, first != second))
}

#[test]
fn facts_are_ordered_by_hash_and_then_by_outputs(rt: HostRuntime) -> Result<(), Fail> {
    let here = program_hash(0, 7, &EMPTY);
    let there = program_hash(0, 7, &FIVE);
    let long = [7, 9];
    let shorter = compared(&rt, (here, &[7]), (here, &long))?;
    let larger = compared(&rt, (here, &long), (here, &[8]))?;
    let other = compared(&rt, (here, &long), (there, &[]))?;
    let same = compared(&rt, (here, &long), (here, &long))?;
    let less = (Ordering::Less, false, true);
    assert_eq!(rt; [shorter, larger, other], [less, less, less]);
    assert_eq!(rt; same, (Ordering::Equal, true, false));
    Ok(())
}

fn is_copied(alloc: Global, fact: &Fact) -> Result<bool, AllocError> {
    let copy = fact.try_copy(alloc)?;
    Ok(copy == *fact)
}

#[test]
fn a_copy_of_a_fact_is_equal(rt: HostRuntime) -> Result<(), Fail> {
    let copied = {
        let fact = fact_of(&rt, program_hash(0, 7, &[1, 2]), &[5, 0])?;
        is_copied(rt.alloc(), &fact)
    };
    assert!(rt; copied?);
    Ok(())
}

fn hash_of(rt: &HostRuntime, program: ProgramHash, numbers: &[u32]) -> Result<u64, Fail> {
    let fact = fact_of(rt, program, numbers)?;
    let mut hasher = DefaultHasher::new();
    fact.hash(&mut hasher);
    Ok(hasher.finish())
}

#[test]
fn facts_hash_by_program_and_outputs(rt: HostRuntime) -> Result<(), Fail> {
    let here = program_hash(0, 7, &EMPTY);
    let there = program_hash(0, 7, &FIVE);
    let hash = hash_of(&rt, here, &[7, 9])?;
    let again = hash_of(&rt, here, &[7, 9])?;
    let shorter = hash_of(&rt, here, &[7])?;
    let other = hash_of(&rt, there, &[7, 9])?;
    assert_eq!(rt; hash, again);
    assert_ne!(rt; hash, shorter);
    assert_ne!(rt; hash, other);
    Ok(())
}
