use builtin_hash::program_hash;
use cairo_model::{Fact, Outputs, felt_of};
use fact_registry::Registry;
use std::alloc::{AllocError, Global};
use std::test::Fail;

fn outputs(alloc: Global, number: u32) -> Result<Outputs, AllocError> {
    let mut list = Vec::new(alloc);
    list.push(felt_of(number))?;
    Ok(Outputs::of(list))
}

fn fact(alloc: Global, main: u64, number: u32) -> Result<Fact, AllocError> {
    Ok(Fact {
        program: program_hash(main, 7, &[]),
        outputs: outputs(alloc, number)?,
    })
}

// Puts four facts there, of which two are the same.
fn add_four(alloc: Global, registry: &mut Registry) -> Result<(), AllocError> {
    let mut facts = Vec::new(alloc);
    for (main, number) in [(1, 5), (0, 3), (1, 5), (1, 4)] {
        facts.push(fact(alloc, main, number)?)?;
    }
    registry.add_all(facts)
}

fn holds(alloc: Global, registry: &Registry, main: u64, number: u32) -> Result<bool, AllocError> {
    let fact = fact(alloc, main, number)?;
    Ok(registry.holds(&fact))
}

// Whether there are two outputs, of 5 and of 4.
fn are_five_and_four(alloc: Global, found: &[Outputs]) -> Result<bool, AllocError> {
    let five = outputs(alloc, 5)?;
    let four = outputs(alloc, 4)?;
    Ok(match found {
        [first, second] => *first == five && *second == four,
        _ => false,
    })
}

// Whether (1, 5) and (0, 5) stand, whether the outputs of program 1 are 5 and 4, and how many facts there are.
fn seen(alloc: Global, registry: &Registry) -> Result<(bool, bool, bool, usize), AllocError> {
    let first = holds(alloc, registry, 1, 5)?;
    let other = holds(alloc, registry, 0, 5)?;
    let found = registry.outputs_of(alloc, &program_hash(1, 7, &[]))?;
    let in_order = are_five_and_four(alloc, found.as_slice())?;
    Ok((first, other, in_order, registry.sorted(alloc)?.len()))
}

#[test]
fn a_fact_stands_once_and_in_the_order_of_registration(rt: HostRuntime) -> Result<(), Fail> {
    let (added, found) = {
        let mut registry = Registry::new(rt.alloc());
        let added = add_four(rt.alloc(), &mut registry);
        (added, seen(rt.alloc(), &registry))
    };
    added?;
    assert_eq!(rt; found?, (true, false, true, 3));
    Ok(())
}
