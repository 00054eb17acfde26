use builtin_hash::{ProgramHash, program_hash};
use cairo_model::*;
use std::alloc::{AllocError, Global};
use std::test::Fail;

// Puts numbers, pairs and values there.
fn put_some(alloc: Global, text: &mut Vec<u8>) -> Result<(), AllocError> {
    put_decimal(alloc, text, 18446744073709551615)?;
    put_number(alloc, text, 0)?;
    put_pair(alloc, text, 7, 10)?;
    put_numbers(alloc, text, &[felt_of(5), felt_of(60)])?;
    put_value(alloc, text, Value::Number(felt_of(1)))?;
    let place = Place {
        segment: 3,
        offset: 12,
    };
    put_value(alloc, text, Value::At(place))
}

#[test]
fn numbers_and_places_are_decimal(rt: HostRuntime) -> Result<(), Fail> {
    let mut text = Vec::new(rt.alloc());
    put_some(rt.alloc(), &mut text)?;
    assert_eq!(rt;
        text.as_slice(),
        b"18446744073709551615 0 7 10 5 60 1 3:12".as_slice()
    );
    Ok(())
}

// The fact of the program with the output 9.
fn nine(alloc: Global, program: ProgramHash) -> Result<Fact, AllocError> {
    let mut outputs = Vec::new(alloc);
    outputs.push(felt_of(9))?;
    Ok(Fact {
        program,
        outputs: Outputs::of(outputs),
    })
}

fn fact_text(alloc: Global, fact: &Fact) -> Result<Vec<u8>, AllocError> {
    let mut text = Vec::new(alloc);
    put_fact(alloc, &mut text, fact)?;
    Ok(text)
}

// The program of one number, `ret`, at entry 0 and with the mask 7.
#[test]
fn a_fact_is_its_hash_and_its_outputs(rt: HostRuntime) -> Result<(), Fail> {
    let program = program_hash(0, 7, &[0x208b7fff7fff7ffe]);
    let text = {
        let fact = nine(rt.alloc(), program)?;
        fact_text(rt.alloc(), &fact)
    };
    let text = text?;
    assert_eq!(rt; text.len(), 74);
    assert_eq!(rt;
        (text.get(..64), text.get(64..)),
        (
            Some(program.digits().as_slice()),
            Some(b" outputs 9".as_slice())
        )
    );
    Ok(())
}

fn refusal_text(alloc: Global, refusal: Refusal) -> Result<Vec<u8>, AllocError> {
    let mut text = Vec::new(alloc);
    put_refusal(alloc, &mut text, refusal)?;
    Ok(text)
}

#[test]
fn a_refusal_is_its_number_and_its_fields(rt: HostRuntime) -> Result<(), Fail> {
    for (refusal, line) in [
        (Refusal::Read(ReadRefusal::BadMagic), " 2"),
        (Refusal::Read(ReadRefusal::BadCell(4)), " 10 4"),
        (
            Refusal::Replay(ReplayRefusal::Step(6, StepFault::Fetch)),
            " 26 6 1",
        ),
        (
            Refusal::Replay(ReplayRefusal::NotHome(Value::Number(felt_of(8)))),
            " 27 8",
        ),
    ] {
        let text = refusal_text(rt.alloc(), refusal)?;
        assert_eq!(rt; text.as_slice(), line.as_bytes());
    }
    let mut text = Vec::new(rt.alloc());
    put_replay_refusal(rt.alloc(), &mut text, ReplayRefusal::BadMain(4))?;
    assert_eq!(rt; text.as_slice(), b" 21 4".as_slice());
    Ok(())
}
