ghost use Rattle.std.specs.Prelude.{◌≡◌, ℕ, ◌<◌, ◌≤◌, [], ◌∷◌, ◌++◌, map, All, OnOk, IfOk};
ghost use Rattle.turn_lock.specs.Passes.{IsNumberOf};

use crate::{Change, Kept, Pass, TurnLock};
use std::alloc::{AllocError, Global};
use std::sync::Wait;
use std::test::Fail;
use std::thread;
use std::thread::Threads;

// A list of entries, and how many turns were taken.
#[derive(Drop)]
struct Diary {
    entries: Vec<(u32, u32)>,
    turns: u64,
}

impl Kept for Diary {
    type Note = u32;

    ghost journal = { λ d. d.entries.items };

    ghost turns = { λ d. d.turns };

    ghost width = { λ _. 1 };

    fn turns(&self) -> u64 {
        self.turns
    }
}

// Adds an entry. At want of memory it only takes its turn.
#[derive(Clone, Copy)]
struct Append {
    note: u32,
}

impl Change<Diary> for Append {
    type Answer = Result<(), AllocError>;

    ghost fits = { λ _ _. Unit {0} };

    ghost does = { λ c number before after answer. OnOk answer (after.entries.items ≡ before.entries.items ++ (number, c.note) ∷ []) };

    fn apply(self, number: u32, value: &mut Diary) -> Result<(), AllocError> {
        value.turns = value.turns.wrapping_add(1);
        value.entries.push((number, self.note))?;
        Ok(())
    }
}

// Takes a turn, and answers how many there were before.
#[derive(Clone, Copy)]
struct Count;

impl Change<Diary> for Count {
    type Answer = u64;

    ghost fits = { λ _ _. Unit {0} };

    ghost does = { λ _ _ before _ answer. answer ≡ before.turns };

    fn apply(self, _number: u32, value: &mut Diary) -> u64 {
        let before = value.turns;
        value.turns = before.wrapping_add(1);
        before
    }
}

fn take_turns<R: Wait + Sync>(rt: &R, lock: &TurnLock<Diary>, pass: &mut Pass<Diary>, count: u32)
    requires { pass.old.lock ≡ lock.now.lock }
    ensures { (pass.new.lock ≡ pass.old.lock) × (pass.new.number ≡ pass.old.number) }
{
    for note in 0..count {
        let _ = lock.turn(rt, pass, Append { note });
    }
}

// Each pass takes its turns in a thread of its own.
fn in_threads<R: Threads + Wait + Sync>(
    rt: &R,
    lock: &TurnLock<Diary>,
    mut passes: Vec<Pass<Diary>>,
    count: u32,
) -> Vec<Pass<Diary>>
    requires { All (λ p. p.lock ≡ lock.now.lock) passes.items }
    ensures own { All (λ p. p.lock ≡ lock.now.lock) result.items }
    ensures numbers { map (λ p. p.number) result.items ≡ map (λ p. p.number) passes.items }
{
    let threads = passes.len().max(1);
    let work = |_: usize, pass: &mut Pass<Diary>|
        requires { pass.now.lock ≡ lock.now.lock }
        ensures { (pass.exit.now.lock ≡ pass.entry.now.lock) × (pass.exit.now.number ≡ pass.entry.now.number) }
    { take_turns(rt, lock, pass, count) };
    thread::for_each_mut(rt, passes.as_mut_slice(), threads, &work);
    passes
}

fn last_two_meet(
    lock: &TurnLock<Diary>,
    mut passes: Vec<Pass<Diary>>,
) -> Result<Vec<Pass<Diary>>, AllocError>
    requires { All (λ p. p.lock ≡ lock.now.lock) passes.items }
    ensures own { IfOk result (λ r. All (λ p. p.lock ≡ lock.now.lock) r.items) }
    ensures numbers { IfOk result (λ r. map (λ p. p.number) r.items ≡ map (λ p. p.number) passes.items) }
{
    let Some(mut other) = passes.pop() else {
        return Ok(passes);
    };
    let Some(mut pass) = passes.pop() else {
        passes.push(other)?;
        return Ok(passes);
    };
    lock.meet(&mut pass, &mut other);
    passes.push(pass)?;
    passes.push(other)?;
    Ok(passes)
}

fn new_lock<R: Sync>(
    rt: &R,
    alloc: Global,
    threads: u32,
) -> Result<(TurnLock<Diary>, Vec<Pass<Diary>>), AllocError>
    requires { 1 ≤ threads }
    ensures own { IfOk result (λ r. All (λ p. p.lock ≡ r.0.lock) r.1.items) }
    ensures all { IfOk result (λ r. (number : ℕ) → number < r.0.passes → IsNumberOf r.1.items number) }
{
    let diary = Diary {
        entries: Vec::new(alloc),
        turns: 0,
    };
    let (lock, passes) = TurnLock::new(rt, alloc, diary, threads)?;
    Ok((lock, passes))
}

// The last pass takes a turn that adds no entry.
fn counted<R: Wait + Sync>(
    rt: &R,
    lock: &TurnLock<Diary>,
    mut passes: Vec<Pass<Diary>>,
) -> Result<(Option<u64>, Vec<Pass<Diary>>), AllocError>
    requires { All (λ p. p.lock ≡ lock.now.lock) passes.items }
    ensures own { IfOk result (λ r. All (λ p. p.lock ≡ lock.now.lock) r.1.items) }
    ensures numbers { IfOk result (λ r. map (λ p. p.number) r.1.items ≡ map (λ p. p.number) passes.items) }
{
    let Some(mut pass) = passes.pop() else {
        return Ok((None, passes));
    };
    let count = lock.turn(rt, &mut pass, Count);
    passes.push(pass)?;
    Ok((Some(count), passes))
}

fn entries_of(diary: &Diary, number: u32) -> usize {
    diary.entries.iter().filter(|e| e.0 == number).count()
}

fn written_by_two<R: Threads + Wait + Sync>(rt: &R, alloc: Global) -> Result<Diary, AllocError> {
    let (lock, passes) = new_lock(rt, alloc, 2)?;
    let passes = in_threads(rt, &lock, passes, 1000);
    Ok(lock.close(rt, passes))
}

fn written_by_eight<R: Threads + Wait + Sync>(rt: &R, alloc: Global) -> Result<Diary, AllocError> {
    let (lock, passes) = new_lock(rt, alloc, 8)?;
    let passes = in_threads(rt, &lock, passes, 250);
    let passes = last_two_meet(&lock, passes)?;
    let passes = in_threads(rt, &lock, passes, 250);
    Ok(lock.close(rt, passes))
}

#[test]
fn two_threads_take_a_thousand_turns_each(rt: HostRuntime) -> Result<(), Fail> {
    let diary = written_by_two(&rt, rt.alloc())?;
    assert_eq!(rt; diary.entries.len(), 2000);
    assert_eq!(rt; entries_of(&diary, 0), 1000);
    assert_eq!(rt; entries_of(&diary, 1), 1000);
    assert_eq!(rt; diary.turns(), 2000);
    Ok(())
}

#[test]
fn eight_threads_take_turns_and_two_passes_meet(rt: HostRuntime) -> Result<(), Fail> {
    let diary = written_by_eight(&rt, rt.alloc())?;
    assert_eq!(rt; diary.entries.len(), 4000);
    for number in 0..8 {
        assert_eq!(rt; entries_of(&diary, number), 500, "of number {number}");
    }
    assert_eq!(rt; diary.turns(), 4000);
    Ok(())
}

#[test]
fn a_change_without_an_entry_is_a_turn_too(rt: HostRuntime) -> Result<(), Fail> {
    let (lock, passes) = new_lock(&rt, rt.alloc(), 1)?;
    let (before, passes) = counted(&rt, &lock, passes)?;
    let passes = in_threads(&rt, &lock, passes, 1);
    let (after, passes) = counted(&rt, &lock, passes)?;
    assert!(rt; before == Some(0) && after == Some(2));
    let diary = lock.close(&rt, passes);
    assert_eq!(rt; diary.entries.as_slice(), [(0, 0)].as_slice());
    assert_eq!(rt; diary.turns(), 3);
    Ok(())
}
