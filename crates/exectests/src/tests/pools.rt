//! A pool: which number is given, and what it holds. What a call asks is tested at run time first.
use super::comparing::same;
use execlist::pool::Pool;
use std::process::Abort;
use std::test::Fail;

/// A call on a pool, and what it must answer.
#[derive(Clone, Copy)]
enum Step {
    /// An item is given: the number that holds it now, none if every number holds one.
    Gives(u32, Option<usize>),
    /// A number is made free: whether it held an item.
    Releases(usize, bool),
    /// Another item is put in place of that of a number: whether it held one.
    Sets(usize, u32, bool),
    /// The item of a number.
    Holds(usize, Option<u32>),
}

use Step::*;

/// Gives an item, and answers the number that holds it now.
fn given(pool: &mut Pool<u32>, item: u32) -> Option<usize> {
    let number = pool.next()?;
    pool.give(item);
    Some(number)
}

/// Makes a number free, and answers whether it held an item.
fn released(pool: &mut Pool<u32>, n: usize) -> bool {
    let held = pool.get(n).is_some();
    if held {
        pool.release(n);
    }
    held
}

/// Puts another item in place of that of a number, and answers whether it held one.
fn set(pool: &mut Pool<u32>, n: usize, item: u32) -> bool {
    let held = pool.get(n).is_some();
    if held {
        pool.set(n, item);
    }
    held
}

/// Takes the steps of a case on a pool.
fn take_all(pool: &mut Pool<u32>, rt: &impl Abort, case: &str, steps: &[Step]) {
    for (number, step) in steps.iter().enumerate() {
        match *step {
            Gives(item, wanted) => same(rt, case, number, given(pool, item), wanted),
            Releases(n, wanted) => same(rt, case, number, released(pool, n), wanted),
            Sets(n, item, wanted) => same(rt, case, number, set(pool, n, item), wanted),
            Holds(n, wanted) => same(rt, case, number, pool.get(n), wanted),
        }
    }
}

/// What is shown on a pool of that many numbers: a number holds its item until it is free, and setting puts another
/// item in place.
static CASES: [(&str, usize, &[Step]); 2] = [
    (
        "a pool of two",
        2,
        &[
            Gives(7, Some(1)),
            Gives(8, Some(0)),
            Gives(9, None),
            Holds(1, Some(7)),
            Releases(1, true),
            Holds(1, None),
            Releases(1, false),
            Gives(9, Some(1)),
            Holds(0, Some(8)),
        ],
    ),
    (
        "a pool of one",
        1,
        &[
            Gives(7, Some(0)),
            Sets(0, 8, true),
            Holds(0, Some(8)),
            Holds(1, None),
        ],
    ),
];

#[test]
fn each_call_answers_as_its_case_says(rt: HostRuntime) -> Result<(), Fail> {
    for (case, numbers, steps) in &CASES {
        let mut pool = Pool::new(rt.alloc(), *numbers)?;
        take_all(&mut pool, &rt, case, *steps);
        pool.reset();
        take_all(&mut pool, &rt, case, *steps);
    }
    Ok(())
}
