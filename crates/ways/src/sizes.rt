//! How many ways each subtree has.
ghost use Rattle.std.specs.Prelude.{◌≡◌, ◌≤◌, ◌<◌, ◌*◌, ◌+◌, ℕ, get_or, length, IfSome, IfOk, suc, None, Some, ◌-◌, ◌/◌};
ghost use Rattle.ways.specs.{Ways.count, Ways.count_all, Rows.IsRow, Rows.AreRows, Rows.number_of};

use crate::visiting::Window;
use std::alloc::{AllocError, Global};

/// How many ways have that many extras among that many actions.
#[derive(Drop)]
pub struct Sizes {
    pub kinds: usize,
    pub most: usize,
    pub places: usize,
    numbers: Vec<u64>,
    ghost enough: { length numbers.items ≡ (most + 1) * (places + 1) },
    ghost right: { AreRows kinds (places + 1) (most + 1) numbers.items },
}

/// The row of no extras: one way each.
fn first_row(alloc: Global, kinds: usize, width: usize) -> Result<Vec<u64>, AllocError>
    ensures length { IfOk result (λ row. length row.items ≡ width) }
    ensures row { IfOk result (λ row. IsRow kinds 0 row.items) }
{
    let mut row = Vec::new(alloc);
    for place in 0..width {
        row.push(1)?;
    }
    Ok(row)
}

/// The last number of a row.
fn last_of(row: &[u64]) -> Option<u64>
    ensures none { length row.now ≡ 0 → result ≡ None }
    ensures some { 0 < length row.now → result ≡ Some (get_or row.now (length row.now - 1) 0) }
{
    if row.is_empty() {
        None
    } else {
        Some(row[row.len() - 1])
    }
}

/// The number in a row below the number `above`, after the number `before`, if there is one.
fn number(kinds: usize, above: u64, before: Option<u64>) -> Option<u64>
    ensures { IfSome result (λ n. n ≡ number_of kinds above before) }
{
    let many = above.checked_mul(kinds as u64)?;
    match before {
        None => Some(many),
        Some(before) => many.checked_add(before),
    }
}

/// The row below this one, or none if a number is beyond 64 bits.
fn next_row(
    alloc: Global,
    kinds: usize,
    above: &[u64],
    extras: usize,
) -> Result<Option<Vec<u64>>, AllocError>
    requires { IsRow kinds extras above.now }
    ensures length { IfOk result (λ found. IfSome found (λ row. length row.items ≡ length above.now)) }
    ensures row { IfOk result (λ found. IfSome found (λ row. IsRow kinds (suc extras) row.items)) }
{
    let mut row = Vec::new(alloc);
    for i in 0..above.len() {
        let before = last_of(row.as_slice());
        match number(kinds, above[i], before) {
            None => return Ok(None),
            Some(number) => row.push(number)?,
        }
    }
    Ok(Some(row))
}

impl Sizes {
    /// The numbers for up to that many extras of that many kinds among up to that many actions, or none if one is
    /// beyond 64 bits.
    pub fn new(
        alloc: Global,
        kinds: usize,
        most: usize,
        places: usize,
    ) -> Result<Option<Sizes>, AllocError>
        requires most { most ≤ 8 }
        requires places { places ≤ 2100000 }
        ensures { IfOk result (λ found. IfSome found (λ sizes. record { kinds : sizes.kinds ≡ kinds; most : sizes.most ≡ most; places : sizes.places ≡ places })) }
    {
        let mut row = first_row(alloc, kinds, places + 1)?;
        let mut numbers = Vec::new(alloc);
        numbers.extend_from_slice(row.as_slice())?;
        for extras in 0..most {
            match next_row(alloc, kinds, row.as_slice(), extras)? {
                None => return Ok(None),
                Some(next) => row = next,
            }
            numbers.extend_from_slice(row.as_slice())?;
        }
        Ok(Some(Sizes {
            kinds,
            most,
            places,
            numbers,
        }))
    }

    /// How many ways have that many extras among that many actions.
    pub fn size(&self, extras: usize, actions: usize) -> u64
        requires extras { extras ≤ self.now.most }
        requires actions { actions ≤ self.now.places }
        ensures { result ≡ count self.now.kinds extras actions }
    {
        self.numbers[extras * (self.places + 1) + actions]
    }

    /// The number of ways that have at most `most` extras among that many actions, or none if it is beyond 64 bits.
    ///
    /// Source: project rule.
    pub fn all(&self, actions: usize) -> Option<u64>
        requires { actions ≤ self.now.places }
        ensures { IfSome result (λ ways. ways ≡ count_all self.now.kinds self.now.most actions) }
    {
        let mut ways = self.size(0, actions);
        for fewer in 0..self.most {
            ways = ways.checked_add(self.size(fewer + 1, actions))?;
        }
        Some(ways)
    }
}

/// The ways of a part, by its number from 1: contiguous, by number, the parts equal in size to within one.
///
/// Source: project rule.
pub fn part_window(ways: u64, number: u64, of: u64) -> Window
    requires ways { ways ≤ 1099511627776 }
    requires number { 1 ≤ number }
    requires within { number ≤ of }
    requires few { of ≤ 1000000 }
    ensures skip { result.skip ≡ ways * (number - 1) / of }
    ensures left { result.left ≡ ways * number / of - ways * (number - 1) / of }
{
    let skip = ways * (number - 1) / of;
    Window {
        skip,
        left: ways * number / of - skip,
    }
}
