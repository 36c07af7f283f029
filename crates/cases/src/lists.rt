// Numbers and lists as text. A list's items are parted by a space: `7` is an entry, `7*3` is 7 7 7,
// `3-6` is 3 4 5 6, and `^9` is what stands before it in the list, over and over, up to 9 entries.
ghost use Rattle.std.specs.Prelude.{◌≤◌, length};
ghost use Rattle.cases.specs.Reading.{NumberOf};

use crate::lines::{bad, find};
use anyhow::{Context, Result};
use std::str::FromStr;

// What stands for a number that cannot be read: above each that `decimal` reads.
pub const NONE: usize = 1_000_000;

// A number with a digit more.
fn joined(number: usize, digit: u8) -> Option<usize> {
    if number >= 100_000 || !digit.is_ascii_digit() {
        return None;
    }
    Some(number * 10 + usize::from(digit - b'0'))
}

// The number of up to six digits that a text is.
pub fn decimal(digits: &[u8]) -> Option<usize> {
    if digits.is_empty() {
        return None;
    }
    let mut number = 0;
    for &digit in digits {
        number = joined(number, digit)?;
    }
    Some(number)
}

// The number that a field has to be.
pub fn value(digits: &[u8]) -> usize {
    match decimal(digits) {
        Some(number) => number,
        None => {
            bad(digits);
            NONE
        }
    }
}

// The same, up to 65,535.
pub fn short(digits: &[u8]) -> u16 {
    match u16::try_from(value(digits)) {
        Ok(number) => number,
        Err(_) => {
            bad(digits);
            0
        }
    }
}

// What stands before a sign; all of it without one.
pub fn before(item: &[u8], sign: u8) -> &[u8] {
    &item[..find(item, 0, sign)]
}

// What stands behind a sign; nothing without it.
pub fn behind(item: &[u8], sign: u8) -> &[u8] {
    let at = find(item, 0, sign);
    if at < item.len() {
        &item[at + 1..]
    } else {
        &item[at..]
    }
}

// The entries from an index up to another: each a step above the one that stands `back` before it.
fn repeat(list: &mut [u8], from: usize, to: usize, back: usize, step: u8)
    requires { (to ≤ length list.old) × (back ≤ from) }
{
    for i in from..to {
        list[i] = list[i - back].saturating_add(step);
    }
}

// So many entries behind the first n, each a step above the one before; the new number of entries.
fn extend(
    item: &[u8],
    list: &mut [u8],
    n: usize,
    count: Option<usize>,
    first: Option<usize>,
    step: u8,
) -> usize
    requires { n ≤ length list.old }
    ensures { result ≤ length list.old }
{
    if let Some(count) = count
        && let Some(first) = first
        && first <= 255
        && count > 0
        && count <= list.len() - n
    {
        list[n] = first as u8;
        repeat(list, n + 1, n + count, 1, step);
        return n + count;
    }
    bad(item);
    0
}

// The first n entries over and over, up to an index.
fn again(item: &[u8], list: &mut [u8], n: usize, to: Option<usize>) -> usize
    ensures { result ≤ length list.old }
{
    if let Some(to) = to
        && n > 0
        && n <= to
        && to <= list.len()
    {
        repeat(list, n, to, n, 0);
        return to;
    }
    bad(item);
    0
}

// How many numbers there are from one up to another, which is an entry.
fn reach(first: Option<usize>, last: usize) -> Option<usize> {
    match first {
        Some(first) if first <= last && last <= 255 => Some(last - first + 1),
        _ => None,
    }
}

// An item's entries behind the first n; the new number of entries.
fn read_item(item: &[u8], list: &mut [u8], n: usize) -> usize
    requires { n ≤ length list.old }
    ensures { result ≤ length list.old }
{
    if let Some(to) = item.strip_prefix(b"^") {
        return again(item, list, n, decimal(to));
    }
    let count = decimal(behind(item, b'*'));
    if count.is_some() {
        return extend(item, list, n, count, decimal(before(item, b'*')), 0);
    }
    if let Some(last) = decimal(behind(item, b'-')) {
        let first = decimal(before(item, b'-'));
        return extend(item, list, n, reach(first, last), first, 1);
    }
    extend(item, list, n, Some(1), decimal(item), 0)
}

// The entries of a list into the front of another; how many.
fn read_items(items: &[u8], list: &mut [u8]) -> usize {
    let mut n = 0;
    for item in items.split_inclusive(|&byte| byte == b' ') {
        n = read_item(item.strip_suffix(b" ").unwrap_or(item), list, n);
    }
    n
}

// The first entries of a list; all of it where it has no more.
pub fn front(list: &mut [u8], count: usize) -> &mut [u8] {
    let count = count.min(list.len());
    &mut list[..count]
}

// The entries that a field says, in the front of a list.
pub fn entries<'a>(items: &[u8], list: &'a mut [u8]) -> &'a mut [u8] {
    let n = read_items(items, list);
    front(list, n)
}

// As many of a list's first entries as a field says.
pub fn part<'a>(digits: &[u8], list: &'a mut [u8]) -> &'a mut [u8] {
    let n = decimal(digits).unwrap_or(NONE);
    if n > list.len() {
        bad(digits);
    }
    front(list, n)
}

// The number that a text says, of any type that can be read. An error is made of the text.
pub fn number<N: FromStr>(text: &str) -> Result<N>
where
    N::Err: Drop,
    ensures { NumberOf N.from_str_gives text.now result }
{
    text.parse().ok().context(text)
}
