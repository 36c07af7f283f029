// Lists of demands: parts of them, and in print.
use cases::lines::bad;
use cases::lists::value;
use cases::print::{figure, text};
use demand::signed::size;

// As many of a list's first entries as a field says.
pub fn signed_part<'a>(digits: &[u8], list: &'a mut [i16]) -> &'a mut [i16] {
    let n = value(digits);
    if n < list.len() {
        return &mut list[..n];
    }
    bad(digits);
    list
}

// A number's size, and 9,999 for a number outside −2,048 to 2,048, which no demand is.
fn magnitude(x: i16) -> usize {
    match x {
        -2048..=2048 => size(x),
        _ => 9999,
    }
}

// A list with its name before it.
pub fn signed_list(name: &[u8], list: &[i16]) {
    text(name);
    for &x in list {
        let sign: &[u8] = if x < 0 { b" -" } else { b" " };
        figure(sign, magnitude(x));
    }
}
