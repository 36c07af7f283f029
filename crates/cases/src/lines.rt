// Cases as text, one to a line: a kind, a label, then lists and numbers, between bars. A line that
// begins with # is a comment.
ghost use Rattle.std.specs.Prelude.{◌≡◌, ◌≤◌, ◌<◌, IfOk, length, map};
ghost use Rattle.io.specs.Counts.{IsPrefixLen};
ghost use Rattle.cases.specs.Reading.{fields_of, without_first, without_last};

use crate::print::text;
use std::alloc::{AllocError, Global};

// The first place from an index on where a byte stands, or the end.
pub fn find(bytes: &[u8], from: usize, byte: u8) -> usize
    requires { from ≤ length bytes.now }
    ensures { (from ≤ result) × IsPrefixLen result bytes.now }
{
    for i in from..bytes.len() {
        if bytes[i] == byte {
            return i;
        }
    }
    bytes.len()
}

// Tells in the output what cannot be read, so that it is not the stored one.
pub fn bad(what: &[u8]) {
    text(b"BAD: ");
    text(what);
    text(b"\n");
}

// Whether a line is a case, and neither a comment nor empty.
pub fn is_case(line: &[u8]) -> bool {
    !line.is_empty() && line[0] != b'#'
}

// The place past the next such byte, or the end.
fn past(bytes: &[u8], from: usize, byte: u8) -> usize
    requires { from ≤ length bytes.now }
    ensures { result ≤ length bytes.now }
{
    let at = find(bytes, from, byte);
    if at < bytes.len() { at + 1 } else { at }
}

// The line that begins at an index.
pub fn line_at(input: &[u8], at: usize) -> &[u8]
    requires { at ≤ length input.now }
{
    let to = find(input, at, b'\n');
    &input[at..to]
}

// Where the line behind it begins, or the end.
pub fn next_line(input: &[u8], at: usize) -> usize
    requires { at < length input.now }
    ensures { at < result }
{
    let to = find(input, at, b'\n');
    if to < input.len() { to + 1 } else { to }
}

// Where a field begins; the first field is 0.
fn start(line: &[u8], number: usize) -> usize
    ensures { result ≤ length line.now }
{
    let mut at = 0;
    for _ in 0..number {
        at = past(line, at, b'|');
    }
    at
}

// A field, without the space on either side of it.
pub fn field(line: &[u8], number: usize) -> &[u8] {
    let from = start(line, number);
    let to = find(line, from, b'|');
    let part = &line[from..to];
    let part = part.strip_prefix(b" ").unwrap_or(part);
    part.strip_suffix(b" ").unwrap_or(part)
}

// All fields of a case, each without the space on either side of it.
pub fn fields(alloc: Global, line: &str) -> Result<Vec<&str>, AllocError>
    ensures { IfOk result (λ v. map (λ field. field.now) v.items ≡ fields_of line.now) }
{
    line.split('|').map(without_spaces).collect(alloc)
}

fn without_spaces(field: &str) -> &str
    ensures { result.now ≡ without_last (without_first field.now) }
{
    let field = field.strip_prefix(' ').unwrap_or(field);
    field.strip_suffix(' ').unwrap_or(field)
}
