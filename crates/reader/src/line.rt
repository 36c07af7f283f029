// Values, lines and heads found in bytes.
ghost use Rattle.std.specs.Prelude.{◌≡◌, ◌<◌, length, drop};
ghost use Rattle.model.specs.Sheets as Sheets;
ghost use Rattle.model.specs.Sheets.{readLine};
ghost use Rattle.reader.specs.Reading.{Extended, word_in, line_in};

use sheet::line::stop_before;

// The value with one digit more. None if no value is so written: a zero takes no digit behind it.
fn extended(value: u8, b: u8) -> Option<u8>
    ensures { Extended value b result }
{
    if value == 0 || !b.is_ascii_digit() {
        return None;
    }
    u8::try_from(u16::from(value) * 10 + u16::from(b - b'0')).ok()
}

// The value that stands at `at` and is ended by the byte `stop`, and the place behind that byte.
fn field(sheet: &[u8], at: usize, stop: u8) -> Option<(u8, usize)>
    requires { stop < 48 }
    ensures { word_in sheet.now result ≡ Sheets.field stop (drop at sheet.now) }
{
    let first = *sheet.get(at)?;
    if !first.is_ascii_digit() {
        return None;
    }
    let mut value = first - b'0';
    for i in at + 1..sheet.len() {
        let b = sheet[i];
        if b == stop {
            return Some((value, i + 1));
        }
        value = extended(value, b)?;
    }
    None
}

// Reads the line that stands at `at`, of as many values as the list takes, into that list, and
// answers the place behind it. None if the line is wrong; the list then holds anything.
pub fn read_line(sheet: &[u8], at: usize, values: &mut [u8]) -> Option<usize>
    ensures { line_in sheet.now values.new result ≡ readLine (length values.old) (drop at sheet.now) }
{
    let mut next = at;
    for i in 0..values.len() {
        let (value, behind) = field(sheet, next, stop_before(values.len() - 1 - i))?;
        values[i] = value;
        next = behind;
    }
    Some(next)
}

// Whether a list begins with `head`. The library's `starts_with` is a call of its own and looks at
// all of `head`: a check of many moves, which asks this of each line, takes half as long again.
pub fn begins(list: &[u8], head: &[u8]) -> bool
    ensures { result ≡ Sheets.begins head.now list.now }
{
    if list.len() < head.len() {
        return false;
    }
    for (i, byte) in head.iter().enumerate() {
        if list[i] != *byte {
            return false;
        }
    }
    true
}
