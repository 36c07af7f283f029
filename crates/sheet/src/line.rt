// A line of values, written into a lent list.
ghost use Rattle.std.specs.Prelude.{◌≡◌, ◌+◌, ◌≤◌, length};
ghost use Rattle.model.specs.Sheets.{stopBefore, line};
ghost use Rattle.sheet.specs.Written.{Written};

use crate::decimal::put_decimal;

// The byte that ends a value with `others` behind it in its line.
pub fn stop_before(others: usize) -> u8
    ensures { result ≡ stopBefore others }
{
    if others == 0 { b'\n' } else { b' ' }
}

// Writes a line of values from `at` on, and answers the place behind it.
pub fn put_line(out: &mut [u8], at: usize, values: &[usize]) -> usize
    requires { at + length (line values.now) ≤ length out.old }
    ensures { Written (line values.now) at out.old result out.new }
{
    let mut end = at;
    for (i, &value) in values.iter().enumerate() {
        end = put_decimal(out, end, value);
        out[end] = stop_before(values.len() - 1 - i);
        end += 1;
    }
    end
}
