// Numbers in decimal, and texts, written into a lent list.
ghost use Rattle.std.specs.Prelude.{◌≡◌, ◌+◌, ◌≤◌, length};
ghost use Rattle.model.specs.Sheets.{decimal};
ghost use Rattle.sheet.specs.Written.{Written};

// How many digits a number has.
fn width(n: usize) -> usize
    ensures { result ≡ length (decimal n) }
{
    // The library's `ilog10` is a little slower here.
    let mut rest = n;
    let mut count = 1;
    while rest >= 10 {
        rest /= 10;
        count += 1;
    }
    count
}

// Writes a number from `at` on, its last digit first, and answers the place behind it.
pub fn put_decimal(out: &mut [u8], at: usize, n: usize) -> usize
    requires { at + length (decimal n) ≤ length out.old }
    ensures { Written (decimal n) at out.old result out.new }
{
    // A `for` over the places, backwards, takes about half as long again.
    let end = at + width(n);
    let mut i = end - 1;
    let mut rest = n;
    while rest >= 10 {
        out[i] = b'0' + (rest % 10) as u8;
        rest /= 10;
        i -= 1;
    }
    out[i] = b'0' + rest as u8;
    end
}

// Writes a text from `at` on, and answers the place behind it.
pub fn put_text(out: &mut [u8], at: usize, text: &[u8]) -> usize
    requires { at + length text.now ≤ length out.old }
    ensures { Written text.now at out.old result out.new }
{
    let end = at + text.len();
    out[at..end].copy_from_slice(text);
    end
}
