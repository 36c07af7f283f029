// Where the yard sheet in front of an input ends.
ghost use Rattle.std.specs.Prelude.{◌≡◌, not, ◌&&◌, ◌+◌, ◌<◌, length, drop, get_or, eqb};
ghost use Rattle.model.specs.Sheets.{line_feed};
ghost use Rattle.model.specs.CheckSheets.{digit_first, yard_part};

// Whether a digit stands at `at`.
fn digit_at(input: &[u8], at: usize) -> bool
    ensures { result ≡ digit_first (drop at input.now) }
{
    at < input.len() && input[at].is_ascii_digit()
}

// Whether the yard sheet ends with the byte at `i`: a line feed behind which no digit stands.
fn ends_yard(input: &[u8], i: usize) -> bool
    requires { i < length input.now }
    ensures { result ≡ (eqb (get_or input.now i 0) line_feed) && (not (digit_first (drop (i + 1) input.now))) }
{
    input[i] == b'\n' && !digit_at(input, i + 1)
}

// How many bytes the yard sheet in front has.
pub fn yard_bytes(input: &[u8]) -> usize
    ensures { result ≡ length (yard_part input.now) }
{
    for i in 0..input.len() {
        if ends_yard(input, i) {
            return i + 1;
        }
    }
    input.len()
}
