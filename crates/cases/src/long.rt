// A long list as a value that prints. `print` hands it on. It has a file of its own, as the kit
// takes no two names in one file that differ only in a capital letter, and `print` has a `digest`.
ghost use Rattle.std.specs.Prelude.{Some, fold};
ghost use Rattle.std.specs.Fmt.{decimal};
ghost use Rattle.cases.specs.Printing.{digest_step};

use crate::print::mixed;
use std::fmt;

// A long list in one number: from 0, for each entry the number times 31 plus the entry, modulo
// 1,000,003.
#[derive(Drop)]
pub struct Digest<'a>(pub &'a [u8]);

impl fmt::Display for Digest<'_> {
    ghost output = { λ d. Some (decimal (fold digest_step 0 d.0.now)) };

    fn fmt<W: fmt::Write>(&self, f: &mut fmt::Formatter<W>) -> fmt::Result {
        write!(f, "{}", self.0.iter().fold(0, |h, &b| mixed(h, b)))
    }
}
