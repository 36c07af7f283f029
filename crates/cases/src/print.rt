// Answers and lists on standard output, and as values that print to any writer. A case is one line:
// its label, then the answer, then the lists that matter.
ghost use Rattle.std.specs.Prelude.{◌≡◌, Some, codes};
ghost use Rattle.std.specs.Fmt.{DisplaysOnOk, decimal};
ghost use Rattle.cases.specs.Printing.{answer_text, checked_text, located_text, measured_text};
ghost use Rattle.cases.specs.Printing.{refusal_text, signalled_text, tried_text, worn_text};
ghost use Rattle.cases.specs.Printing.{digest_step, ends_text, entries_text, last_text};

pub use crate::long::Digest;
use model::{Checked, Located, Measured, Refusal, Signalled, Tried, Worn};
use std::fmt;

pub fn text(bytes: &[u8]) {
    io::write_all(1, bytes);
}

// A number with text before it.
pub fn figure(before: &[u8], n: usize) {
    text(before);
    io::print_decimal(1, n as u64);
}

pub fn label(name: &[u8]) {
    text(name);
    text(b": ");
}

pub fn end() {
    text(b"\n");
}

// A list with its name before it.
pub fn list(name: &[u8], bytes: &[u8]) {
    text(name);
    for &entry in bytes {
        figure(b" ", usize::from(entry));
    }
}

// The first entries of a list.
pub fn first(name: &[u8], bytes: &[u8], count: isize) {
    let n = io::count(count, bytes);
    list(name, &bytes[..n]);
}

// The last entries of a list.
pub fn last(name: &[u8], bytes: &[u8], count: usize) {
    if count <= bytes.len() {
        let from = bytes.len() - count;
        list(name, &bytes[from..]);
    }
}

pub(crate) fn mixed(h: usize, b: u8) -> usize
    ensures { result ≡ digest_step h b }
{
    (h % 1_000_003 * 31 + usize::from(b)) % 1_000_003
}

// A long list in one number: from 0, for each entry the number times 31 plus the entry, modulo
// 1,000,003.
pub fn digest(name: &[u8], bytes: &[u8]) {
    figure(name, bytes.iter().fold(0, |h, &b| mixed(h, b)));
}

fn refused(r: Refusal) {
    figure(b"refusal ", refusal::number(r) as usize);
    figure(b" place ", refusal::place(r));
}

pub fn done(answer: Result<(), Refusal>) {
    match answer {
        Ok(()) => text(b"accepted"),
        Err(r) => refused(r),
    }
}

pub fn counted(answer: Result<usize, Refusal>) {
    match answer {
        Ok(n) => figure(b"", n),
        Err(r) => refused(r),
    }
}

pub fn checked(answer: Result<Checked, Refusal>) {
    match answer {
        Ok(Checked { moves, excess }) => {
            figure(b"moves ", moves);
            figure(b" spare ", excess);
        }
        Err(r) => refused(r),
    }
}

pub fn tried(answer: Result<Tried, Refusal>) {
    match answer {
        Ok(Tried::PlanEnded(taken)) => figure(b"plan ended after ", taken),
        Ok(Tried::BudgetEnded(taken)) => figure(b"budget ended after ", taken),
        Err(r) => refused(r),
    }
}

pub fn measured(answer: Result<Measured, Refusal>) {
    match answer {
        Ok(Measured { moves, bytes }) => {
            figure(b"moves ", moves);
            figure(b" bytes ", bytes);
        }
        Err(r) => refused(r),
    }
}

pub fn located(answer: Result<Located, Refusal>) {
    match answer {
        Ok(Located { node, distance }) => {
            figure(b"node ", node);
            figure(b" distance ", distance);
        }
        Err(r) => refused(r),
    }
}

pub fn worn(answer: Result<Worn, Refusal>) {
    match answer {
        Ok(
            Worn {
                crossings,
                first,
                edge,
            },
        ) => {
            figure(b"crossings ", crossings);
            figure(b" first ", first);
            figure(b" edge ", edge);
        }
        Err(r) => refused(r),
    }
}

pub fn signalled(answer: Result<Signalled, Refusal>) {
    match answer {
        Ok(Signalled::Raised) => text(b"raised"),
        Ok(Signalled::Quiet) => text(b"quiet"),
        Err(r) => refused(r),
    }
}

// What a call answered, as a value that prints to any writer. The vector program prints with the
// functions above: std's printing fails where a write does, and asks C for more.
#[derive(Drop)]
pub struct Answer<T>(pub T);

impl fmt::Display for Answer<Refusal> {
    ghost output = { λ a. Some (refusal_text a.0) };

    fn fmt<W: fmt::Write>(&self, f: &mut fmt::Formatter<W>) -> fmt::Result {
        write!(
            f,
            "refusal {} place {}",
            refusal::number(self.0),
            refusal::place(self.0)
        )
    }
}

impl fmt::Display for Answer<Result<(), Refusal>> {
    ghost output = { λ a. Some (answer_text (λ _. codes "accepted") a.0) };

    fn fmt<W: fmt::Write>(&self, f: &mut fmt::Formatter<W>) -> fmt::Result {
        match self.0 {
            Ok(()) => write!(f, "accepted"),
            Err(r) => write!(f, "{}", Answer(r)),
        }
    }
}

impl fmt::Display for Answer<Result<usize, Refusal>> {
    ghost output = { λ a. Some (answer_text decimal a.0) };

    fn fmt<W: fmt::Write>(&self, f: &mut fmt::Formatter<W>) -> fmt::Result {
        match self.0 {
            Ok(n) => write!(f, "{n}"),
            Err(r) => write!(f, "{}", Answer(r)),
        }
    }
}

impl fmt::Display for Answer<Result<Checked, Refusal>> {
    ghost output = { λ a. Some (answer_text checked_text a.0) };

    fn fmt<W: fmt::Write>(&self, f: &mut fmt::Formatter<W>) -> fmt::Result {
        match self.0 {
            Ok(Checked { moves, excess }) => write!(f, "moves {moves} spare {excess}"),
            Err(r) => write!(f, "{}", Answer(r)),
        }
    }
}

impl fmt::Display for Answer<Result<Tried, Refusal>> {
    ghost output = { λ a. Some (answer_text tried_text a.0) };

    fn fmt<W: fmt::Write>(&self, f: &mut fmt::Formatter<W>) -> fmt::Result {
        match self.0 {
            Ok(Tried::PlanEnded(taken)) => write!(f, "plan ended after {taken}"),
            Ok(Tried::BudgetEnded(taken)) => write!(f, "budget ended after {taken}"),
            Err(r) => write!(f, "{}", Answer(r)),
        }
    }
}

impl fmt::Display for Answer<Result<Measured, Refusal>> {
    ghost output = { λ a. Some (answer_text measured_text a.0) };

    fn fmt<W: fmt::Write>(&self, f: &mut fmt::Formatter<W>) -> fmt::Result {
        match self.0 {
            Ok(Measured { moves, bytes }) => write!(f, "moves {moves} bytes {bytes}"),
            Err(r) => write!(f, "{}", Answer(r)),
        }
    }
}

impl fmt::Display for Answer<Result<Located, Refusal>> {
    ghost output = { λ a. Some (answer_text located_text a.0) };

    fn fmt<W: fmt::Write>(&self, f: &mut fmt::Formatter<W>) -> fmt::Result {
        match self.0 {
            Ok(Located { node, distance }) => write!(f, "node {node} distance {distance}"),
            Err(r) => write!(f, "{}", Answer(r)),
        }
    }
}

impl fmt::Display for Answer<Result<Worn, Refusal>> {
    ghost output = { λ a. Some (answer_text worn_text a.0) };

    fn fmt<W: fmt::Write>(&self, f: &mut fmt::Formatter<W>) -> fmt::Result {
        match self.0 {
            Ok(
                Worn {
                    crossings,
                    first,
                    edge,
                },
            ) => { write!(f, "crossings {crossings} first {first} edge {edge}") }
            Err(r) => write!(f, "{}", Answer(r)),
        }
    }
}

impl fmt::Display for Answer<Result<Signalled, Refusal>> {
    ghost output = { λ a. Some (answer_text signalled_text a.0) };

    fn fmt<W: fmt::Write>(&self, f: &mut fmt::Formatter<W>) -> fmt::Result {
        match self.0 {
            Ok(Signalled::Raised) => write!(f, "raised"),
            Ok(Signalled::Quiet) => write!(f, "quiet"),
            Err(r) => write!(f, "{}", Answer(r)),
        }
    }
}

// The entries of a list, each after a space.
#[derive(Drop)]
pub struct Entries<'a, T>(pub &'a [T]);

impl<T: fmt::Display> fmt::Display for Entries<'_, T> {
    ghost output = { λ e. entries_text T.output e.0.now };

    fn fmt<W: fmt::Write>(&self, f: &mut fmt::Formatter<W>) -> fmt::Result {
        for entry in self.0 {
            write!(f, " {entry}")?;
        }
        Ok(())
    }
}

// The first and the last four entries of a list, and its digest. A list of fewer has no last ones.
#[derive(Drop)]
pub struct Ends<'a>(pub &'a [u8]);

impl fmt::Display for Ends<'_> {
    ghost output = { λ e. ends_text e.0.now };

    fn fmt<W: fmt::Write>(&self, f: &mut fmt::Formatter<W>) -> fmt::Result {
        let list = self.0;
        write!(f, "{}", Entries(&list[..list.len().min(4)]))?;
        write_last(list, f)?;
        write!(f, ", digest {}", Digest(list))
    }
}

// The last four entries of a list that has four.
fn write_last<W: fmt::Write>(list: &[u8], f: &mut fmt::Formatter<W>) -> fmt::Result
    ensures { DisplaysOnOk W.write_str_gives f.old result (last_text list.now) f.new }
{
    if let Some(last) = list.last_chunk::<4>() {
        write!(f, ", last{}", Entries(last))?;
    }
    Ok(())
}
