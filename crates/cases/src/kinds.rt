// Which kind a case is of.
use crate::lines::field;

fn bars(line: &[u8]) -> usize {
    line.iter().filter(|&&byte| byte == b'|').count()
}

// The kind of a case: the first field, and how many bars all cases of that kind have.
pub fn kind(line: &[u8]) -> (&[u8], usize) {
    (field(line, 0), bars(line))
}
