// What the programs print: the moves of a move sheet, two values under a head, a refusal.
ghost use Rattle.std.specs.Prelude.{◌≡◌, [], ◌∷◌, ◌++◌, ◌+◌, ◌≤◌, ◌<◌, length};
ghost use Rattle.model.specs.Calls.Answers.{overwrite, Row};
ghost use Rattle.model.specs.Calls.Plans.{moves_of};
ghost use Rattle.model.specs.Sheets.{line, move_lines, refusal_sheet};
ghost use Rattle.model.specs.Paper.{paper};
ghost use Rattle.sheet.specs.Written.{Written, move_lines_room, pair_room, refusal_room};

use crate::decimal::put_text;
use crate::line::put_line;
use model::Refusal;
use refusal::{number, place};

// The head of a move sheet, and of the crossing report behind its moves.
pub const MOVE_HEAD_BYTES: usize = 8;

pub const MOVE_HEAD: [u8; MOVE_HEAD_BYTES] = *b"from to\n";

pub const REPORT_HEAD: [u8; 14] = *b"track up down\n";

// Writes the head of a move sheet and the moves of a plan at the front of a list, and answers the place behind them.
pub fn put_moves(plan: &[u8], out: &mut [u8]) -> usize
    requires { move_lines_room (length plan.now) ≤ length out.old }
    ensures { Written (move_lines (moves_of plan.now)) 0 out.old result out.new }
{
    let mut at = put_text(out, 0, &MOVE_HEAD);
    for pair in plan.chunks_exact(2) {
        at = put_line(out, at, &[pair[0] as usize, pair[1] as usize]);
    }
    at
}

// Writes a head, and under it a line of two values, at the front of a list, and answers its length.
pub fn put_pair(head: &[u8], first: usize, second: usize, out: &mut [u8]) -> usize
    requires { (first < 1_000_000) × (second < 1_000_000) × (length head.now + pair_room ≤ length out.old) }
    ensures value { result ≡ length (head.now ++ line (first ∷ second ∷ [])) }
    ensures out_value { out.new ≡ overwrite (head.now ++ line (first ∷ second ∷ [])) out.old }
{
    let at = put_text(out, 0, head);
    put_line(out, at, &[first, second])
}

// Writes a refusal and its place at the front of a list, and answers its length.
pub fn put_refused(r: Refusal, out: &mut [u8]) -> usize
    requires { Row (paper r) × (refusal_room ≤ length out.old) }
    ensures value { result ≡ length (refusal_sheet (paper r)) }
    ensures out_value { out.new ≡ overwrite (refusal_sheet (paper r)) out.old }
{
    let row = number(r) as usize;
    let at = place(r);
    put_pair(b"refusal place\n", row, at, out)
}
