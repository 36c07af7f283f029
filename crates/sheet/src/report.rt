// The crossing report: how often each edge (track) is crossed towards the root and away from it.
ghost use Rattle.std.specs.Prelude.{◌≡◌, ◌+◌, ◌*◌, ◌≤◌, ◌<◌, length};
ghost use Rattle.model.specs.Yard.{max_size};
ghost use Rattle.model.specs.Calls.Answers.{rowUnit};
ghost use Rattle.sheet.specs.Written.{Written};
ghost use Rattle.sheet.specs.Report.{line_unless_root, edge_lines, report_of, Columns, edge_room, report_room};

use crate::decimal::put_text;
use crate::line::put_line;
use crate::output::REPORT_HEAD;

// Writes the line of the edge of v. The root has none.
fn put_edge(out: &mut [u8], at: usize, v: usize, root: usize, up: u32, down: u32) -> usize
    requires { (v < max_size) × (up < rowUnit) × (down < rowUnit) × (at + edge_room ≤ length out.old) }
    ensures { Written (line_unless_root root v up down) at out.old result out.new }
{
    if v == root {
        return at;
    }
    put_line(out, at, &[v, up as usize, down as usize])
}

// Writes the lines of all edges, in rising number.
fn put_edges(ups: &[u32], downs: &[u32], root: usize, out: &mut [u8], at: usize) -> usize
    requires { Columns ups.now downs.now × (at + edge_room * length ups.now ≤ length out.old) }
    ensures { Written (edge_lines ups.now downs.now root (length ups.now)) at out.old result out.new }
{
    let mut end = at;
    for v in 0..ups.len() {
        end = put_edge(out, end, v, root, ups[v], downs[v]);
    }
    end
}

// Writes the report from `at` on, and answers the place after it.
pub fn put_report(
    ups: &[u32],
    downs: &[u32],
    root: usize,
    total: usize,
    out: &mut [u8],
    at: usize,
) -> usize
    requires { Columns ups.now downs.now × (total < rowUnit) × (at + report_room (length ups.now) ≤ length out.old) }
    ensures { Written (report_of ups.now downs.now root total) at out.old result out.new }
{
    let edges = put_text(out, at, &REPORT_HEAD);
    let behind = put_edges(ups, downs, root, out, edges);
    let last = put_text(out, behind, b"total\n");
    put_line(out, last, &[total])
}
