// The call.
ghost use Rattle.std.specs.Prelude.{◌≡◌, ◌*◌, ◌≤◌, length, take};
ghost use Rattle.model.specs.Yard.{Matched};
ghost use Rattle.model.specs.Given.{listed};
ghost use Rattle.model.specs.Calls.Answers.{answer, lent, overwrite};
ghost use Rattle.model.specs.Calls.Openings.{openings_answer, openings_list};
ghost use Rattle.model.specs.Paper.{paper_counted};
ghost use Rattle.openings.specs.Listing.{Demands, ListedAll, room_fault};

use crate::edges::mark_edges;
use crate::list::list_openings;
use demand::matched::matched_demands;
use judge::tree::TreeLists;
use model::{Lists, Refusal};

// Lists the openings of a tree with as many pebbles as targets, by its demands: there are fewer than nodes, so a list of 512 bytes has room for them.
fn list_apart(yard: &TreeLists, demands: &[i16], moves: &mut [u8]) -> usize
    requires matched { Matched (listed yard.now.lists) × Demands (listed yard.now.lists) demands.now }
    requires moves_len { length moves.old ≡ 512 }
    ensures { ListedAll (listed yard.now.lists) moves.new result }
{
    let t = mark_edges(yard, demands);
    list_openings(&t, yard.lists.parents, moves)
}

// Copies so many moves to the front of a list, or refuses one that is too short: 8 with their number.
fn hand_over(moves: &[u8], count: usize, list: &mut [u8]) -> Result<usize, Refusal>
    requires { (2 * count ≤ length moves.now) × (length moves.now ≤ 512) }
    ensures result_value { paper_counted result ≡ answer (room_fault count (length list.old)) count }
    ensures list_value { list.new ≡ lent (room_fault count (length list.old)) (overwrite (take (2 * count) moves.now) list.old) list.old }
{
    if list.len() / 2 < count {
        return Err(Refusal::ListTooShort(count));
    }
    list[..2 * count].copy_from_slice(&moves[..2 * count]);
    Ok(count)
}

// Every move with which some shortest plan starts, ordered by from and then to, at the front of the lent list, the bytes behind them untouched; answers their number. Refusals
// 1 to 7, then 8 with the moves needed in this list as place; a refusal leaves the list as it was. They are listed apart first, as 8 asks for their number. Linear work.
pub fn openings(yard: &Lists, list: &mut [u8]) -> Result<usize, Refusal>
    ensures result_value { paper_counted result ≡ openings_answer (listed yard.now) list.old }
    ensures list_value { list.new ≡ openings_list (listed yard.now) list.old }
{
    let mut demands = [0i16; 256];
    let tree = matched_demands(yard, &mut demands)?;
    let mut moves = [0u8; 512];
    let count = list_apart(&tree, &demands, &mut moves);
    hand_over(&moves, count, list)
}
