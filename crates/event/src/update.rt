// The demand list before and after an event.
ghost use Rattle.std.specs.Prelude.{◌≡◌, ℕ, ◌≤◌, ◌<◌, length, nat_abs, unwrap_or};
ghost use Rattle.model.specs.Yard.{max_size, below, head_or};
ghost use Rattle.event.specs.Change.{differ_at, Rails, Small, step_of, stepped_after};

use model::Event;

// The lowest entry in which two lists differ.
pub fn first_difference(list: &[i16], other: &[i16]) -> Option<usize>
    requires { (length list.now ≡ length other.now) × (length list.now ≤ max_size) }
    ensures { (none : ℕ) → unwrap_or result none ≡ head_or none (below (length list.now) (differ_at list.now other.now)) }
{
    if list == other {
        return None;
    }
    for (v, entry) in list.iter().enumerate() {
        if *entry != other[v] {
            return Some(v);
        }
    }
    None
}

// What an event adds to an entry on the way to the root.
pub fn step(event: Event) -> i16
    ensures { result ≡ step_of event }
{
    match event {
        Event::PebbleArrives | Event::TargetCleared => -1,
        Event::PebbleLeaves | Event::TargetSet => 1,
    }
}

// Steps each entry on the way from the node to the root.
pub fn climb(parents: &[u8], list: &mut [i16], by: i16, node: usize)
    requires { Rails parents.now × (length list.old ≡ length parents.now) × (node < length parents.now) × (nat_abs by ≤ 1) × Small list.old }
    ensures { list.new ≡ stepped_after parents.now by node list.old }
{
    let mut w = node;
    while parents[w] as usize != w {
        list[w] += by;
        w = parents[w] as usize;
    }
    list[w] += by;
}
