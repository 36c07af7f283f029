// How often each edge is crossed by the moves of a plan, towards the root and away from it.
ghost use Rattle.std.specs.Prelude.{◌≡◌, ◌<◌, get_or};
ghost use Rattle.checks.specs.Crossings.{raised, InYard, Counted};

// One count for each edge and way, the edge named by its child node.
#[derive(Drop)]
pub struct Crossings {
    pub ups: [u32; 256],
    pub downs: [u32; 256],
}

// One more at v, if the move crosses its edge.
fn cross(counts: &mut [u32; 256], v: usize, crosses: bool)
    requires { (v < 256) × (get_or counts.old v 0 < 1_000_000) }
    ensures { counts.new ≡ raised v crosses counts.old }
{
    if crosses {
        counts[v] += 1;
    }
}

// Counts the crossings. A move from a node to its parent crosses that node's edge towards the root,
// and one from a parent to its child crosses the child's edge away from it.
pub fn count_crossings(parents: &[u8], plan: &[u8]) -> Crossings
    requires { InYard parents.now plan.now }
    ensures { Counted parents.now plan.now result.ups result.downs }
{
    let mut ups = [0u32; 256];
    let mut downs = [0u32; 256];
    for pair in plan.chunks_exact(2) {
        let from = pair[0] as usize;
        let to = pair[1] as usize;
        cross(&mut ups, from, parents[from] as usize == to);
        cross(&mut downs, to, parents[to] as usize == from);
    }
    Crossings { ups, downs }
}
