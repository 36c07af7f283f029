// Refusal 6: the lowest node from which climbing never reaches the root.
ghost use Rattle.std.specs.Prelude.{◌≡◌, ◌<◌, length};
ghost use Rattle.model.specs.Yard.{lowest};
ghost use Rattle.model.specs.Judge.{Parents};
ghost use Rattle.lists.specs.Find.{someBelow};
ghost use Rattle.judge.specs.Climb.{lost, Marked};

// The lowest node that does not climb to `root`. Nodes that are known to reach the root end a climb,
// so that all climbs together take at most two steps a node, and one that meets a circle at most n
// more. Mostly the parent is known already.
pub fn first_circle(parents: &[u8], root: usize) -> Option<usize>
    requires { Parents parents.now × (root < length parents.now) }
    ensures { result ≡ someBelow (length parents.now) (lowest (length parents.now) (lost parents.now root)) }
{
    let n = parents.len();
    let mut known = [false; 256];
    known[root] = true;
    let mut found = None;
    'nodes: for v in 0..n {
        if known[parents[v] as usize] {
            known[v] = true;
            continue 'nodes;
        }
        let mut u = v;
        let mut steps = 0;
        while !known[u] {
            if steps == n {
                found = Some(v);
                break 'nodes;
            }
            u = parents[u] as usize;
            steps += 1;
        }
        mark(parents, &mut known, v, steps);
    }
    found
}

// Marks the first `steps` nodes of the climb from `v`. Shown is that it marks no other: a mark only spares steps.
fn mark(parents: &[u8], known: &mut [bool; 256], v: usize, steps: usize)
    requires { Parents parents.now × (v < length parents.now) }
    ensures { Marked parents.now v steps known.old known.new }
{
    let mut u = v;
    for _ in 0..steps {
        known[u] = true;
        u = parents[u] as usize;
    }
}
