// Naming the parts: for each node the topmost node of its part. Climbs together take at most a few steps a node, in any order of numbers: each node that a climb
// passes then leads to the topmost node at once, and mostly there is nothing to climb.
ghost use Rattle.std.specs.Prelude.{◌≡◌, map, ◌≤◌, ◌<◌, length};
ghost use Rattle.model.specs.Yard.{Yard, size};
ghost use Rattle.model.specs.Parts.{topmost};
ghost use Rattle.model.specs.Calls.Answers.{range};
ghost use Rattle.parts.specs.Naming.{onward, Cut, AskedName, AskedShort, Named, AskedNames};

// A topmost node, and the number of steps to it.
#[derive(Drop)]
pub struct Climb {
    pub top: usize,
    pub steps: usize,
}

// Where a climb from v goes on: v itself where the edge above it is cut, else its parent p.
fn above(v: usize, p: u8, demand: i16) -> u8
    requires { v < 256 }
    ensures { result ≡ onward v p demand }
{
    if demand == 0 {
        return v as u8;
    }
    p
}

// Writes that for each node.
fn cut_edges(parents: &[u8], demands: &[i16], parts: &mut [u8])
    requires { (length parents.now ≤ 256) × (length parents.now ≤ length demands.now) × (length parts.old ≡ length parents.now) }
    ensures { Cut parents.now demands.now parts.new (length parents.now) }
{
    for v in 0..parents.len() {
        parts[v] = above(v, parents[v], demands[v]);
    }
}

// The topmost node of v's part: where the list leads to from v.
fn find_top(parts: &[u8], v: usize) -> Climb
    requires { (y : Yard) × AskedName y parts.now v }
    ensures { (y : Yard) → AskedName y parts.now v → AskedShort y parts.now v result.top result.steps }
{
    let mut u = v;
    let mut k = 0;
    loop {
        let w = parts[u] as usize;
        if w == u {
            return Climb { top: u, steps: k };
        }
        u = w;
        k += 1;
    }
}

// Lets v, and the nodes on so many steps from it, lead to the topmost node at once.
fn shorten(parts: &mut [u8], v: usize, top: usize, steps: usize)
    requires { (y : Yard) × AskedShort y parts.old v top steps }
    ensures { (y : Yard) → AskedShort y parts.old v top steps → Named y parts.old parts.new v }
{
    let mut u = v;
    for _ in 0..steps {
        let w = parts[u] as usize;
        parts[u] = top as u8;
        u = w;
    }
}

// Names v: at once where the node that it leads to leads to a topmost one, else by a climb.
fn name_node(parts: &mut [u8], v: usize)
    requires { (y : Yard) × AskedName y parts.old v }
    ensures { (y : Yard) → AskedName y parts.old v → Named y parts.old parts.new v }
{
    let above = parts[v] as usize;
    let top = parts[above] as usize;
    if parts[top] as usize == top {
        parts[v] = top as u8;
        return;
    }
    let Climb { top, steps } = find_top(parts, v);
    shorten(parts, v, top, steps);
}

// Names the parts of a tree with as many pebbles as targets, by its parents and demands.
pub fn name_parts(parents: &[u8], demands: &[i16], parts: &mut [u8])
    requires { (y : Yard) × AskedNames y parents.now demands.now parts.old }
    ensures { (y : Yard) → AskedNames y parents.now demands.now parts.old → parts.new ≡ map (topmost y) (range 0 (size y)) }
{
    cut_edges(parents, demands, parts);
    for v in 0..parts.len() {
        name_node(parts, v);
    }
}
