// The children of the nodes of a tree, linked in rising order.
ghost use Rattle.std.specs.Prelude.{◌≡◌, ◌<◌, ◌≤◌, length};
ghost use Rattle.model.specs.Judge.{Parents};
ghost use Rattle.serve.specs.Serving.{Alone, Tables, linked_to};

// For each node its lowest child, or itself if it has none; and the next child of its parent, or
// the parent itself behind the last.
#[derive(Drop)]
pub struct Children {
    pub lowest: [u8; 256],
    pub next: [u8; 256],
}

impl Children {
    // With none of n nodes linked yet: each as its own lowest child.
    pub fn unlinked(n: usize) -> Children
        requires { n ≤ 256 }
        ensures { Alone n result }
    {
        let mut lowest = [0u8; 256];
        for v in 0..n {
            lowest[v] = v as u8;
        }
        Children {
            lowest,
            next: [0; 256],
        }
    }

    // Puts v before the children of p that are linked already.
    pub fn link(&mut self, v: usize, p: usize)
        requires { (v < 256) × (p < 256) }
        ensures { self.new ≡ linked_to self.old v p }
    {
        self.next[v] = self.lowest[p];
        self.lowest[p] = v as u8;
    }
}

// The parents of a tree's nodes, and their children.
#[derive(Drop)]
pub struct Family<'a> {
    pub parents: &'a [u8],
    pub children: Children,
}

// Linked from the highest node down, so that each parent's children come in rising order.
pub fn tables(parents: &[u8]) -> Family<'_>
    requires { Parents parents.now }
    ensures parents { result.parents.now ≡ parents.now }
    ensures children { Tables parents.now result.children }
{
    let mut t = Children::unlinked(parents.len());
    for v in (0..parents.len()).rev() {
        let p = parents[v] as usize;
        if p != v {
            t.link(v, p);
        }
    }
    Family {
        parents,
        children: t,
    }
}
