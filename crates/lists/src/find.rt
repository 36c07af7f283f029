// Finding the lowest index whose entry passes a test. Mostly there is none, which one number tells: it is made of all entries, many of which can be
// looked at at once.
ghost use Rattle.std.specs.Prelude.{◌≡◌, ◌-◌, max, length, get_or};
ghost use Rattle.model.specs.Yard.{most};
ghost use Rattle.lists.specs.Find.{someBelow, firstAtLeast, firstOutside, firstOwn, firstBelow};

// The greatest entry of a list, 0 of an empty one.
fn greatest(list: &[u8]) -> u8
    ensures { result ≡ most (length list.now) (λ v. get_or list.now v 0) }
{
    let mut most = 0;
    for x in list {
        most = most.max(*x);
    }
    most
}

// The lowest index whose entry is at least `limit`.
pub fn first_at_least(list: &[u8], limit: usize) -> Option<usize>
    ensures { result ≡ someBelow (length list.now) (firstAtLeast list.now limit) }
{
    if (greatest(list) as usize) < limit {
        return None;
    }
    for (i, x) in list.iter().enumerate() {
        if *x as usize >= limit {
            return Some(i);
        }
    }
    None
}

// How far an entry is below `low` or above `high`, the most of all.
fn farthest_outside(list: &[u8], low: u8, high: u8) -> u8
    ensures { result ≡ most (length list.now) (λ v. max (low - get_or list.now v 0) (get_or list.now v 0 - high)) }
{
    let mut most = 0;
    for x in list {
        let far = low.saturating_sub(*x).max(x.saturating_sub(high));
        most = most.max(far);
    }
    most
}

// The lowest index whose entry is below `low` or above `high`.
pub fn first_outside(list: &[u8], low: u8, high: u8) -> Option<usize>
    ensures { result ≡ someBelow (length list.now) (firstOutside list.now low high) }
{
    if farthest_outside(list, low, high) == 0 {
        return None;
    }
    for (i, x) in list.iter().enumerate() {
        if *x < low || *x > high {
            return Some(i);
        }
    }
    None
}

// The lowest index from `start` on whose entry is the index itself.
pub fn first_own(list: &[u8], start: usize) -> Option<usize>
    ensures { result ≡ someBelow (length list.now) (firstOwn list.now start) }
{
    for i in start..list.len() {
        if list[i] as usize == i {
            return Some(i);
        }
    }
    None
}

// How far an entry is below the other list's, the most of all.
fn farthest_below(list: &[u8], other: &[u8]) -> u8
    requires { length other.now ≡ length list.now }
    ensures { result ≡ most (length list.now) (λ v. get_or other.now v 0 - get_or list.now v 0) }
{
    let mut most = 0;
    for (i, x) in list.iter().enumerate() {
        let far = other[i].saturating_sub(*x);
        most = most.max(far);
    }
    most
}

// The lowest index whose entry is below the other list's.
pub fn first_below(list: &[u8], other: &[u8]) -> Option<usize>
    requires { length other.now ≡ length list.now }
    ensures { result ≡ someBelow (length list.now) (firstBelow list.now other.now) }
{
    if farthest_below(list, other) == 0 {
        return None;
    }
    for (i, x) in list.iter().enumerate() {
        if *x < other[i] {
            return Some(i);
        }
    }
    None
}
