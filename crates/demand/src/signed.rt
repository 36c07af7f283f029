// i16 demands: the difference of two counts, a sum, a size, each exact from −2,048 to 2,048.
ghost use Rattle.std.specs.Prelude.{◌≡◌, ℕ, ◌+◌, ◌<◌, ◌≤◌, length, get_or, ℤ, pos, nat_abs, ◌+ℤ◌};
ghost use Rattle.std.proofs.Math.IntN.{sub_ℕ};
ghost use Rattle.model.specs.Yard.{sum, max_size, max_demand};

// A node's targets minus its pebbles.
pub fn difference(target: u8, pebble: u8) -> i16
    ensures { result ≡ sub_ℕ target pebble }
{
    target as i16 - pebble as i16
}

// The sum of two demands, which is one too.
pub fn plus(a: i16, b: i16) -> i16
    requires { nat_abs (a +ℤ b) ≤ max_demand }
    ensures { result ≡ a +ℤ b }
{
    a + b
}

// A demand's size, its sign dropped.
pub fn size(a: i16) -> usize
    requires { nat_abs a ≤ max_demand }
    ensures { result ≡ nat_abs a }
{
    a.unsigned_abs() as usize
}

// The sum of the sizes of a list of demands: for all demands of a yard its shortest length.
pub fn sizes(list: &[i16]) -> usize
    requires { (length list.now ≤ max_size) × ((v : ℕ) → nat_abs (get_or list.now v (pos 0)) ≤ max_demand) }
    ensures { result ≡ sum (length list.now) (λ v. nat_abs (get_or list.now v (pos 0))) }
{
    list.iter()
        .map(|demand| demand.unsigned_abs() as usize)
        .sum()
}
