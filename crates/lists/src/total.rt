// The sum of a list.
ghost use Rattle.std.specs.Prelude.{◌≡◌, ◌≤◌, length, get_or};
ghost use Rattle.model.specs.Yard.{sum, max_size};

// The sum of the entries of a list of at most 256.
pub fn total(list: &[u8]) -> usize
    requires { length list.now ≤ max_size }
    ensures { result ≡ sum (length list.now) (λ v. get_or list.now v 0) }
{
    let mut count = 0;
    for x in list {
        count += *x as usize;
    }
    count
}
