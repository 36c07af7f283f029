// The columns of the crossing report, from the demands at the start: no move needs to be counted.
ghost use Rattle.std.specs.Prelude.{◌≡◌, length};
ghost use Rattle.moves.specs.Report.{Demands, Split};

// Writes both columns, one entry for each demand. How far the demand is below 0 says how often its
// edge is crossed towards the root. How far it is above 0 says how often away from the root.
pub fn split(demands: &[i16], ups: &mut [u32], downs: &mut [u32])
    requires { Demands demands.now × (length ups.old ≡ length demands.now) × (length downs.old ≡ length demands.now) }
    ensures { Split demands.now ups.new downs.new (length demands.now) }
{
    for (v, &demand) in demands.iter().enumerate() {
        ups[v] = u32::from(demand.min(0).unsigned_abs());
        downs[v] = u32::from(demand.max(0).unsigned_abs());
    }
}
