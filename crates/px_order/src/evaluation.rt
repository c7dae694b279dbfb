//! The value of a list of moves, in 64 bits.
ghost use Rattle.std.specs.Prelude.{◌≡◌, ◌≤◌, ◌+◌, ◌*◌, ◌^◌, IfSome, IfNone};

/// Returns the number of moves and the estimate of their node as many times as the weight says, or `None` where that has more than 64 bits.
/// Does not allocate.
pub fn value_of(moves: u64, estimate: u64, weight: u64) -> Option<u64>
    ensures value { IfSome result (λ v. v ≡ moves + weight * estimate) }
    ensures too_great { IfNone result (2 ^ 64 ≤ moves + weight * estimate) }
{
    let weighted = weight.checked_mul(estimate)?;
    moves.checked_add(weighted)
}
