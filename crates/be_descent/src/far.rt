ghost use Rattle.std.specs.Prelude.{◌≡◌, pos, negsuc, ◌+ℤ◌, ◌-ℤ◌, ◌≤ℤ◌, ◌⊎◌};
ghost use Rattle.std.specs.Int.{int_min};
ghost use Rattle.be_geom.specs.Places.{IsNear};

/// How far a coordinate is from one that isn't behind it.
pub(crate) fn far_from(low: i32, high: i32) -> usize
    requires { low ≤ℤ high }
    ensures { pos result ≡ high -ℤ low }
{
    (i64::from(high) - i64::from(low)) as usize
}

/// How far a coordinate is behind an edge, and how far before it: one of the two is 0.
#[inline(always)]
pub(crate) fn around(edge: i32, z: i32) -> (usize, usize)
    ensures far { pos result.0 -ℤ pos result.1 ≡ z -ℤ edge }
    ensures one { (result.0 ≡ 0) ⊎ (result.1 ≡ 0) }
{
    if edge <= z {
        (far_from(edge, z), 0)
    } else {
        (0, far_from(z, edge))
    }
}

/// A row that lies so far down, or the end where that is above it.
pub(crate) fn down_to(row: i32, by: i32, end: i32) -> i32
    requires by { IsNear 64 by }
    requires low { negsuc 32767 ≤ℤ (row +ℤ by) }
    requires end { IsNear 1 end }
    ensures { result ≡ int_min (row +ℤ by) end }
{
    if row < end - by { row + by } else { end }
}
