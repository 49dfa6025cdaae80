ghost use Rattle.std.specs.Prelude.{◌≡◌, ◌≤◌, ◌≤ℤ◌, ◌↔◌, ℕ, pos, MatchOption};
ghost use Rattle.be_shape.specs.Rasters.{share};
ghost use Rattle.be_shape.specs.Lines.{ArePointsWithin, HasNoPointWithin};

/// How far point `i` of a line of so many steps is along a distance, rounded to the nearest. Along
/// the longer way that is `i`.
pub(crate) fn share(i: u64, steps: u64, distance: u64) -> u64
    requires of_steps { i ≤ steps }
    requires few { steps ≤ 65535 }
    requires near { distance ≤ steps }
    ensures value { result ≡ share i steps distance }
    ensures bound { result ≤ distance }
{
    if steps == distance {
        i
    } else {
        (2 * i * distance + steps) / (2 * steps)
    }
}

/// The first and the last of the points that are so far along a distance, at least and at most.
/// None where no point is.
pub(crate) fn points_within(
    steps: u64,
    distance: u64,
    nearest: i64,
    farthest: i64,
) -> Option<(u64, u64)>
    requires few { steps ≤ 65535 }
    requires near { distance ≤ steps }
    requires in_order { nearest ≤ℤ farthest }
    ensures { MatchOption result (HasNoPointWithin steps distance nearest farthest)
        (λ points. ArePointsWithin steps distance nearest farthest points.0 points.1) }
{
    if farthest < 0 || (distance as i64) < nearest {
        return None;
    }
    let first = first_from(steps, distance, nearest);
    let last = last_to(steps, distance, farthest);
    Some((first, last))
}

/// The first point that is so far along a distance, at least.
fn first_from(steps: u64, distance: u64, nearest: i64) -> u64
    requires few { steps ≤ 65535 }
    requires near { distance ≤ steps }
    requires inside { nearest ≤ℤ pos distance }
    ensures first { (i : ℕ) → i ≤ steps
        → (nearest ≤ℤ pos (share i steps distance)) ↔ (result ≤ i) }
    ensures of_steps { result ≤ steps }
{
    if nearest <= 0 {
        0
    } else {
        first_at(steps, distance, nearest as u64)
    }
}

/// The last point that is so far along a distance, at most.
fn last_to(steps: u64, distance: u64, farthest: i64) -> u64
    requires few { steps ≤ 65535 }
    requires near { distance ≤ steps }
    requires inside { pos 0 ≤ℤ farthest }
    ensures last { (i : ℕ) → i ≤ steps
        → (pos (share i steps distance) ≤ℤ farthest) ↔ (i ≤ result) }
    ensures of_steps { result ≤ steps }
{
    if distance as i64 <= farthest {
        steps
    } else {
        first_at(steps, distance, farthest as u64 + 1) - 1
    }
}

/// The first point that is so far along a distance. Along the longer way no division is needed.
fn first_at(steps: u64, distance: u64, far: u64) -> u64
    requires few { steps ≤ 65535 }
    requires near { distance ≤ steps }
    requires beyond { 1 ≤ far }
    requires inside { far ≤ distance }
    ensures first { (i : ℕ) → (far ≤ share i steps distance) ↔ (result ≤ i) }
    ensures bound { (1 ≤ result) × (result ≤ steps) }
{
    if steps == distance {
        far
    } else {
        (steps * (2 * far - 1)).div_ceil(2 * distance)
    }
}
