ghost use Rattle.std.specs.Prelude.{◌≡◌, ◌<◌, ◌↔◌, ℤ, true, false, Some, IfSome};
ghost use Rattle.be_color.specs.Pattern.{alike_rows, place_in_pattern, pattern_bit};

/// Eight rows of eight bits, the top row first and the leftmost bit highest: `pattern` of the Be
/// Book. It is laid over a window again and again, from the window's left top on.
#[derive(Clone, Copy, Debug, PartialEq, Eq)]
pub struct Pattern {
    pub rows: [u8; 8],
}

impl Pattern {
    /// `B_SOLID_HIGH`.
    pub const HIGH: Pattern = Pattern { rows: [0xff; 8] };

    /// `B_SOLID_LOW`.
    pub const LOW: Pattern = Pattern { rows: [0; 8] };

    /// `B_MIXED_COLORS`, a chequerboard whose left top bit is 1.
    pub const MIXED: Pattern = Pattern {
        rows: [0xaa, 0x55, 0xaa, 0x55, 0xaa, 0x55, 0xaa, 0x55],
    };

    /// The bit at a pixel in window coordinates, which may be negative.
    #[tactic(auto, unfolding(crate::specs::Pattern::pattern_bit))]
    pub fn bit(self, x: i32, y: i32) -> bool
        ensures { result ≡ pattern_bit self.rows x y }
    {
        let row = self.rows[place_in_pattern(y)];
        row >> (7 - place_in_pattern(x)) & 1 == 1
    }

    /// The bit that is the same at all pixels. None for a pattern that is neither `HIGH` nor `LOW`.
    pub fn solid_bit(self) -> Option<bool>
        ensures high { (result ≡ Some true) ↔ (self.rows ≡ alike_rows 255) }
        ensures low { (result ≡ Some false) ↔ (self.rows ≡ alike_rows 0) }
        ensures each { IfSome result (λ bit. (x y : ℤ) → pattern_bit self.rows x y ≡ bit) }
    {
        if self.rows == [0xff; 8] {
            Some(true)
        } else if self.rows == [0; 8] {
            Some(false)
        } else {
            None
        }
    }
}

/// Where a coordinate falls in a pattern, 0 to 7.
#[tactic(auto, unfolding(crate::specs::Pattern::place_in_pattern))]
fn place_in_pattern(coordinate: i32) -> usize
    ensures place { result ≡ place_in_pattern coordinate }
    ensures within { result < 8 }
{
    coordinate.rem_euclid(8) as usize
}
