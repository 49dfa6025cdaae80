use cell_sums::sum_of_spans;
use desk_screen::Screen;

/// A sum over all pixels that the windows own, which another cell at a pixel changes.
pub fn sum_of(screen: &Screen, windows: u8) -> u64 {
    let mut sum = 0u64;
    for w in 0..windows {
        if let Some(pane) = screen.pane(u16::from(w)) {
            sum = sum.wrapping_add(sum_of_spans(&pane.spans));
        }
    }
    sum
}
