ghost use Rattle.std.specs.Prelude.{◌≡◌, ℕ, ◌∷◌, ◌≤◌, ◌==◌, length, insert, position, count_by};
ghost use Rattle.be_stack.specs.Order.{others, put_behind};

/// The place of a window in the order, counted from the front.
pub(crate) fn place_of(order: &[u16], w: u16) -> Option<usize>
    ensures { result ≡ position (λ v. v == w) order.now }
{
    order.iter().position(|v| *v == w)
}

/// Takes a window out of the order.
pub(crate) fn leave(order: &mut Vec<u16>, w: u16)
    requires { count_by (λ v. v == w) order.old.items ≤ 1 }
    ensures { order.new.items ≡ others w order.old.items }
{
    if let Some(place) = place_of(order, w) {
        order.remove(place);
    }
}

/// Puts a window of the order in front of the others.
pub(crate) fn go_to_front(order: &mut Vec<u16>, w: u16)
    requires { count_by (λ v. v == w) order.old.items ≡ 1 }
    ensures { order.new.items ≡ w ∷ others w order.old.items }
{
    if let Some(place) = place_of(order, w) {
        order.remove(place);
        order.insert(0, w).unwrap();
    }
}

/// Puts a window of the order directly behind another.
pub(crate) fn go_behind(order: &mut Vec<u16>, w: u16, front: u16)
    requires { count_by (λ v. v == w) order.old.items ≡ 1 }
    ensures { order.new.items ≡ put_behind front w (others w order.old.items) }
{
    if let Some(place) = place_of(order, w) {
        order.remove(place);
        let behind = place_behind(order, front);
        order.insert(behind, w).unwrap();
    }
}

/// The place directly behind a window, or behind all where it isn't in the order.
fn place_behind(order: &[u16], front: u16) -> usize
    ensures within { result ≤ length order.now }
    ensures behind { (w : ℕ) → put_behind front w order.now ≡ insert order.now result w }
{
    match place_of(order, front) {
        Some(place) => place + 1,
        None => order.len(),
    }
}
