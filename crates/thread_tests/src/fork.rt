use be_workers::{Spread, for_each};
use std::test::Fail;

#[test]
fn each_place_is_handled_with_its_number(rt: HostRuntime) -> Result<(), Fail> {
    for spread in [Spread::Apart, Spread::InTurn] {
        let mut places = [9, 9, 9];
        for_each(&rt, &mut places, spread, &|i, it: &mut usize| *it = i);
        assert_eq!(rt; places, [0, 1, 2]);
    }
    Ok(())
}
