/// Which pixels of two regions are kept.
#[derive(Clone, Copy, Debug, PartialEq, Eq)]
pub(crate) enum Rule {
    Union,
    Difference,
    Intersection,
}
