use be_machine::Entry;
use be_parts::Part;
use be_world::World;

/// What a run leaves.
#[derive(Drop)]
pub struct Finished {
    pub world: World,
    /// All entries, in the order in which they were made.
    pub history: Vec<Entry>,
    /// By place.
    pub parts: Vec<Part>,
}
