ghost use Rattle.be_archive.specs.Laws.{ComesBack, OnlyItsArchive};

/// Only the archive of a tree is read as that tree.
pub fn nothing_else_is_an_archive()
    ensures { OnlyItsArchive }
{}

/// Each tree of a window comes back from its archive as it was.
pub fn a_tree_comes_back()
    ensures { ComesBack }
{}
