ghost use Rattle.be_trees.specs.Laws.{ComesBack, OnlyItsLine};

/// Only the line of a tree's archive is read as that tree.
pub fn nothing_else_is_an_archive_line()
    ensures { OnlyItsLine }
{}

/// Each tree of a window comes back from the line of its archive as it was.
pub fn an_archive_line_comes_back()
    ensures { ComesBack }
{}
