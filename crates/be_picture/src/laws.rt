ghost use Rattle.be_picture.specs.Laws.{PlayingRestores, TextIsPicture};

/// What `write_picture` writes of a picture, each of whose commands has a line, `read_picture`
/// reads as the same picture, where it isn't too long.
pub fn a_picture_is_read_back()
    ensures { TextIsPicture }
{}

/// The definition of what a picture makes of a bitmap off the screen gives all states back that the
/// picture saves, those too that it leaves open, and the one that it found.
pub fn playing_restores_the_states()
    ensures { PlayingRestores }
{}
