//! What follows of the text of latest finishes. Each is a statement that the check has proved; there is nothing to run.
ghost use Rattle.htl_times_top.specs.Laws.{LeftIsTrue, OneText};

/// An object has one text of latest finishes.
pub fn one_text()
    ensures { OneText }
{}

/// Of an accepted object each latest finish lies behind the release and by the window's end: what is told as left is left.
pub fn left_is_true()
    ensures { LeftIsTrue }
{}
