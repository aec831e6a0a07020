//! A law of frames, which the documents build on. It is a statement that the check has proved; there is nothing to run.
ghost use Rattle.htl_form.specs.CommonMultiples.{FramesAreLeast};

/// The length of a frame, where there are root modules, is the least common multiple of their periods.
pub fn frames_are_least()
    ensures { FramesAreLeast }
{}
