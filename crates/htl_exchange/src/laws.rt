//! The laws of the exchange. Each is a statement that the check has proved; there is nothing to run.
ghost use Rattle.htl_exchange.specs.Laws.{UnreachedShowsTheSame, UnreachedTakesTheSamePaths};

/// The text of a run of a patched object differs from that of the old one only in what one of the two refinements reaches: what it
/// writes, the modes below the patched mode, and whatever depends on these. The values of all other communicators and the modes of all
/// other modules are the same at each instant, and so are their lines, whatever the sensors show.
pub fn unreached_shows_the_same()
    ensures { UnreachedShowsTheSame }
{}

/// Where neither refinement reaches the mode of a root module, each frame of the run takes the path that it took, and the jobs of root
/// modules have the same windows and worst cases at the same positions. Only the numbers of their invocations may be others.
pub fn unreached_takes_the_same_paths()
    ensures { UnreachedTakesTheSamePaths }
{}
