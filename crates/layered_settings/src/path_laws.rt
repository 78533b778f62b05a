// Laws of the path on which a setting is searched.
ghost use Rattle.layered_settings.specs.PathLaws.{PathsEnd, FirstPairHolds};

/// The files are searched from a root to its parent and so on, ending before the first root that comes
/// a second time; and of the pairs of one root the first tells its parent.
pub fn the_search_path_ends()
    ensures ends { PathsEnd }
    ensures first { FirstPairHolds }
{}
