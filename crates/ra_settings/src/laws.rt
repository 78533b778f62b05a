// Laws of the table of settings, of the layers that are read by it, and of the paths that texts name.
ghost use Rattle.ra_settings.specs.PathLaws.{EmptySegmentsRefused, NothingRefused};
ghost use Rattle.ra_settings.specs.RowLaws.{EachRowOnce, ReadByRow, DefaultsByRow};

/// Each row stands in the list of rows at its place and nowhere else; and a layer has at each row what that
/// row's place in the tree is read as.
pub fn a_layer_is_read_by_row()
    ensures once { EachRowOnce }
    ensures read { ReadByRow }
    ensures defaults { DefaultsByRow }
{}

/// A text with an empty segment names no path, whatever stands before it.
pub fn empty_segments_are_refused()
    ensures segments { EmptySegmentsRefused }
    ensures nothing { NothingRefused }
{}
