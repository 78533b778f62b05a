use plain::ExactClone;

/// A row of the method table, by its number.
#[derive(Clone, Copy, Debug, PartialEq, Eq, PartialOrd, Ord, Hash)]
pub struct RowId(pub u8);

impl ExactClone for RowId {
    ghost use Rattle.std.proofs.Common.{rules};

    ghost copies = { λ x y h. Prim.search rules };
}
