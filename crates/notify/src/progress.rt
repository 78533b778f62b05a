// How far some work is.
ghost use Rattle.std.specs.Prelude.{◌≡◌, ◌≤◌};
ghost use Rattle.notify.specs.Fraction.{hundredths};

/// A step of a piece of work that is reported.
#[derive(Clone, Copy, Debug, PartialEq, Eq, PartialOrd, Ord, Hash)]
pub enum Progress {
    Begin,
    Report,
    End,
}

impl Progress {
    /// How many whole hundredths of the total are done.
    pub fn fraction(done: u64, total: u64) -> u32
        requires { done ≤ total }
        ensures { result ≡ hundredths done total }
    {
        let hundredths = 100 * (done as u128) / (total.max(1) as u128);
        hundredths as u32
    }
}
