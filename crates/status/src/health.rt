/// How well a session is.
#[derive(Clone, Copy, Debug, PartialEq, Eq, PartialOrd, Ord, Hash)]
pub enum Health {
    Ok,
    Warning,
    Error,
}

impl Health {
    ghost use Rattle.std.specs.Prelude.{◌≡◌};
    ghost use Rattle.status.specs.Health.{worse};
    ghost use Rattle.status.specs.Same.{is_same_health};

    /// The worse of two.
    pub fn worse(self, other: Health) -> Health
        ensures { result ≡ worse self other }
    {
        match self {
            Health::Error => self,
            Health::Warning => match other {
                Health::Error => Health::Error,
                Health::Warning => Health::Warning,
                Health::Ok => Health::Warning,
            },
            Health::Ok => other,
        }
    }

    /// Whether two are the same.
    pub fn is_same(self, other: Health) -> bool
        ensures { result ≡ is_same_health self other }
    {
        match (self, other) {
            (Health::Ok, Health::Ok)
            | (Health::Warning, Health::Warning)
            | (Health::Error, Health::Error) => true,
            _ => false,
        }
    }
}
