// What a recorder began with, as contracts name it.
use std::marker::Brand;

/// What a recorder began with. A function that makes one is generic over this, and its caller picks the values at
/// `Brand`: so they are known of the recorder also behind a call that knows it as some host.
pub trait Beginning {
    ghost use Rattle.std.specs.Prelude.{List, Option};
    ghost use Rattle.session_port.specs.Record.{HostCall};
    ghost use Rattle.session_record.specs.declared.start.StartConfig.{StartConfig};

    /// How the session began.
    ghost config: { StartConfig };

    /// The calls of the host until then, if it tells them.
    ghost calls: { Option (List HostCall) };
}

impl Beginning for Brand {
    ghost use Rattle.std.specs.Prelude.{[], None};
    ghost use Rattle.session_record.specs.declared.start.StartConfig.TheVariants.{New};

    ghost config = { New [] 1 };

    ghost calls = { None };
}
