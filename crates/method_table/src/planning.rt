ghost use Rattle.std.specs.Prelude.{◌≡◌};
ghost use Rattle.method_table.specs.Plans.{class_plan, plan};

use crate::class::{Class, PoolClass};
use crate::named::SHUTDOWN;
use crate::planned::Plan;
use crate::row_id::RowId;
use crate::rows::facts_of;

fn class_plan(class: Class, loading: bool, incomplete: bool) -> Plan
    ensures { result ≡ class_plan loading incomplete class }
{
    match class {
        Class::State => Plan::State,
        Class::OnLoop => Plan::OnLoop,
        Class::Formatting => Plan::Job(PoolClass::Formatting),
        Class::Latency | Class::Worker if loading => Plan::Default,
        Class::DocumentDiagnostic if loading || incomplete => Plan::Default,
        Class::Identity if loading => Plan::Identity,
        Class::Latency => Plan::Job(PoolClass::Latency),
        Class::DocumentDiagnostic | Class::Worker | Class::Identity => {
            Plan::Job(PoolClass::Worker)
        }
    }
}

/// What is done for a request of a row, or of no row: while files are loading or not, while the crate graph is
/// incomplete or not, after a shutdown was requested or not.
pub fn plan(row: Option<RowId>, loading: bool, incomplete: bool, shutdown: bool) -> Plan
    ensures { result ≡ plan row loading incomplete shutdown }
{
    let Some(row) = row else {
        return if shutdown {
            Plan::Refuse
        } else {
            Plan::Unknown
        };
    };
    if row == SHUTDOWN {
        return Plan::Shutdown;
    }
    if shutdown {
        return Plan::Refuse;
    }
    match facts_of(row) {
        Some(facts) => class_plan(facts.class, loading, incomplete),
        None => Plan::Unknown,
    }
}
