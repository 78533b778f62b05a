// The orders that a host keeps until it gives their answers.
ghost use Rattle.std.specs.Prelude.{◌≡◌, [], ◌∷◌, None, IfOk, OnOk};
ghost use Rattle.host_orders.specs.HostOrders.{after_next};
ghost use Rattle.inline_host.specs.Orders.{after_command, after_commands, answer_of, finished, next_answer};

use host_orders::{DueReply, HostOrders};
use plain::{Items, NoMemory};
use session_port::{Command, DeferredTask, HostEvent, LoaderMsg, LoadingProgress};
use std::alloc::Global;

fn keep_order(orders: &mut HostOrders<DeferredTask>, command: &Command) -> Result<(), NoMemory>
    ensures { OnOk result (orders.new ≡ after_command command.now orders.old) }
{
    match command {
        Command::Defer(task) => orders.defer(task.clone()?)?,
        Command::SetLoader { version, .. } => orders.set_loader(*version)?,
        Command::Timer(ticket) => orders.set_timer(*ticket),
        _ => {}
    }
    Ok(())
}

/// Keeps the settings of a loader, the deferred tasks and the newest timer of a turn's commands.
pub fn keep_orders(
    orders: &mut HostOrders<DeferredTask>,
    commands: &[Command],
) -> Result<(), NoMemory>
    ensures { OnOk result (orders.new ≡ after_commands commands.now orders.old) }
{
    for command in commands {
        keep_order(orders, command)?;
    }
    Ok(())
}

/// The messages of a loader that has nothing to read.
fn finished(alloc: Global, version: u32) -> Result<Items<LoaderMsg>, NoMemory>
    ensures { IfOk result (λ messages. messages ≡ finished version ∷ []) }
{
    let mut messages = Items::new(alloc);
    messages.push(LoaderMsg::Progress {
        n_total: 0,
        n_done: LoadingProgress::Finished,
        dir: None,
        config_version: version,
    })?;
    Ok(messages)
}

fn answer_of(alloc: Global, due: DueReply<DeferredTask>) -> Result<HostEvent, NoMemory>
    ensures { IfOk result (λ event. event ≡ answer_of due) }
{
    match due {
        DueReply::Loader(version) => Ok(HostEvent::Vfs(finished(alloc, version)?)),
        DueReply::Deferred(tasks) => Ok(HostEvent::DeferredTask(tasks)),
        DueReply::Timer(ticket) => Ok(HostEvent::Timer(ticket)),
    }
}

/// Gives the answer that is due, if an order is kept.
pub fn next_answer(
    alloc: Global,
    orders: &mut HostOrders<DeferredTask>,
) -> Result<Option<HostEvent>, NoMemory>
    ensures event { IfOk result (λ event. event ≡ next_answer orders.old) }
    ensures after { IfOk result (λ _. orders.new ≡ after_next orders.old) }
    ensures none { IfOk result (λ event. event ≡ None → orders.new ≡ orders.old) }
{
    match orders.next() {
        Some(due) => Ok(Some(answer_of(alloc, due)?)),
        None => Ok(None),
    }
}
