//! What became of the macros of each crate that was listed.
ghost use Rattle.std.specs.Prelude.{◌≡◌, ℕ, ◌<◌, ◌^◌, ◌++◌, length, map, Some, IfOk, OnOk};
ghost use Rattle.std.specs.Option.{option_copied};
ghost use Rattle.project_model.specs.declared.build.MacroPath.{MacroPath};
ghost use Rattle.project_model.specs.declared.crates.MacroState.TheVariants.{Failed};
ghost use Rattle.workspaces.specs.Loads.{found_in, listed_in, state_or_missing, first_told, numbered, macros_of, all_in, unloaded, without_macros};

use plain::{ByNumber, Items, NoMemory, Text};
use project_model::{CrateData, CrateInfo, MacroPath, MacroState};
use std::alloc::Global;

fn push_listed(listed: &mut Items<u32>, paths: &[(u32, MacroPath)]) -> Result<(), NoMemory>
    ensures { OnOk result (listed.new ≡ listed.old ++ map (λ path. path.0) paths.now) }
{
    for path in paths {
        listed.push(path.0)?;
    }
    Ok(())
}

/// The crates of these lists, in order.
pub(crate) fn listed_in(
    alloc: Global,
    lists: &[Items<(u32, MacroPath)>],
) -> Result<Items<u32>, NoMemory>
    ensures { IfOk result (λ listed. listed ≡ listed_in lists.now) }
{
    let mut listed = Items::new(alloc);
    for paths in lists {
        push_listed(&mut listed, paths.as_slice())?;
    }
    Ok(listed)
}

/// What was told of each crate, by its number; of several entries for one crate the first.
fn by_number<'a>(
    alloc: Global,
    entries: &'a [(u32, MacroState)],
) -> Result<ByNumber<&'a MacroState>, NoMemory>
    ensures { IfOk result (λ rows. (number : ℕ) → found_in rows number ≡ first_told entries.now number) }
{
    let mut rows = ByNumber::new(alloc);
    for entry in entries {
        rows.insert_new(entry.0 as u64, &entry.1)?;
    }
    Ok(rows)
}

fn found_in<'a>(rows: &ByNumber<&'a MacroState>, number: u64) -> Option<&'a MacroState>
    ensures { option_copied result ≡ found_in rows.now number }
{
    match rows.get(number) {
        Some(state) => Some(*state),
        None => None,
    }
}

fn state_or_missing(alloc: Global, told: Option<&MacroState>) -> Result<MacroState, NoMemory>
    ensures { IfOk result (λ state. state ≡ state_or_missing (option_copied told.entry)) }
{
    match told {
        Some(state) => state.clone(),
        None => Ok(MacroState::Failed(Text::from_str(alloc, "missing")?)),
    }
}

fn told_each(
    alloc: Global,
    rows: &ByNumber<&MacroState>,
    listed: &[u32],
) -> Result<Items<(u32, MacroState)>, NoMemory>
    ensures { IfOk result (λ macros. macros ≡ map (numbered (found_in rows.now)) listed.now) }
{
    let mut macros = Items::new(alloc);
    for number in listed {
        macros.push((
            *number,
            state_or_missing(alloc, found_in(rows, *number as u64))?,
        ))?;
    }
    Ok(macros)
}

fn failed_each(
    alloc: Global,
    error: &Text,
    listed: &[u32],
) -> Result<Items<(u32, MacroState)>, NoMemory>
    ensures { IfOk result (λ macros. macros ≡ map (numbered (λ number. Some (Failed error.now))) listed.now) }
{
    let mut macros = Items::new(alloc);
    for number in listed {
        macros.push((*number, MacroState::Failed(error.clone()?)))?;
    }
    Ok(macros)
}

/// What became of the macros of each crate that was listed, by what was told.
pub(crate) fn macros_of(
    alloc: Global,
    told: &Result<Items<(u32, MacroState)>, Text>,
    listed: &[u32],
) -> Result<Items<(u32, MacroState)>, NoMemory>
    ensures { IfOk result (λ macros. macros ≡ macros_of told.now listed.now) }
{
    match told {
        Ok(entries) => {
            let rows = by_number(alloc, entries.as_slice())?;
            told_each(alloc, &rows, listed)
        }
        Err(error) => failed_each(alloc, error, listed),
    }
}

/// Each crate by its number, in this state.
fn all_in(
    alloc: Global,
    state: &MacroState,
    crates: &[CrateInfo],
) -> Result<Items<(u32, MacroState)>, NoMemory>
    requires { length crates.now < 2 ^ 32 }
    ensures { IfOk result (λ macros. macros ≡ all_in state.now crates.now) }
{
    let mut macros = Items::new(alloc);
    for (index, _info) in crates.iter().enumerate() {
        macros.push((index as u32, state.clone()?))?;
    }
    Ok(macros)
}

fn unloaded(enabled: bool) -> MacroState
    ensures { result ≡ unloaded enabled }
{
    if enabled {
        MacroState::NotYetBuilt
    } else {
        MacroState::Disabled
    }
}

/// Crate data that doesn't wait for its macros: those of each crate are not yet built, or disabled where macros are off.
pub fn without_macros(alloc: Global, graph: CrateData, enabled: bool) -> Result<CrateData, NoMemory>
    requires { length graph.crates < 2 ^ 32 }
    ensures { IfOk result (λ made. made ≡ without_macros enabled graph) }
{
    let macros = all_in(alloc, &unloaded(enabled), graph.crates.as_slice())?;
    Ok(CrateData {
        crates: graph.crates,
        env: graph.env,
        macros,
    })
}
