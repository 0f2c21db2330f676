//! The toxics of a rule as a script's tables give them.
ghost use Rattle.std.specs.Prelude.{◌≡◌, IfOk, IfErr, Ok, Err};
ghost use Rattle.toml.specs.View.{items_view, view};
ghost use Rattle.tox_defs.specs.chain.Chain.{IsEntry};
ghost use Rattle.tox_script.specs.chains.Toxics.{read_toxics, toxic_at};
ghost use Rattle.tox_script.specs.ScriptFaults.{IsScriptFault};
ghost use Rattle.tox_script.specs.Views.{toxic_view, toxics_view};

use crate::chains::Chains;
use crate::chains::named_toxic::NamedToxic;
use crate::fault::{Location, ScriptFault};
use crate::fields::toxic_fields::ToxicFields;
use crate::settings::Settings;
use crate::version::Version;
use std::alloc::Global;
use toml::Value;
use tox_time::Stream;

/// The toxics of a rule by their streams, and in the file's order the stream of each and whether its toxicity is given as a
/// decimal text.
#[derive(Drop)]
pub(crate) struct RuleToxics {
    pub(crate) chains: Chains,
    pub(crate) order: Vec<Stream>,
    pub(crate) decimals: Vec<bool>,
}

impl RuleToxics {
    /// The toxics of the tables of rule number `rule`, or their first fault.
    pub(crate) fn read(
        alloc: Global,
        settings: Settings,
        tables: &[Value],
        rule: usize,
    ) -> Result<RuleToxics, ScriptFault>
        ensures ok { IfOk result (λ toxics.
            read_toxics settings rule (items_view tables.now) ≡ Ok (toxics_view toxics)) }
        ensures err { IfErr result
            (IsScriptFault (read_toxics settings rule (items_view tables.now))) }
    {
        let mut chains = Chains::new(alloc, settings.lanes);
        let mut order = Vec::new(alloc);
        let mut decimals = Vec::new(alloc);
        for (index, table) in tables.iter().enumerate() {
            let at = Location {
                rule,
                toxic: index + 1,
            };
            let toxic = read_toxic(settings.version, table, at)?;
            chains.put(alloc, &toxic, at)?;
            order.push(toxic.stream)?;
            decimals.push(toxic.is_decimal)?;
        }
        Ok(RuleToxics {
            chains,
            order,
            decimals,
        })
    }
}

/// The toxic of a table at a location.
fn read_toxic(version: Version, table: &Value, at: Location) -> Result<NamedToxic<'_>, ScriptFault>
    ensures ok { IfOk result
        (λ toxic. toxic_at version at (view table.now) ≡ Ok (toxic_view toxic)) }
    ensures err { IfErr result (λ fault. toxic_at version at (view table.now) ≡ Err fault) }
    ensures fits { IfOk result (λ toxic. IsEntry toxic.entry) }
{
    let fields = ToxicFields::read(table).map_err(|field| ScriptFault::Field(at, field))?;
    let toxic = NamedToxic::of(version, &fields).map_err(|fault| ScriptFault::Toxic(at, fault))?;
    Ok(toxic)
}
