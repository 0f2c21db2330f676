//! A rule of a script.
ghost use Rattle.std.specs.Prelude.{◌≡◌, ◌<◌, ◌^◌, ℕ, true, nat_lt, IfOk, IfErr, Ok, Err, Some, None, MatchOption, option_map, unwrap_or, if◌then◌else◌};
ghost use Rattle.toml.specs.View.{items_view, view};
ghost use Rattle.tox_script.specs.chains.Chains.{no_chains};
ghost use Rattle.tox_script.specs.Covering.{covers, is_up_to};
ghost use Rattle.tox_script.specs.Rule.{rule_of};
ghost use Rattle.tox_script.specs.index.Steps.{Descends, HaveRules};
ghost use Rattle.tox_script.specs.Scopes.{scope_of, scope_view};
ghost use Rattle.tox_script.specs.chains.Toxics.{read_toxics};
ghost use Rattle.tox_script.specs.ScriptFaults.{IsScriptFault};
ghost use Rattle.tox_script.specs.Views.{held_toxics, rule_view};
ghost use Rattle.tox_words.specs.declared.lanes.Lanes.{Lanes};
ghost use Rattle.tox_words.specs.declared.lanes.Lanes.TheVariants.{Sixteen};

use crate::chains::Chains;
use crate::chains::rule_toxics::RuleToxics;
use crate::fault::{Location, ScriptFault};
use crate::fields::rule_fields::RuleFields;
use crate::index::step::Step;
use crate::scope::Scope;
use crate::settings::Settings;
use std::alloc::{AllocError, Global};
use toml::Value;
use tox_time::Stream;

/// The toxics that some connections of a proxy meet: those from `first` to `last`, or all from `first` on.
#[derive(Drop)]
pub(crate) struct Rule {
    proxy: String,
    first: u64,
    last: Option<u64>,
    toxics: Option<Box<RuleToxics>>,
}

impl Rule {
    /// The rule of a table, or its first fault, which names the rule by this number.
    pub(crate) fn read(
        alloc: Global,
        settings: Settings,
        table: &Value,
        number: usize,
    ) -> Result<Rule, ScriptFault>
        ensures ok { IfOk result (λ rule. rule_of settings number (view table.now)
            ≡ Ok (rule_view settings.lanes rule)) }
        ensures err { IfErr result (IsScriptFault (rule_of settings number (view table.now))) }
    {
        let at = Location {
            rule: number,
            toxic: 0,
        };
        let fields = RuleFields::read(table).map_err(|field| ScriptFault::Field(at, field))?;
        let toxics = read_toxics(alloc, settings, fields.toxics, number)?;
        Ok(Rule {
            proxy: String::from_str(alloc, fields.proxy)?,
            first: fields.first,
            last: fields.last,
            toxics,
        })
    }

    /// Whether a connection of a proxy is the rule's.
    pub(crate) fn covers(&self, proxy: &str, conn: u64) -> bool
        // `covers` reads no chains, so the lanes don't matter.
        ensures { result ≡ covers proxy.now conn (rule_view Sixteen self.now) }
    {
        self.proxy.as_str() == proxy && self.first <= conn && self.is_up_to(conn)
    }

    /// Whether the last connection isn't before this one.
    fn is_up_to(&self, conn: u64) -> bool
        ensures { result ≡ is_up_to conn self.now.last }
    {
        match self.last {
            None => true,
            Some(last) => conn <= last,
        }
    }

    /// The steps at which connections of a proxy begin and cease to be the rule's, which has this number.
    pub(crate) fn steps(
        &self,
        alloc: Global,
        proxy: &str,
        number: usize,
    ) -> Result<Vec<Step>, AllocError>
        ensures found { IfOk result (λ steps. HaveRules steps.items (λ conn.
            if covers proxy.now conn (rule_view Sixteen self.now) then Some number else None)) }
        ensures descends { IfOk result (λ steps. Descends (2 ^ 64) steps.items) }
    {
        let mut steps = Vec::new(alloc);
        if self.proxy.as_str() != proxy || !self.is_up_to(self.first) {
            return Ok(steps);
        }
        if let Some(after) = self.after() {
            steps.push(Step {
                first: after,
                rule: None,
            })?;
        }
        steps.push(Step {
            first: self.first,
            rule: Some(number),
        })?;
        Ok(steps)
    }

    /// The connection behind the last one.
    fn after(&self) -> Option<u64>
        ensures { MatchOption result
            ((conn : ℕ) → conn < 2 ^ 64 → is_up_to conn self.now.last ≡ true)
            (λ after. (conn : ℕ) → is_up_to conn self.now.last ≡ nat_lt conn after) }
    {
        match self.last {
            None => None,
            Some(last) => last.checked_add(1),
        }
    }

    /// The connections that the rule is for.
    pub(crate) fn scope(&self) -> Scope<'_>
        ensures { (lanes : Lanes) → scope_view result ≡ scope_of (rule_view lanes self.now) }
    {
        Scope {
            proxy: &self.proxy,
            first: self.first,
            last: self.last,
        }
    }

    /// The toxics, where there are any.
    pub(crate) fn chains(&self) -> Option<&Chains>
        ensures { (lanes : Lanes) → (rule_view lanes self.now).chains
            ≡ unwrap_or (option_map (λ chains. chains.now) result) (no_chains lanes) }
    {
        match &self.toxics {
            Some(toxics) => Some(&toxics.chains),
            None => None,
        }
    }

    /// The stream of each toxic, in the file's order.
    pub(crate) fn order(&self) -> &[Stream]
        ensures { (lanes : Lanes) → result.now ≡ (rule_view lanes self.now).order }
    {
        match &self.toxics {
            Some(toxics) => &toxics.order,
            None => &[],
        }
    }

    /// Whether the toxicity of each toxic is given as a decimal text, in the file's order.
    pub(crate) fn decimals(&self) -> &[bool]
        ensures { (lanes : Lanes) → result.now ≡ (rule_view lanes self.now).decimals }
    {
        match &self.toxics {
            Some(toxics) => &toxics.decimals,
            None => &[],
        }
    }
}

/// The toxics of the tables of a rule of this number. A rule without toxics takes no memory for chains.
fn read_toxics(
    alloc: Global,
    settings: Settings,
    tables: &[Value],
    rule: usize,
) -> Result<Option<Box<RuleToxics>>, ScriptFault>
    ensures ok { IfOk result (λ toxics. read_toxics settings rule (items_view tables.now)
        ≡ Ok (held_toxics settings.lanes toxics)) }
    ensures err { IfErr result (IsScriptFault (read_toxics settings rule (items_view tables.now))) }
{
    if tables.is_empty() {
        return Ok(None);
    }
    let toxics = RuleToxics::read(alloc, settings, tables, rule)?;
    Ok(Some(Box::new(alloc, toxics)?))
}
