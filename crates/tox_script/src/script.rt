//! A whole script.
ghost use Rattle.std.specs.Prelude.{◌≡◌, ◌≢◌, [], length, map, slice_get, string_bytes, option_and_then, option_map, IsTrue, IfOk, IfErr, Some, None, Ok, Err};
ghost use Rattle.std.specs.Str.{is_utf8};
ghost use Rattle.toml.specs.View.{items_view, view};
ghost use Rattle.tox_script.specs.ScriptFaults.{IsScriptFault};
ghost use Rattle.tox_script.specs.Views.{rule_view};
ghost use Rattle.tox_script.specs.Scopes.{scope_of, scope_view};
ghost use Rattle.tox_script.specs.Script.{rules_from, script_in, script_of, toml_of};
ghost use Rattle.tox_script.specs.declared.fault.ScriptFault.TheVariants.{NotToml, OutOfMemory};

use crate::chains::Chains;
use crate::fault::{Location, ScriptFault};
use crate::fields::document::DocumentFields;
use crate::index::rule_index::RuleIndex;
use crate::rule::Rule;
use crate::scope::Scope;
use crate::settings::Settings;
use crate::version::Version;
use std::alloc::{AllocError, Global};
use std::marker::Model;
use toml::Value;
use tox_defs::Chain;
use tox_time::Stream;

/// Which toxics each connection of each proxy meets: those of the first rule that covers it, and else none.
#[derive(Drop)]
pub struct Script {
    settings: Settings,
    rules: Vec<Rule>,
    nothing: Chains,
}

impl Model for Script {
    ghost use Rattle.tox_script.specs.Rule.{Rules};

    ghost Value = { Rules };

    ghost use Rattle.tox_script.specs.ScriptInside.{rules_of, HasNothing};

    ghost view = { rules_of };

    ghost invariant = { HasNothing };
}

impl Script {
    ghost use Rattle.tox_script.specs.Covering.{chains_for, chains_in, covering, toxics_for};
    ghost use Rattle.tox_script.specs.index.Numbered.{IsIndex, chains_numbered, decimals_numbered, order_numbered};

    /// The document's version: 1 if absent.
    pub fn version(&self) -> Version
        ensures { result ≡ self.now.settings.version }
    {
        self.settings.version
    }

    /// The toxics that a connection of a proxy meets on a stream, in the file's order.
    pub fn chain(&self, proxy: &str, conn: u64, stream: Stream) -> &Chain
        ensures { result.now ≡ (toxics_for proxy.now conn stream self.now).chain }
    {
        self.chains(proxy, conn).on(stream).chain()
    }

    /// The names of the toxics that a connection of a proxy meets on a stream, in the chain's order.
    pub fn names(&self, proxy: &str, conn: u64, stream: Stream) -> &[String]
        ensures value { map string_bytes result.now
            ≡ (toxics_for proxy.now conn stream self.now).names }
        ensures one_each { length result.now
            ≡ length (toxics_for proxy.now conn stream self.now).chain.entries }
    {
        self.chains(proxy, conn).on(stream).names()
    }

    /// The number of rules.
    pub fn rule_count(&self) -> usize
        ensures { result ≡ length self.now.rules }
    {
        self.rules.len()
    }

    /// The index of the rules that connections of a proxy meet.
    pub fn index(&self, alloc: Global, proxy: &str) -> Result<RuleIndex, AllocError>
        ensures { IfOk result (IsIndex proxy.now self.now) }
    {
        RuleIndex::of(alloc, &self.rules, proxy)
    }

    /// The toxics of the rule of a number from 0; none without a rule.
    pub fn rule_chains(&self, rule: Option<usize>) -> &Chains
        ensures { result.now ≡ chains_numbered rule self.now }
    {
        self.chains_in(self.numbered(rule))
    }

    /// The stream of each toxic of the rule of a number from 0, in the file's order; none without a rule.
    pub fn order(&self, rule: usize) -> &[Stream]
        ensures { result.now ≡ order_numbered rule self.now }
    {
        match self.numbered(Some(rule)) {
            Some(rule) => rule.order(),
            None => &[],
        }
    }

    /// Whether the toxicity of each toxic of the rule of a number from 0 is given as a decimal text, in the file's order; none without a
    /// rule.
    pub fn decimals(&self, rule: usize) -> &[bool]
        ensures { result.now ≡ decimals_numbered rule self.now }
    {
        match self.numbered(Some(rule)) {
            Some(rule) => rule.decimals(),
            None => &[],
        }
    }

    /// The connections that the rule of a number from 0 is for.
    pub fn scope(&self, rule: usize) -> Option<Scope<'_>>
        ensures { option_map scope_view result
            ≡ option_map scope_of (slice_get self.now.rules rule) }
    {
        let Some(found) = self.numbered(Some(rule)) else {
            return None;
        };
        Some(found.scope())
    }

    fn numbered(&self, rule: Option<usize>) -> Option<&Rule>
        ensures { option_map (λ rule. rule_view self.now.settings.lanes rule.now) result
            ≡ option_and_then (slice_get self.now.rules) rule }
    {
        self.rules.get(rule?)
    }

    fn chains(&self, proxy: &str, conn: u64) -> &Chains
        ensures { result.now ≡ chains_for proxy.now conn self.now }
    {
        self.chains_in(self.covering(proxy, conn))
    }

    /// The chains of a rule; no toxic without one.
    fn chains_in<'s>(&'s self, rule: Option<&'s Rule>) -> &'s Chains
        ensures { result.now ≡ chains_in self.now.settings.lanes
            (option_map (λ rule. rule_view self.now.settings.lanes rule.now) rule.entry) }
    {
        match rule {
            Some(rule) => rule.chains().unwrap_or(&self.nothing),
            None => &self.nothing,
        }
    }

    /// The first rule that covers a connection of a proxy.
    fn covering(&self, proxy: &str, conn: u64) -> Option<&Rule>
        ensures { option_map (λ rule. rule_view self.now.settings.lanes rule.now) result
            ≡ covering proxy.now conn self.now }
    {
        self.rules.iter().find(|rule| rule.covers(proxy, conn))
    }
}

/// The script of a TOML document.
///
/// The document has optional `version`, 1 or 2, in version 2 optional `lanes`, 16 or 32, and optional `rule`: an array of
/// tables. Without `version` it has version 1, whose chains have 16 lanes; without `lanes` version 2 has 32. A rule has
/// `proxy`, `first`, optional `last` and optional `toxic`, an array of tables. A toxic has `type`, and optional `name`,
/// `stream`, `toxicity` and `attributes`. Without `last` a rule has no upper end. A toxic without
/// them has the stream downstream, the toxicity 1000, each attribute 0, and as its name the type, `_` and the stream. In version 2 a
/// toxicity may be a text: a decimal number from 0 to 1 with up to three digits behind the point.
///
/// # Errors
///
/// The first fault: the document's, then each rule's in order, and behind each rule's own its toxics' in order. The fields
/// of a table come in the order of [`Field`], and a toxic's faults in the order S2, S3, S7, S4, S5, S6, S8, S9. Out of
/// memory may stand in place of any of them, but for bytes that are not UTF-8.
pub fn read_script(alloc: Global, bytes: &[u8]) -> Result<Script, ScriptFault>
    ensures ok { IfOk result (λ script. script_of bytes.now ≡ Ok script) }
    ensures err { IfErr result (IsScriptFault (script_of bytes.now)) }
    // Bytes that are not UTF-8 are refused before any request for memory.
    ensures memory { result ≡ Err OutOfMemory → IsTrue (is_utf8 bytes.now) }
{
    let document = read_toml(alloc, bytes)?;
    script_in(alloc, &document)
}

/// The script of a document that was read.
pub(crate) fn script_in(alloc: Global, document: &Value) -> Result<Script, ScriptFault>
    ensures ok { IfOk result (λ script. script_in (Some (view document.now)) ≡ Ok script) }
    ensures err { IfErr result (IsScriptFault (script_in (Some (view document.now)))) }
{
    let at = Location { rule: 0, toxic: 0 };
    let fields = DocumentFields::read(document).map_err(|field| ScriptFault::Field(at, field))?;
    Ok(Script {
        settings: fields.settings,
        rules: read_rules(alloc, fields.settings, fields.rules)?,
        nothing: Chains::new(alloc, fields.settings.lanes),
    })
}

/// The document, as a table.
pub(crate) fn read_toml(alloc: Global, bytes: &[u8]) -> Result<Value, ScriptFault>
    ensures ok { IfOk result (λ document. toml_of bytes.now ≡ Some (view document)) }
    ensures err { IfErr result
        (λ fault. fault ≢ OutOfMemory → (fault ≡ NotToml) × (toml_of bytes.now ≡ None)) }
    ensures memory { result ≡ Err OutOfMemory → IsTrue (is_utf8 bytes.now) }
{
    let Ok(text) = str::from_utf8(bytes) else {
        return Err(ScriptFault::NotToml);
    };
    match toml::table_from_str(alloc, text) {
        Ok(document) => Ok(Value::Table(document)),
        Err(error) if error.is_memory() => Err(ScriptFault::OutOfMemory),
        Err(_) => Err(ScriptFault::NotToml),
    }
}

/// The rules of some tables, or the first fault.
fn read_rules(alloc: Global, settings: Settings, tables: &[Value]) -> Result<Vec<Rule>, ScriptFault>
    ensures ok { IfOk result
        (λ rules. rules_from settings [] (items_view tables.now)
        ≡ Ok (map (rule_view settings.lanes) rules.items)) }
    ensures err { IfErr result (IsScriptFault (rules_from settings [] (items_view tables.now))) }
{
    let mut rules = Vec::new(alloc);
    for (index, table) in tables.iter().enumerate() {
        rules.push(Rule::read(alloc, settings, table, index + 1)?)?;
    }
    Ok(rules)
}
