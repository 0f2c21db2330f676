//! What is reported of a rule.
ghost use Rattle.std.specs.Prelude.{◌≡◌, ◌+◌, ◌<◌, ◌^◌, ◌++◌, [], ◌∷◌, Some, length, map, position, slice_get, IfOk, OnOk};
ghost use Rattle.tox_config.specs.Populate.{is_named};
ghost use Rattle.tox_script.specs.Rule.{Rule};
ghost use Rattle.tox_script.specs.index.Numbered.{chains_numbered, decimals_numbered, order_numbered};
ghost use Rattle.tox_text.specs.Nearest.{nearest};
ghost use Rattle.tox_check.specs.Coverage.{last_of, within};
ghost use Rattle.tox_check.specs.Lines.{met_warnings, proxy_names, proxy_warnings, rule_warnings, toxics_warnings};
ghost use Rattle.tox_check.specs.Sentences.{warning_text, unknown_text};
ghost use Rattle.tox_check.specs.RuleWarnings.{IsTreeOf, TellMore, runs_by};
ghost use Rattle.tox_check.specs.Trees.{AreTrees, runs_named};

use crate::forecast::Places;
use crate::rule_coverage::{coverage, put_silent};
use crate::run::LAST;
use crate::tree::{Range, RunTree};
use crate::warning::Warning;
use std::alloc::{AllocError, Global};
use tox_config::ProxyDef;
use tox_runs::Setup;
use tox_script::{Scope, Script};
use tox_text::nearest;

/// The warnings of a rule, by its number from 0.
pub(crate) fn warnings_of<'a>(
    alloc: Global,
    setup: &'a Setup,
    trees: &[Option<RunTree>],
    rule: usize,
) -> Result<Vec<Warning<'a>>, AllocError>
    requires numbered { rule + 1 < 2 ^ 64 }
    requires trees { AreTrees setup.now.script setup.now.proxies.items trees.now }
    ensures { (found : Rule) → slice_get setup.now.script.rules rule ≡ Some found
        → IfOk result (λ warnings. map warning_text warnings.items
        ≡ rule_warnings setup.now.proxies.items
        (runs_named setup.now.proxies.items trees.now) (rule + 1) found) }
{
    let Some(scope) = setup.script.scope(rule) else {
        return Ok(Vec::new(alloc));
    };
    match place_of(&setup.proxies, scope.proxy) {
        None => unknown(alloc, scope.proxy, &setup.proxies),
        Some(place) => known(
            alloc,
            &setup.proxies[place],
            &trees[place],
            &setup.script,
            scope,
            rule,
        ),
    }
}

/// The place of a name's proxy.
fn place_of(proxies: &[ProxyDef], name: &str) -> Option<usize>
    ensures { result ≡ position (is_named name.now) proxies.now }
{
    proxies.iter().position(|proxy| proxy.name.as_str() == name)
}

/// The warning of a rule whose proxy isn't there.
fn unknown<'a>(
    alloc: Global,
    name: &'a str,
    proxies: &'a [ProxyDef],
) -> Result<Vec<Warning<'a>>, AllocError>
    ensures { IfOk result (λ warnings. map warning_text warnings.items
        ≡ unknown_text name.now (nearest name.now (proxy_names proxies.now)) ∷ []) }
{
    let names = names_of(alloc, proxies)?;
    let near = nearest(alloc, name, &names)?;
    let mut warnings = Vec::new(alloc);
    warnings.push(Warning::UnknownProxy(name, near))?;
    Ok(warnings)
}

/// The names of proxies.
fn names_of<'a>(alloc: Global, proxies: &'a [ProxyDef]) -> Result<Vec<&'a str>, AllocError>
    ensures { IfOk result
        (λ names. map (λ name. name.now) names.items ≡ proxy_names proxies.now) }
{
    let mut names = Vec::new(alloc);
    for proxy in proxies {
        names.push(proxy.name.as_str())?;
    }
    Ok(names)
}

/// The warnings of a rule whose proxy is there, by the rule's number from 0.
fn known<'a>(
    alloc: Global,
    proxy: &'a ProxyDef,
    tree: &Option<RunTree>,
    script: &Script,
    scope: Scope<'_>,
    rule: usize,
) -> Result<Vec<Warning<'a>>, AllocError>
    requires numbered { rule + 1 < 2 ^ 64 }
    requires tree { IsTreeOf tree.now }
    requires few { length (runs_by tree.now) < 2 ^ 64 }
    ensures { IfOk result (λ warnings. map warning_text warnings.items
        ≡ met_warnings (rule + 1)
        (within scope.entry.first (last_of scope.entry.last) (runs_by tree.now))
        ++ (toxics_warnings (decimals_numbered rule script.now) (chains_numbered (Some rule) script.now)
        (order_numbered rule script.now) ++ proxy_warnings proxy.now)) }
{
    let range = Range {
        rule: rule + 1,
        first: scope.first,
        last: scope.last.unwrap_or(LAST).min(LAST),
    };
    let mut warnings = Vec::new(alloc);
    put_coverage(&mut warnings, tree, range)?;
    put_toxics(&mut warnings, script, rule)?;
    put_disabled(&mut warnings, proxy)?;
    Ok(warnings)
}

/// Tells of the connections of a rule, by the runs of its proxy.
fn put_coverage(
    warnings: &mut Vec<Warning<'_>>,
    tree: &Option<RunTree>,
    range: Range,
) -> Result<(), AllocError>
    requires tree { IsTreeOf tree.now }
    requires few { length (runs_by tree.now) < 2 ^ 64 }
    ensures { OnOk result (TellMore warnings.old.items warnings.new.items
        (met_warnings range.rule (within range.first range.last (runs_by tree.now)))) }
{
    match coverage(tree, range) {
        None => Ok(()),
        Some(warning) => {
            warnings.push(warning)?;
            Ok(())
        }
    }
}

/// Tells of the toxics of a rule, by its number from 0, that are never or seldom applied or change nothing.
fn put_toxics(
    warnings: &mut Vec<Warning<'_>>,
    script: &Script,
    rule: usize,
) -> Result<(), AllocError>
    ensures { OnOk result (TellMore warnings.old.items warnings.new.items
        (toxics_warnings (decimals_numbered rule script.now) (chains_numbered (Some rule) script.now)
        (order_numbered rule script.now))) }
{
    let first = Places {
        number: 1,
        upstream: 0,
        downstream: 0,
    };
    let chains = script.rule_chains(Some(rule));
    put_silent(
        warnings,
        script.decimals(rule),
        chains,
        first,
        script.order(rule),
    )
}

/// Tells of a proxy that is disabled.
fn put_disabled<'a>(warnings: &mut Vec<Warning<'a>>, proxy: &'a ProxyDef) -> Result<(), AllocError>
    ensures { OnOk result
        (TellMore warnings.old.items warnings.new.items (proxy_warnings proxy.now)) }
{
    if !proxy.enabled {
        warnings.push(Warning::Disabled(&proxy.name))?;
    }
    Ok(())
}
