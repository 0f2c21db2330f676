//! The runs of each proxy.
ghost use Rattle.std.specs.Prelude.{◌<◌, ◌^◌, length, IfOk};
ghost use Rattle.tox_check.specs.Trees.{AreTrees, HoldsRuns};

use crate::run::runs_of;
use crate::tree::{RunTree, tree_of};
use std::alloc::{AllocError, Global};
use tox_runs::Setup;
use tox_script::Script;

/// The runs of each proxy, as a tree; none where no connection meets a rule.
pub(crate) fn trees_of(alloc: Global, setup: &Setup) -> Result<Vec<Option<RunTree>>, AllocError>
    requires { length setup.now.script.rules < 2 ^ 64 }
    ensures { IfOk result (λ trees. AreTrees setup.now.script setup.now.proxies.items trees.items) }
{
    let mut trees = Vec::new(alloc);
    for proxy in &setup.proxies {
        let tree = proxy_tree(alloc, &setup.script, &proxy.name)?;
        trees.push(tree)?;
    }
    Ok(trees)
}

/// The runs of the proxy of a name, as a tree; none where no connection meets a rule.
fn proxy_tree(alloc: Global, script: &Script, name: &str) -> Result<Option<RunTree>, AllocError>
    requires { length script.now.rules < 2 ^ 64 }
    ensures { IfOk result (HoldsRuns script.now name.now) }
{
    let index = script.index(alloc, name)?;
    let runs = runs_of(alloc, index.steps())?;
    if runs.is_empty() {
        return Ok(None);
    }
    let tree = tree_of(alloc, &runs)?;
    Ok(Some(tree))
}
