//! Directory items that have one key and one folder.
ghost use Rattle.std.specs.Prelude.{◌≡◌, ◌↔◌, ◌||◌, ◌&&◌, IfOk, OnOk, IsTrue};
ghost use Rattle.std.specs.BTreeSet.{contains};
ghost use Rattle.std.specs.List.{flat_map};
ghost use Rattle.std.specs.Ordering.{is_eq};
ghost use Rattle.folder_spec.specs.View.{View};
ghost use Rattle.vault_spec.specs.Format.{Format};
ghost use Rattle.vault_walk.specs.Apart.{AreShared, AreTargets, AreTwice, IsMetAgain, shared_in};
ghost use Rattle.vault_walk.specs.Nodes.{node_cmp};

use crate::found::Found;
use crate::key::Node;
use crate::order::in_order;
use crate::report::add_found;
use folder_model::FPath;
use std::alloc::{AllocError, Global};
use std::collections::BTreeSet;
use vault_spec::Finding;

/// A directory item with a key: the directory of that, and the item's entry.
#[derive(PartialEq, Eq, PartialOrd, Ord, Drop)]
pub(crate) struct Target {
    pub(crate) node: Node,
    pub(crate) at: FPath,
}

// Those of these items of which another, with another entry, has the same directory.
pub(crate) fn found_twice(alloc: Global, targets: Vec<Target>) -> Result<Vec<Found>, AllocError>
    ensures shared { IfOk result (λ found. AreShared targets.items found.items) }
    ensures twice { IfOk result (λ found. (f : Format) (v : View) → AreTargets f v targets.items → AreTwice f v found.items) }
{
    let targets = in_order(targets);
    let again = met_again(alloc, targets.as_slice())?;
    let found = shared(alloc, targets.as_slice(), &again)?;
    Ok(found)
}

// Those of these items that have one of these directories.
fn shared(
    alloc: Global,
    targets: &[Target],
    again: &BTreeSet<Node>,
) -> Result<Vec<Found>, AllocError>
    ensures { IfOk result (λ found. found.items ≡ flat_map (shared_in again.now) targets.now) }
{
    let mut found = Vec::new(alloc);
    for target in targets {
        let twice = again.contains(&target.node).then_some(Finding::DirIdTwice);
        add_found(&mut found, &target.at, twice)?;
    }
    Ok(found)
}

// The directories that more than one of these items has.
fn met_again(alloc: Global, targets: &[Target]) -> Result<BTreeSet<Node>, AllocError>
    ensures { IfOk result (λ again. (node : Node) → IsTrue (contains node_cmp again node) ↔ IsMetAgain targets.now node) }
{
    let mut once = BTreeSet::new(alloc);
    let mut again = BTreeSet::new(alloc);
    for target in targets {
        meet(&mut once, &mut again, &target.node)?;
    }
    Ok(again)
}

// Keeps a directory that is met, among those met again where it was met before.
fn meet(
    once: &mut BTreeSet<Node>,
    again: &mut BTreeSet<Node>,
    node: &Node,
) -> Result<(), AllocError>
    ensures met { OnOk result ((other : Node) → contains node_cmp once.new other ≡ (is_eq (node_cmp node.now other) || contains node_cmp once.old other)) }
    ensures again { OnOk result ((other : Node) → contains node_cmp again.new other ≡ (is_eq (node_cmp node.now other) && contains node_cmp once.old node.now || contains node_cmp again.old other)) }
{
    if !once.insert(node.copy()?)? {
        again.insert(node.copy()?)?;
    }
    Ok(())
}
