//! The plan of a vault: its items, each with its path, its kind and its place, and the digest of these.
ghost use Rattle.std.specs.Prelude.{◌≡◌, ◌++◌, ℕ, List, IfOk, OnOk};
ghost use Rattle.sha2.specs.Hashers.{Holds256};
ghost use Rattle.vault_walk.specs.Digest.{line_of, plan_digest, kind_letter};

use folder_model::FPath;
use plain_tree::{NodeKind, PlainPath};
use sha2::{Digest, Sha256};
use std::alloc::AllocError;
use std::marker::Model;

/// An item of a vault: its path from the root, its kind, and its path in the folder, which is that of its content where it is a
/// file.
#[derive(Drop)]
pub struct PlanItem {
    pub path: PlainPath,
    pub node: NodeKind,
    pub at: FPath,
}

impl Model for PlanItem {
    ghost use Rattle.vault_spec.specs.Plan.{Planned};

    ghost Value = { Planned };

    ghost view = { λ item. record { path = item.path; node = item.node; at = item.at } };
}

/// The items of a plan. Contracts see them as a list.
#[derive(Drop)]
pub struct PlanItems {
    items: Vec<PlanItem>,
}

impl Model for PlanItems {
    ghost use Rattle.std.specs.Prelude.{List};
    ghost use Rattle.vault_spec.specs.Plan.{Planned};

    ghost Value = { List Planned };

    ghost view = { λ plan. plan.items.items };
}

impl PlanItems {
    /// The items that a vector holds. It takes no memory.
    pub fn new(items: Vec<PlanItem>) -> PlanItems
        ensures { result ≡ items.items }
    {
        PlanItems { items }
    }

    /// The items.
    pub fn as_slice(&self) -> &[PlanItem]
        ensures { result.now ≡ self.now }
    {
        self.items.as_slice()
    }

    /// The vector that holds the items. It takes no memory.
    pub fn into_vec(self) -> Vec<PlanItem>
        ensures { result.items ≡ self }
    {
        self.items
    }
}

/// The items of a vault.
#[derive(Drop)]
pub struct Plan {
    pub items: PlanItems,
}

/// The SHA-256 of a line for each item: `d ` or `f `, its shown path and a newline.
pub fn plan_digest(plan: &Plan) -> Result<[u8; 32], AllocError>
    ensures { IfOk result (λ digest. digest ≡ plan_digest plan.now.items) }
{
    let mut hasher = Sha256::new();
    for item in plan.items.as_slice() {
        add_line(&mut hasher, item)?;
    }
    Ok(hasher.finalize())
}

// Adds the line of an item to what is hashed.
fn add_line(hasher: &mut Sha256, item: &PlanItem) -> Result<(), AllocError>
    ensures { (text : List ℕ) → Holds256 hasher.old text → OnOk result (Holds256 hasher.new (text ++ line_of item.now)) }
{
    let shown = item.path.shown()?;
    hasher.update(kind_letter(item.node));
    hasher.update(shown.as_bytes());
    hasher.update(b"\n");
    Ok(())
}

// How the line of an item of a kind begins.
fn kind_letter(node: NodeKind) -> &'static [u8]
    ensures { result.now ≡ kind_letter node }
{
    match node {
        NodeKind::Dir => b"d ",
        NodeKind::File => b"f ",
    }
}
