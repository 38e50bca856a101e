//! What a crash leaves of a folder in memory.
ghost use Rattle.std.specs.Prelude.{◌≡◌, ◌+◌, IfOk, map, take};
ghost use Rattle.folder_model.specs.Crash.{node_left};

use crate::mem::MemFolder;
use crate::mem::node::FileBytes;
use crate::mem::plan::CallPlan;
use crate::mem::step::Step;
use std::alloc::{AllocError, Global};

/// Which image a crash leaves.
#[derive(Drop)]
pub struct Pick {
    /// The number of the name table: 0 is the kept one, and a number past the last means the last.
    pub table: usize,
    /// The bytes that each file that is not clean has after its kept ones.
    pub tail: Vec<u8>,
}

// What is left of each file.
fn nodes_left(
    alloc: Global,
    nodes: Vec<FileBytes>,
    tail: &[u8],
) -> Result<Vec<FileBytes>, AllocError>
    ensures { IfOk result (λ left. left.items ≡ map (λ node. node_left tail.now node) nodes.items) }
{
    let mut left = Vec::new(alloc);
    for node in nodes {
        left.push(node.crashed(tail)?)?;
    }
    Ok(left)
}

// The steps up to the table of that number.
fn steps_to(mut steps: Vec<Step>, kept: usize, table: usize) -> Vec<Step>
    ensures { result.items ≡ take (kept + table) steps.items }
{
    steps.truncate(kept.saturating_add(table));
    steps
}

impl MemFolder {
    ghost use Rattle.folder_spec.specs.Image.{IsImage, seen_now};
    ghost use Rattle.folder_model.specs.Crash.{picked, told_by};
    ghost use Rattle.folder_model.specs.Memory.{state_of, told_of, faults_of, plan_of};
    ghost use Rattle.folder_model.specs.Plan.{new_plan};

    /// The folder after a crash: the picked image, with an empty log, no faults and no call to fail.
    pub fn crash(self, pick: &Pick) -> Result<MemFolder, AllocError>
        ensures image { IfOk result (λ m. IsImage (state_of self) (seen_now (state_of m))) }
        ensures picked { IfOk result (λ m. told_of m ≡ told_by (picked (state_of self) pick.now.table pick.now.tail.items)) }
        ensures faults { IfOk result (λ m. faults_of m ≡ 0) }
        ensures plan { IfOk result (λ m. plan_of m ≡ new_plan) }
    {
        let alloc = self.alloc;
        let nodes = nodes_left(alloc, self.nodes, pick.tail.as_slice())?;
        let steps = steps_to(self.steps, self.kept, pick.table);
        let kept = steps.len();
        Ok(MemFolder {
            alloc,
            nodes,
            base: self.base,
            steps,
            kept,
            log: Vec::new(alloc),
            plan: CallPlan::new(alloc),
            faults: 0,
        })
    }
}
