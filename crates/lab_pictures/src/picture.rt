//! Pictures of all worlds at calls.
ghost use Rattle.std.specs.Prelude.{◌≤◌, All, IfOk, IfSome, length};
ghost use Rattle.lab_pictures.specs.Pictures.{IsReachable, IsNode, IsEndOfNode, HasEndAtRest, IsStep, HaveAllSteps, BeginsAt, HaveFewestNodeCalls};
ghost use Rattle.lab_search.specs.Stored.{IsStore};
ghost use Rattle.lab_explore.specs.Visits.{start_of, IsVisited, IsWhole};
ghost use Rattle.lab_worlds.specs.Calls.{Alongside};
ghost use Rattle.lab_pictures.specs.Private.Drawn.{IsNodeOfRow, AreNodesOfRows, IsArrowOf, IsPictureOf};

use crate::copies::copy_of;
use lab_explore::{Visited, depths_of, visit};
use lab_sched::{Fresh, World};
use lab_states::{Edge, depth_of};
use lab_worlds::{End, ExploreFault, Limits, Observer, Walk, discard};
use std::alloc::Global;

/// The most worlds of which a picture is drawn.
pub const MOST_DRAWN: u32 = 2000;

/// A world at calls, how many calls lead there, and its end, if no process goes on from there.
#[derive(Drop)]
pub struct Node {
    pub world: World,
    pub calls: u32,
    pub end: Option<End>,
}

/// A call of a process, which leads from the node with one number to that with another by so many steps of
/// the process: the call, and all its local steps then.
#[derive(Clone, Copy, Debug, PartialEq, Eq, Drop)]
pub struct Arrow {
    pub from: u32,
    pub to: u32,
    pub process: u32,
    pub steps: u32,
}

/// All worlds at calls that a laboratory can come to, those with fewer calls first, and the calls that
/// lead from one to another, in the order of the nodes that they lead from; and how many steps each
/// process takes from the start to the first.
#[derive(Drop)]
pub struct Picture {
    pub firsts: Vec<u32>,
    pub nodes: Vec<Node>,
    pub arrows: Vec<Arrow>,
}

/// Nobody, who is told nothing.
#[derive(Drop)]
struct Nobody;

impl Observer for Nobody {
    fn see(&mut self, _visited: usize, _waiting: usize) {}
}

/// Draws every world at calls that a laboratory can come to, if there are no more than [`MOST_DRAWN`],
/// and they can be visited within the limits. Each node is a world to which effective steps lead, by no
/// fewer calls than are told; each arrow is a call of a process that goes on; and each such call from a
/// node has its arrow, so that there is no other world, but for the numbers of places in the kernel and
/// for who waits. A world from which no process goes on has its end. The observer is told of the nodes as
/// they are made.
pub fn draw<O: Observer>(
    alloc: Global,
    fresh: Fresh,
    limits: Limits,
    observer: &mut O,
) -> Result<Option<Picture>, ExploreFault>
    ensures nodes { IfOk result (λ d. IfSome d (λ x. All (IsNode fresh) x.nodes.items)) }
    ensures arrows { IfOk result (λ d. IfSome d (λ x.
        All (IsStep x.nodes.items) x.arrows.items)) }
    ensures begins { IfOk result (λ d. IfSome d (λ x. BeginsAt fresh x.nodes.items)) }
    ensures all { IfOk result (λ d. IfSome d (λ x.
        HaveAllSteps x.nodes.items x.arrows.items)) }
    ensures fewest { IfOk result (λ d. IfSome d (λ x.
        HaveFewestNodeCalls x.nodes.items x.arrows.items)) }
    ensures ends { IfOk result (λ d. IfSome d (λ x. All (IsEndOfNode fresh) x.nodes.items)) }
    ensures at_rest { IfOk result (λ d. IfSome d (λ x. All HasEndAtRest x.nodes.items)) }
    ensures few { IfOk result (λ d. IfSome d (λ x. length x.nodes.items ≤ 2000)) }
{
    let limits = Limits {
        worlds: limits.worlds.min(MOST_DRAWN),
        ..limits
    };
    let visited = visit(alloc, fresh, limits, &mut Nobody, false)?;
    let picture = picture_of(&visited, alloc, observer);
    discard(visited);
    Ok(picture?)
}

/// A world, and how many calls lead there.
#[derive(Drop)]
struct Reached {
    pub world: World,
    pub calls: u32,
}

/// The world to which a process comes from that of a node by its call and all its local steps then, as
/// the search knows these.
fn reach_from(
    visited: &Visited,
    alloc: Global,
    nodes: &[Node],
    at: usize,
    pid: u32,
) -> Result<Reached, ExploreFault>
    requires nodes { All (IsNode (start_of visited.now)) nodes.now }
    ensures reached { IfOk result (λ r. IsReachable (start_of visited.now) r.world r.calls) }
{
    let Some(before) = nodes.get(at) else {
        return Err(ExploreFault::Unvouched);
    };
    let Some(known) = visited.store.known_steps(at, pid) else {
        return Err(ExploreFault::Unvouched);
    };
    let mut walk = Walk::at(alloc, copy_of(alloc, &before.world)?);
    walk.go(pid as usize)?;
    walk.go_on(pid as usize, known.taken)?;
    let Some(calls) = before.calls.checked_add(walk.calls) else {
        return Err(ExploreFault::Unvouched);
    };
    Ok(Reached {
        world: walk.world,
        calls,
    })
}

/// A world to which steps lead, which is meant to be that of a row: by a call from that of the row from
/// which it was reached first.
#[tactic(auto, using(crate::proofs::DrawnRows::walk_reaches))]
fn reach(
    visited: &Visited,
    alloc: Global,
    nodes: &[Node],
    at: usize,
) -> Result<Reached, ExploreFault>
    requires visited { IsVisited visited.now }
    requires nodes { All (IsNode (start_of visited.now)) nodes.now }
    ensures reached { IfOk result (λ r. IsReachable (start_of visited.now) r.world r.calls) }
{
    if at == 0 {
        let walk = visited.walk_to(alloc, 0)?;
        return Ok(Reached {
            world: walk.world,
            calls: walk.calls,
        });
    }
    let Some(parent) = visited.store.parents.get(at) else {
        return Err(ExploreFault::Unvouched);
    };
    let (from, pid) = (parent.row as usize, u32::from(parent.pid));
    reach_from(visited, alloc, nodes, from, pid)
}

/// The node of a row of this depth, behind those of the rows before it.
fn node_at(
    visited: &Visited,
    alloc: Global,
    nodes: &[Node],
    at: usize,
    depth: u32,
) -> Result<Node, ExploreFault>
    requires visited { IsVisited visited.now }
    requires store { IsStore visited.now.store }
    requires nodes { All (IsNode (start_of visited.now)) nodes.now }
    ensures node { IfOk result (λ n.
        IsNodeOfRow (start_of visited.now) visited.now.store depth at n) }
{
    let reached = reach(visited, alloc, nodes, at)?;
    if reached.calls != depth || !visited.store.is_row(alloc, at, &reached.world)? {
        return Err(ExploreFault::Unvouched);
    }
    let end = if visited.may_rest(at) {
        Some(visited.row_end(alloc, at, depth)?)
    } else {
        None
    };
    Ok(Node {
        world: reached.world,
        calls: reached.calls,
        end,
    })
}

fn nodes<O: Observer>(
    visited: &Visited,
    alloc: Global,
    depths: &[u32],
    observer: &mut O,
) -> Result<Vec<Node>, ExploreFault>
    requires visited { IsVisited visited.now }
    requires store { IsStore visited.now.store }
    ensures nodes { IfOk result (λ nodes.
        AreNodesOfRows (start_of visited.now) visited.now.store depths.now nodes.items) }
{
    let mut nodes = Vec::new(alloc);
    for at in 0..visited.store.rows.len() {
        observer.see(at, visited.store.rows.len() - at);
        let depth = depth_of(depths, at);
        let node = node_at(visited, alloc, nodes.as_slice(), at, depth)?;
        nodes.push(node)?;
    }
    Ok(nodes)
}

/// The arrow of an edge.
fn arrow_of(visited: &Visited, edge: Edge) -> Result<Arrow, ExploreFault>
    requires store { IsStore visited.now.store }
    ensures arrow { IfOk result (IsArrowOf visited.now.store edge) }
{
    let (from, pid) = (edge.from as usize, edge.pid as u32);
    let Some(known) = visited.store.known_steps(from, pid) else {
        return Err(ExploreFault::Unvouched);
    };
    let Some(steps) = known.taken.checked_add(1) else {
        return Err(ExploreFault::Unvouched);
    };
    Ok(Arrow {
        from: edge.from,
        to: edge.to,
        process: edge.pid as u32,
        steps,
    })
}

fn arrows(visited: &Visited, alloc: Global) -> Result<Vec<Arrow>, ExploreFault>
    requires store { IsStore visited.now.store }
    ensures arrows { IfOk result (λ arrows.
        Alongside (IsArrowOf visited.now.store) visited.now.store.edges arrows.items) }
{
    let mut arrows = Vec::with_capacity(alloc, visited.store.edges.len())?;
    let mut row = 0;
    for at in 0..visited.store.edges.len() {
        let Some(edge) = visited.store.edges.get_after(at, row) else {
            return Err(ExploreFault::Unvouched);
        };
        let arrow = arrow_of(visited, edge)?;
        arrows.push(arrow)?;
        row = edge.from as usize;
    }
    Ok(arrows)
}

/// The picture of all rows, if they are all worlds, and no more than are drawn.
fn picture_of<O: Observer>(
    visited: &Visited,
    alloc: Global,
    observer: &mut O,
) -> Result<Option<Picture>, ExploreFault>
    requires whole { IsWhole visited.now }
    ensures picture { IfOk result (λ d. IfSome d (IsPictureOf (start_of visited.now))) }
{
    if !visited.complete || visited.store.rows.len() > MOST_DRAWN as usize {
        return Ok(None);
    }
    let depths = depths_of(&visited.store, alloc)?;
    let firsts = Vec::from_slice(alloc, visited.firsts.as_slice())?;
    let nodes = nodes(visited, alloc, depths.as_slice(), observer)?;
    let arrows = arrows(visited, alloc)?;
    Ok(Some(Picture {
        firsts,
        nodes,
        arrows,
    }))
}
