//! How much each node waits for, and the queue of those that wait for nothing.
ghost use Rattle.std.specs.Prelude.{◌≡◌, ◌<◌, ◌≤◌, ◌+◌, ◌-◌, ◌++◌, ◌∷◌, [], ℕ, All, IfOk, OnOk, length, map, slice_get, slice_index, slice_set, vec_len, vec_capacity};
ghost use Rattle.go_digraph_core.specs.ready_queue.mirrors.Counting.{AreNodes, AreQueued, once, times, total};

use crate::ready_queue::mark::Mark;
use std::alloc::{AllocError, Global};

/// How often each node needs one that is not finished, and the nodes that are ready.
#[derive(Drop)]
pub(crate) struct Counts {
    pub(crate) missing: Vec<usize>,
    pub(crate) queue: Vec<usize>,
}

// Pushes a node into a queue that has room for it.
fn push_within(queue: &mut Vec<usize>, node: usize)
    requires { vec_len queue.old < vec_capacity queue.old }
    ensures items { queue.new.items ≡ queue.old.items ++ node ∷ [] }
    ensures room { vec_capacity queue.old ≤ vec_capacity queue.new }
{
    match queue.push(node) {
        Ok(()) => {}
        Err(_) => unreachable!(),
    }
}

// A node needs one less.
fn count_down(counts: &mut Counts, node: usize, marks: &[Mark])
    requires some { 0 < slice_index counts.old.missing.items node }
    requires many { length counts.old.missing.items ≡ length marks.now }
    requires queued { AreQueued marks.now counts.old.missing.items counts.old.queue.items }
    requires room { length marks.now ≤ vec_capacity counts.old.queue }
    ensures missing { counts.new.missing.items ≡ slice_set counts.old.missing.items node (slice_index counts.old.missing.items node - 1) }
    ensures queued { AreQueued marks.now counts.new.missing.items counts.new.queue.items }
    ensures room { length marks.now ≤ vec_capacity counts.new.queue }
{
    let left = counts.missing[node] - 1;
    counts.missing[node] = left;
    if left == 0 && marks[node].is_waiting() {
        push_within(&mut counts.queue, node);
    }
}

/// Each of these nodes needs one less, once for each time that it stands here.
pub(crate) fn release(counts: &mut Counts, nodes: &[usize], marks: &[Mark])
    requires enough { (n : ℕ) → times n nodes.now ≤ slice_index counts.old.missing.items n }
    requires many { length counts.old.missing.items ≡ length marks.now }
    requires queued { AreQueued marks.now counts.old.missing.items counts.old.queue.items }
    requires room { length marks.now ≤ vec_capacity counts.old.queue }
    ensures many { length counts.new.missing.items ≡ length marks.now }
    ensures missing { (n : ℕ) → slice_index counts.new.missing.items n + times n nodes.now ≡ slice_index counts.old.missing.items n }
    ensures queued { AreQueued marks.now counts.new.missing.items counts.new.queue.items }
    ensures room { length marks.now ≤ vec_capacity counts.new.queue }
{
    for node in nodes {
        count_down(counts, *node, marks);
    }
}

// Each of these nodes needs one more.
fn count_up(missing: &mut Vec<usize>, nodes: &[usize]) -> Result<(), AllocError>
    requires { All (λ (k : ℕ). k < length missing.old.items) nodes.now }
    ensures many { OnOk result (length missing.new.items ≡ length missing.old.items) }
    ensures each { OnOk result ((n : ℕ) → slice_index missing.new.items n ≡ slice_index missing.old.items n + times n nodes.now) }
{
    for node in nodes {
        let Some(more) = missing[*node].checked_add(1) else {
            return Err(AllocError);
        };
        missing[*node] = more;
    }
    Ok(())
}

/// How often each node needs another.
pub(crate) fn counted(
    alloc: Global,
    count: usize,
    needing: &[Vec<usize>],
) -> Result<Vec<usize>, AllocError>
    requires { AreNodes count (map (λ r. r.items) needing.now) }
    ensures many { IfOk result (λ missing. length missing.items ≡ count) }
    ensures each { IfOk result (λ missing. (n : ℕ) → slice_index missing.items n ≡ total n (map (λ r. r.items) needing.now)) }
{
    let mut missing = vec![in alloc; 0usize; count]?;
    for nodes in needing {
        count_up(&mut missing, nodes)?;
    }
    Ok(missing)
}

/// The nodes that are ready, with room for all nodes.
pub(crate) fn queued(
    alloc: Global,
    marks: &[Mark],
    missing: &[usize],
) -> Result<Vec<usize>, AllocError>
    requires { length missing.now ≡ length marks.now }
    ensures queued { IfOk result (λ queue. AreQueued marks.now missing.now queue.items) }
    ensures room { IfOk result (λ queue. length marks.now ≤ vec_capacity queue) }
{
    let mut queue = Vec::with_capacity(alloc, marks.len())?;
    for node in 0..marks.len() {
        if missing[node] == 0 && marks[node].is_waiting() {
            push_within(&mut queue, node);
        }
    }
    Ok(queue)
}

// Where a node stands.
fn place_of(queue: &[usize], node: usize) -> usize
    requires { 0 < times node queue.now }
    ensures within { result < length queue.now }
    ensures here { slice_index queue.now result ≡ node }
{
    for (place, other) in queue.iter().enumerate() {
        if *other == node {
            return place;
        }
    }
    unreachable!()
}

/// Takes a node out of the queue: the last one at once, another by a walk.
pub(crate) fn take_out(queue: &mut Vec<usize>, node: usize)
    requires { times node queue.old.items ≡ 1 }
    ensures each { (n : ℕ) → times n queue.new.items + once n node ≡ times n queue.old.items }
    ensures room { vec_capacity queue.new ≡ vec_capacity queue.old }
{
    let last = queue.len() - 1;
    if queue[last] == node {
        queue.truncate(last);
    } else {
        let place = place_of(queue, node);
        queue.remove(place);
    }
}
