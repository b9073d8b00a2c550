//! Following one chain.
ghost use Rattle.std.specs.Prelude.{◌≡◌, ◌<◌, ℕ, IfOk, Some, All, Contains, [], length, false, true, slice_get, slice_index_or, ◌⊎◌};
ghost use Rattle.go_digraph_core.specs.chain.Chains.{AllInside};
ghost use Rattle.go_digraph_core.specs.chain.mirrors.Known.{Known, Keeps};

use std::alloc::AllocError;

// Follows the chain from a number up to one that bears a mark, and answers this. It marks what it passes: an end gets itself as its
// end, what leads on is on the way.
fn walk(
    next: &[Option<usize>],
    marks: &mut [bool],
    ends: &mut [Option<usize>],
    way: &mut Vec<usize>,
    start: usize,
) -> Result<usize, AllocError>
    requires inside { AllInside next.now }
    requires start { start < length next.now }
    requires known { Known next.now marks.old ends.old way.old.items start }
    ensures known { IfOk result (λ stop. Known next.now marks.new ends.new way.new.items stop) }
    ensures stops { IfOk result (λ stop. slice_index_or marks.new stop false ≡ true) }
    ensures keeps { Keeps marks.old marks.new }
    ensures marked { IfOk result (λ stop. slice_index_or marks.new start false ≡ true) }
{
    let mut stop = start;
    'steps: while !marks[stop] {
        marks[stop] = true;
        match next[stop] {
            Some(follower) => {
                way.push(stop)?;
                stop = follower;
            }
            None => ends[stop] = Some(stop),
        }
    }
    Ok(stop)
}

// Gives all numbers on the way an end.
fn give_end(ends: &mut [Option<usize>], way: &[usize], end: usize)
    requires { All (λ i. i < length ends.old) way.now }
    ensures given { All (λ i. slice_get ends.new i ≡ Some (Some end)) way.now }
    ensures kept { (i : ℕ) → (slice_get ends.new i ≡ slice_get ends.old i) ⊎ (Contains way.now i × (slice_get ends.new i ≡ Some (Some end))) }
{
    for number in way {
        ends[*number] = Some(end);
    }
}

/// Finds the end of the chain from a number, and of all that it passes. The way is empty before and after.
pub fn follow_chain(
    next: &[Option<usize>],
    marks: &mut [bool],
    ends: &mut [Option<usize>],
    way: &mut Vec<usize>,
    start: usize,
) -> Result<(), AllocError>
    requires inside { AllInside next.now }
    requires start { start < length next.now }
    requires known { Known next.now marks.old ends.old way.old.items 0 }
    requires way { way.old.items ≡ [] }
    ensures known { IfOk result (λ _. Known next.now marks.new ends.new way.new.items 0) }
    ensures way { IfOk result (λ _. way.new.items ≡ []) }
    ensures keeps { Keeps marks.old marks.new }
    ensures marked { IfOk result (λ _. slice_index_or marks.new start false ≡ true) }
{
    let stop = walk(next, marks, ends, way, start)?;
    if let Some(end) = ends[stop] {
        give_end(ends, way, end);
    }
    way.clear();
    Ok(())
}
