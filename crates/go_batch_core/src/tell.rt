//! What finished packages tell, added before inputs are made of it.
ghost use Rattle.std.specs.Prelude.{◌≡◌, ◌<◌, ◌≤◌, ◌++◌, ◌∷◌, [], IfOk, OnErr, OnOk, length, vec_capacity};
ghost use Rattle.go_batch_core.specs.mirrors.Tells.{AreWithin, tell_in, with_tells};

use go_package_core::package_part::Part;
use go_snap_core::make::Told;
use std::alloc::{AllocError, Global};

/// A package that tells something, by its number, with its part.
pub struct Tell {
    pub place: usize,
    pub part: Part,
}

impl Drop for Tell {
    fn drop(self) {
        let Tell { place: _, part: _ } = self;
    }
}

// Adds what a package tells.
fn add_tell(told: &mut Told, tell: &Tell) -> Result<(), AllocError>
    requires { tell.now.place < length told.old }
    ensures added { OnOk result (told.new ≡ tell_in told.old tell.now) }
    ensures kept { OnErr result (told.new ≡ told.old) }
{
    told.add(tell.place, tell.part.summary().share()?)
}

/// Adds what is not added yet to what is told. Where memory is wanting in the middle, some of it is added: with all of it what is told is the same.
pub(crate) fn tell_all(told: &mut Told, untold: &[Tell]) -> Result<(), AllocError>
    requires { AreWithin (length told.old) untold.now }
    ensures added { OnOk result (told.new ≡ with_tells told.old untold.now) }
    ensures kept { with_tells told.new untold.now ≡ with_tells told.old untold.now }
{
    for tell in untold {
        add_tell(told, tell)?;
    }
    Ok(())
}

/// What is told with what is not added yet, beside it. What is told is shared.
pub(crate) fn told_with(alloc: Global, told: &Told, untold: &[Tell]) -> Result<Told, AllocError>
    requires { AreWithin (length told.now) untold.now }
    ensures { IfOk result (λ t. t ≡ with_tells told.now untold.now) }
{
    let mut whole = told.copy(alloc)?;
    tell_all(&mut whole, untold)?;
    Ok(whole)
}

/// Pushes what is told into a list that has room for it.
pub(crate) fn push_tell(untold: &mut Vec<Tell>, tell: Tell)
    requires { length untold.old.items < vec_capacity untold.old }
    ensures items { untold.new.items ≡ untold.old.items ++ tell ∷ [] }
    ensures room { vec_capacity untold.old ≤ vec_capacity untold.new }
{
    match untold.push(tell) {
        Ok(()) => {}
        // There is room for it.
        Err(_) => unreachable!(),
    }
}
