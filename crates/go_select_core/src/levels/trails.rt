//! Paths that share what they have in common.
ghost use Rattle.std.specs.Prelude.{◌≡◌, ◌<◌, ◌++◌, ◌∷◌, [], length, get_or, IfOk, OnOk};

use crate::levels::path::EmbedPath;
use smallvec::SmallVec;
use std::alloc::{AllocError, Global};
use std::marker::Model;

// A path that is one field longer than another.
#[derive(Clone, Copy)]
struct Link {
    // The number of the other path.
    before: usize,
    step: usize,
}

/// Paths by numbers, each but the first one field longer than an earlier one. Contracts see the list of the paths, of which the first is
/// empty.
pub struct Trails {
    links: Vec<Link>,
}

impl Drop for Trails {
    fn drop(self) {
        let Trails { links: _ } = self;
    }
}

impl Model for Trails {
    ghost use Rattle.std.specs.Prelude.{List, ℕ};
    ghost use Rattle.go_select_core.specs.levels.mirrors.Trails.{paths_of, Climbs};

    ghost Value = { List (List ℕ) };

    ghost view = { λ t. paths_of t.links.items };

    ghost invariant = { λ t. Climbs t.links.items };
}

impl Trails {
    /// The empty path alone.
    pub(crate) fn new(alloc: Global) -> Trails
        ensures { result ≡ [] ∷ [] }
    {
        Trails {
            links: Vec::new(alloc),
        }
    }

    /// Adds a path that is one field longer than an earlier one.
    pub(crate) fn add(&mut self, before: usize, step: usize) -> Result<(), AllocError>
        requires { before < length self.old }
        ensures { OnOk result (self.new ≡ self.old ++ (get_or self.old before [] ++ step ∷ []) ∷ []) }
    {
        self.links.push(Link { before, step })?;
        Ok(())
    }

    /// The path of a number.
    pub fn path(&self, alloc: Global, number: usize) -> Result<EmbedPath, AllocError>
        requires { number < length self.now }
        ensures { IfOk result (λ path. path ≡ get_or self.now number []) }
    {
        // Few fields lie on most paths: up to four are gathered without memory, and the list takes what it needs.
        let mut steps: SmallVec<usize, 4> = SmallVec::new(alloc);
        let mut at = number;
        'links: while at > 0 {
            let link = self.links[at - 1];
            steps.push(link.step)?;
            at = link.before;
        }
        let mut path = steps.as_slice().to_vec(alloc)?;
        path.reverse();
        Ok(EmbedPath { steps: path })
    }
}
