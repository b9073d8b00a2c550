//! Where a fault stands among the causes.
ghost use Rattle.std.specs.Prelude.{◌≡◌};

use std::marker::Model;

/// Where a fault stands among the causes.
#[derive(Clone, Copy, PartialEq, Eq)]
pub enum Cause {
    /// It follows from no other fault.
    Root,
    /// It follows from another fault, which follows from none itself.
    Follows {
        /// The number of that fault, in the order of the faults.
        root: usize,
    },
}

/// Of each fault of a snapshot, in the order of `Snapshot::faults`, where it stands among the causes. Contracts see the list.
pub struct Causes {
    list: Vec<Cause>,
}

impl Drop for Causes {
    fn drop(self) {
        let Causes { list: _ } = self;
    }
}

impl Model for Causes {
    ghost use Rattle.std.specs.Prelude.{List};
    ghost use Rattle.go_cause_core.specs.declared.cause.Cause.{Cause as TheCause};

    ghost Value = { List TheCause };

    ghost view = { λ c. c.list.items };
}

impl Causes {
    /// Of each fault in order where it stands.
    pub(crate) fn of(list: Vec<Cause>) -> Causes
        ensures { result ≡ list.items }
    {
        Causes { list }
    }

    /// Of each fault, in the order of `Snapshot::faults`, where it stands.
    pub fn as_slice(&self) -> &[Cause]
        ensures { result.now ≡ self.now }
    {
        self.list.as_slice()
    }
}
