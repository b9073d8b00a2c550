//! Laws of aliases.
ghost use Rattle.go_typexpr_core.specs.aliases.Laws.{LoopsAgree, OneTarget, TargetsAreEnds, TypesHaveTargets};
ghost use Rattle.go_typexpr_core.specs.aliases.Sample.{WorkedAliases};

/// A law, with nothing to run: an alias has the type that its chain of aliases leads to, however long the chain is, and no type where the
/// chain has no end.
pub fn targets_are_ends()
    ensures { TargetsAreEnds }
{}

/// A law, with nothing to run: a chain of aliases leads to one type at most.
pub fn one_target()
    ensures { OneTarget }
{}

/// A law, with nothing to run: a type reaches itself by what is written, through types and aliases, exactly where it does so by the targets of
/// what is written, through types alone.
pub fn loops_agree()
    ensures { LoopsAgree }
{}

/// A law, with nothing to run: the types that a package declares are what is written of them with the targets of all names in it.
pub fn types_have_targets()
    ensures { TypesHaveTargets }
{}

/// Samples worked by hand, with nothing to run: the targets of `type A = B; type B = int`, of `type A = B; type B = A`, of `type A = T`
/// and of `type A = p.T`; `type T struct { A }; type A = T` reach themselves, and `type T *A; type A = T` do not.
pub fn worked_aliases()
    ensures { WorkedAliases }
{}
