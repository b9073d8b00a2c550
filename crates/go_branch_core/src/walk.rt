//! The walk that checks a function, or a part of one.
ghost use Rattle.std.specs.Prelude.{◌≡◌, [], ◌∷◌, ◌++◌, false, IfOk, OnOk};
ghost use Rattle.go_tree_nodes.specs.Shapes.{shape_value_spec, shape_exprs};
ghost use Rattle.go_tree_nodes.specs.TypeShapes.{shape_idents};
ghost use Rattle.go_tree_nodes.specs.Trees.{Define};
ghost use Rattle.go_local_core.specs.Steps.{Declare, EachFirst};
ghost use Rattle.go_local_core.specs.Outline.{spec_steps, simple_steps};
ghost use Rattle.go_scope_core.specs.Scopes.{with_open};
ghost use Rattle.go_names_core.specs.Body.{func_idents, func_header};
ghost use Rattle.go_names_core.specs.mirrors.States.{state, EntersTo, LeavesTo};
ghost use Rattle.go_branch_core.specs.mirrors.Ways.{Comes, ComesTo, IsAdded, IsBoth};
ghost use Rattle.go_branch_core.specs.mirrors.WayLaws.{comes_none, comes_more, comes_inner};

use go_local_core::Fault;
use go_local_core::walks::Visitor;
use go_names_core::scope_core::Scopes;
use go_names_core::{Checked, Checker, Meant, OpenNames, declare, names_of, names_of_header};
use go_text_core::add;
use go_tree_nodes::text_core::Span;
use go_tree_nodes::{Definition, Expr, Exprs, FuncDecl, Simple, ValueKind, ValueSpec};
use std::alloc::{AllocError, Global};

/// A walk through a function or a part of one: what its pieces are checked with, the open blocks, what each local means by its number, what was
/// noted so far, and whether memory was wanting.
#[derive(Drop)]
pub(crate) struct Walk<'w, 's, C: Checker> {
    pub(crate) alloc: Global,
    pub(crate) checker: &'w C,
    pub(crate) scopes: Scopes<'s>,
    pub(crate) locals: Vec<C::Meaning>,
    pub(crate) notes: Vec<C::Note>,
    pub(crate) faults: Vec<Fault>,
    pub(crate) lacks_memory: bool,
}

// The same meanings once more.
fn again<M: Meant + Drop>(alloc: Global, meanings: &[M]) -> Result<Vec<M>, AllocError>
    ensures { IfOk result (λ same. same.items ≡ meanings.now) }
{
    let mut same = Vec::new(alloc);
    for meaning in meanings {
        add(&mut same, meaning.again()?)?;
    }
    Ok(same)
}

// What was noted of two parts, that of the first before that of the second.
fn joined<N: Drop>(
    first: Result<Checked<N>, AllocError>,
    second: Result<Checked<N>, AllocError>,
) -> Result<Checked<N>, AllocError>
    ensures { IfOk result (λ all. IsBoth first second all.notes.items all.faults.items) }
{
    let mut all = first?;
    let mut more = second?;
    all.notes.append(&mut more.notes)?;
    all.faults.append(&mut more.faults)?;
    Ok(all)
}

impl<'w, 's, C: Checker> Walk<'w, 's, C> {
    /// A walk that begins where these names are open, with nothing noted.
    ///
    /// # Errors
    ///
    /// [`AllocError`] where memory is wanting.
    pub(crate) fn beside(
        alloc: Global,
        checker: &'w C,
        scopes: &Scopes<'s>,
        locals: &[C::Meaning],
    ) -> Result<Self, AllocError>
        ensures checker { IfOk result (λ walk. walk.checker.now ≡ checker.now) }
        ensures scopes { IfOk result (λ walk. walk.scopes ≡ scopes.now) }
        ensures locals { IfOk result (λ walk. walk.locals.items ≡ locals.now) }
        ensures notes { IfOk result (λ walk. walk.notes.items ≡ []) }
        ensures faults { IfOk result (λ walk. walk.faults.items ≡ []) }
    {
        let locals = again(alloc, locals)?;
        match scopes.copy(alloc) {
            Ok(scopes) => Ok(Walk {
                alloc,
                checker,
                scopes,
                locals,
                notes: Vec::new(alloc),
                faults: Vec::new(alloc),
                lacks_memory: false,
            }),
            Err(_) => Err(AllocError),
        }
    }

    /// Adds what was noted of two parts, that of the first before that of the second.
    ///
    /// # Errors
    ///
    /// [`AllocError`] where memory is wanting, or was for one of them.
    pub(crate) fn add_both(
        &mut self,
        first: Result<Checked<C::Note>, AllocError>,
        second: Result<Checked<C::Note>, AllocError>,
    ) -> Result<(), AllocError>
        ensures added { OnOk result (IsAdded first second self.old.notes.items self.old.faults.items self.new.notes.items self.new.faults.items) }
        ensures checker { self.new.checker.now ≡ self.old.checker.now }
        ensures scopes { self.new.scopes ≡ self.old.scopes }
        ensures locals { self.new.locals.items ≡ self.old.locals.items }
        ensures memory { self.new.lacks_memory ≡ self.old.lacks_memory }
    {
        let mut more = joined(first, second)?;
        self.notes.append(&mut more.notes)?;
        self.faults.append(&mut more.faults)?;
        Ok(())
    }

    /// Opens the block of a function, checks its receiver, parameters and results, and declares their names.
    pub(crate) fn header(&mut self, func: &FuncDecl) -> Result<(), AllocError>
        ensures { OnOk result (Comes C.Meaning C.Note C.Meaning.outside (state (C.rules self.old.checker.now) (with_open self.old.scopes (self.old.scopes.open_blocks ++ [] ∷ [])) self.old.locals.items self.old.notes.items self.old.faults.items false) (λ rest. Declare EachFirst func.now.open_brace.start (func_header func.now) (func_idents func.now) rest) (state (C.rules self.new.checker.now) self.new.scopes self.new.locals.items self.new.notes.items self.new.faults.items false)) }
    {
        if self.scopes.enter().is_err() {
            return Err(AllocError);
        }
        let news = names_of_header(self.alloc, &self.scopes, func)?;
        let names = OpenNames::at(&self.scopes, self.locals.as_slice());
        let means = self
            .checker
            .check_header(&names, func, news.firsts.as_slice(), &mut self.notes)?;
        declare(
            &mut self.scopes,
            &mut self.locals,
            &mut self.faults,
            false,
            &news,
            means.as_slice(),
        )
    }

    // Checks a specification, and declares its names.
    fn spec(&mut self, kind: ValueKind, spec: &ValueSpec) -> Result<(), AllocError>
        requires { self.old.lacks_memory ≡ false }
        ensures { OnOk result (Comes C.Meaning C.Note C.Meaning.outside (state (C.rules self.old.checker.now) self.old.scopes self.old.locals.items self.old.notes.items self.old.faults.items self.old.lacks_memory) (λ rest. spec_steps kind (shape_value_spec spec.now) rest) (state (C.rules self.new.checker.now) self.new.scopes self.new.locals.items self.new.notes.items self.new.faults.items self.new.lacks_memory)) }
    {
        let news = names_of(self.alloc, &self.scopes, &spec.names)?;
        let names = OpenNames::at(&self.scopes, self.locals.as_slice());
        let firsts = news.firsts.as_slice();
        let means = self
            .checker
            .check_spec(&names, kind, spec, firsts, &mut self.notes)?;
        declare(
            &mut self.scopes,
            &mut self.locals,
            &mut self.faults,
            false,
            &news,
            means.as_slice(),
        )
    }

    // Checks a short declaration, and declares its names.
    fn short(&mut self, definition: &Definition) -> Result<(), AllocError>
        requires { self.old.lacks_memory ≡ false }
        ensures { OnOk result (Comes C.Meaning C.Note C.Meaning.outside (state (C.rules self.old.checker.now) self.old.scopes self.old.locals.items self.old.notes.items self.old.faults.items self.old.lacks_memory) (λ rest. simple_steps (Define (shape_idents definition.now.names) definition.now.define (shape_exprs definition.now.values)) rest) (state (C.rules self.new.checker.now) self.new.scopes self.new.locals.items self.new.notes.items self.new.faults.items self.new.lacks_memory)) }
    {
        let news = names_of(self.alloc, &self.scopes, &definition.names)?;
        let names = OpenNames::at(&self.scopes, self.locals.as_slice());
        let firsts = news.firsts.as_slice();
        let means = self
            .checker
            .check_short(&names, definition, firsts, &mut self.notes)?;
        declare(
            &mut self.scopes,
            &mut self.locals,
            &mut self.faults,
            true,
            &news,
            means.as_slice(),
        )
    }

    /// What was noted.
    ///
    /// # Errors
    ///
    /// [`AllocError`] where memory was wanting.
    pub(crate) fn end(self) -> Result<Checked<C::Note>, AllocError>
        ensures ample { OnOk result (self.entry.lacks_memory ≡ false) }
        ensures notes { IfOk result (λ checked. checked.notes.items ≡ self.entry.notes.items) }
        ensures faults { IfOk result (λ checked. checked.faults.items ≡ self.entry.faults.items) }
    {
        if self.lacks_memory {
            return Err(AllocError);
        }
        Ok(Checked {
            notes: self.notes,
            faults: self.faults,
        })
    }
}

impl<'w, 's, C: Checker> Visitor for Walk<'w, 's, C> {
    ghost Leads = { λ a steps b. ComesTo C.Meaning.outside (state (C.rules a.checker.now) a.scopes a.locals.items a.notes.items a.faults.items a.lacks_memory) steps (state (C.rules b.checker.now) b.scopes b.locals.items b.notes.items b.faults.items b.lacks_memory) };

    ghost Enters = { λ a b. EntersTo (state (C.rules a.checker.now) a.scopes a.locals.items a.notes.items a.faults.items a.lacks_memory) (state (C.rules b.checker.now) b.scopes b.locals.items b.notes.items b.faults.items b.lacks_memory) };

    ghost Leaves = { λ a b. LeavesTo (state (C.rules a.checker.now) a.scopes a.locals.items a.notes.items a.faults.items a.lacks_memory) (state (C.rules b.checker.now) b.scopes b.locals.items b.notes.items b.faults.items b.lacks_memory) };

    fn visit_spec(&mut self, kind: ValueKind, spec: &ValueSpec) {
        if self.lacks_memory {
            return;
        }
        self.lacks_memory = self.spec(kind, spec).is_err();
    }

    fn visit_simple(&mut self, simple: &Simple) {
        if self.lacks_memory {
            return;
        }
        if let Simple::Define(definition) = simple {
            self.lacks_memory = self.short(definition).is_err();
            return;
        }
        let names = OpenNames::at(&self.scopes, self.locals.as_slice());
        let outcome = self.checker.check_simple(&names, simple, &mut self.notes);
        self.lacks_memory = outcome.is_err();
    }

    fn visit_condition(&mut self, condition: &Expr) {
        if self.lacks_memory {
            return;
        }
        let names = OpenNames::at(&self.scopes, self.locals.as_slice());
        let outcome = self
            .checker
            .check_condition(&names, condition, &mut self.notes);
        self.lacks_memory = outcome.is_err();
    }

    fn visit_given(&mut self, place: Span, values: &Option<Box<Exprs>>) {
        if self.lacks_memory {
            return;
        }
        let names = OpenNames::at(&self.scopes, self.locals.as_slice());
        let outcome = self
            .checker
            .check_given(&names, place, values, &mut self.notes);
        self.lacks_memory = outcome.is_err();
    }

    fn enter(&mut self) {
        if self.lacks_memory {
            return;
        }
        self.lacks_memory = self.scopes.enter().is_err();
    }

    fn leave(&mut self) {
        if self.lacks_memory || self.scopes.depth() == 0 {
            return;
        }
        self.scopes.leave();
    }

    ghost leads_none = { λ a. comes_none _ _ };

    ghost leads_more = { λ a b c f g. comes_more _ _ _ _ f g };

    ghost leads_inner = { λ a b c d f o e. comes_inner _ _ _ _ _ f o e };
}
