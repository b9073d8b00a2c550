//! The walk that checks a function.

ghost use Rattle.std.specs.Prelude.{◌≡◌, [], ◌∷◌, ◌++◌, false, OnOk};
ghost use Rattle.go_tree_nodes.specs.Shapes.{shape_value_spec, shape_exprs};
ghost use Rattle.go_tree_nodes.specs.TypeShapes.{shape_idents};
ghost use Rattle.go_tree_nodes.specs.Trees.{Define};
ghost use Rattle.go_local_core.specs.Steps.{Declare, EachFirst};
ghost use Rattle.go_local_core.specs.Outline.{spec_steps, simple_steps};
ghost use Rattle.go_names_core.specs.Body.{func_idents, func_header};
ghost use Rattle.go_scope_core.specs.Scopes.{with_open};
ghost use Rattle.go_names_core.specs.mirrors.States.{state, IsAhead, LeadsTo, EntersTo, LeavesTo};
ghost use Rattle.go_names_core.specs.mirrors.StateLaws.{leads_none, leads_more, leads_inner};

use crate::checker::Checker;
use crate::declaring::{declare, names_of, names_of_header};
use crate::look::OpenNames;
use go_local_core::Fault;
use go_local_core::walks::Visitor;
use go_scope_core::Scopes;
use go_scope_core::text_core::Span;
use go_tree_nodes::{Definition, Expr, Exprs, FuncDecl, Simple, ValueKind, ValueSpec};
use std::alloc::{AllocError, Global};

/// A walk through a function: what its pieces are checked with, the open blocks, what each local means by its number, what was
/// noted so far, and whether memory was wanting.
#[derive(Drop)]
pub(crate) struct Walker<'a, C: Checker> {
    pub(crate) alloc: Global,
    pub(crate) checker: &'a C,
    pub(crate) scopes: Scopes<'a>,
    pub(crate) locals: Vec<C::Meaning>,
    pub(crate) notes: Vec<C::Note>,
    pub(crate) faults: Vec<Fault>,
    pub(crate) lacks_memory: bool,
}

impl<'a, C: Checker> Walker<'a, C> {
    // Opens the block of a function, checks its receiver, parameters and results, and declares their names.
    pub(crate) fn header(&mut self, func: &FuncDecl) -> Result<(), AllocError>
        ensures { OnOk result (IsAhead C.Meaning C.Note C.Meaning.outside (state (C.rules self.old.checker.now) (with_open self.old.scopes (self.old.scopes.open_blocks ++ [] ∷ [])) self.old.locals.items self.old.notes.items self.old.faults.items false) (λ rest. Declare EachFirst func.now.open_brace.start (func_header func.now) (func_idents func.now) rest) (state (C.rules self.new.checker.now) self.new.scopes self.new.locals.items self.new.notes.items self.new.faults.items false)) }
    {
        if self.scopes.enter().is_err() {
            return Err(AllocError);
        }
        let news = names_of_header(self.alloc, &self.scopes, func)?;
        let names = OpenNames::at(&self.scopes, self.locals.as_slice());
        let means = self
            .checker
            .check_header(&names, func, news.firsts.as_slice(), &mut self.notes)?;
        declare(
            &mut self.scopes,
            &mut self.locals,
            &mut self.faults,
            false,
            &news,
            means.as_slice(),
        )
    }

    // Checks a specification, and declares its names.
    fn spec(&mut self, kind: ValueKind, spec: &ValueSpec) -> Result<(), AllocError>
        requires { self.old.lacks_memory ≡ false }
        ensures { OnOk result (IsAhead C.Meaning C.Note C.Meaning.outside (state (C.rules self.old.checker.now) self.old.scopes self.old.locals.items self.old.notes.items self.old.faults.items self.old.lacks_memory) (λ rest. spec_steps kind (shape_value_spec spec.now) rest) (state (C.rules self.new.checker.now) self.new.scopes self.new.locals.items self.new.notes.items self.new.faults.items self.new.lacks_memory)) }
    {
        let news = names_of(self.alloc, &self.scopes, &spec.names)?;
        let names = OpenNames::at(&self.scopes, self.locals.as_slice());
        let firsts = news.firsts.as_slice();
        let means = self
            .checker
            .check_spec(&names, kind, spec, firsts, &mut self.notes)?;
        declare(
            &mut self.scopes,
            &mut self.locals,
            &mut self.faults,
            false,
            &news,
            means.as_slice(),
        )
    }

    // Checks a short declaration, and declares its names.
    fn short(&mut self, definition: &Definition) -> Result<(), AllocError>
        requires { self.old.lacks_memory ≡ false }
        ensures { OnOk result (IsAhead C.Meaning C.Note C.Meaning.outside (state (C.rules self.old.checker.now) self.old.scopes self.old.locals.items self.old.notes.items self.old.faults.items self.old.lacks_memory) (λ rest. simple_steps (Define (shape_idents definition.now.names) definition.now.define (shape_exprs definition.now.values)) rest) (state (C.rules self.new.checker.now) self.new.scopes self.new.locals.items self.new.notes.items self.new.faults.items self.new.lacks_memory)) }
    {
        let news = names_of(self.alloc, &self.scopes, &definition.names)?;
        let names = OpenNames::at(&self.scopes, self.locals.as_slice());
        let firsts = news.firsts.as_slice();
        let means = self
            .checker
            .check_short(&names, definition, firsts, &mut self.notes)?;
        declare(
            &mut self.scopes,
            &mut self.locals,
            &mut self.faults,
            true,
            &news,
            means.as_slice(),
        )
    }
}

impl<'a, C: Checker> Visitor for Walker<'a, C> {
    ghost Leads = { λ a steps b. LeadsTo C.Meaning.outside (state (C.rules a.checker.now) a.scopes a.locals.items a.notes.items a.faults.items a.lacks_memory) steps (state (C.rules b.checker.now) b.scopes b.locals.items b.notes.items b.faults.items b.lacks_memory) };

    ghost Enters = { λ a b. EntersTo (state (C.rules a.checker.now) a.scopes a.locals.items a.notes.items a.faults.items a.lacks_memory) (state (C.rules b.checker.now) b.scopes b.locals.items b.notes.items b.faults.items b.lacks_memory) };

    ghost Leaves = { λ a b. LeavesTo (state (C.rules a.checker.now) a.scopes a.locals.items a.notes.items a.faults.items a.lacks_memory) (state (C.rules b.checker.now) b.scopes b.locals.items b.notes.items b.faults.items b.lacks_memory) };

    fn visit_spec(&mut self, kind: ValueKind, spec: &ValueSpec) {
        if self.lacks_memory {
            return;
        }
        self.lacks_memory = self.spec(kind, spec).is_err();
    }

    fn visit_simple(&mut self, simple: &Simple) {
        if self.lacks_memory {
            return;
        }
        if let Simple::Define(definition) = simple {
            self.lacks_memory = self.short(definition).is_err();
            return;
        }
        let names = OpenNames::at(&self.scopes, self.locals.as_slice());
        let outcome = self.checker.check_simple(&names, simple, &mut self.notes);
        self.lacks_memory = outcome.is_err();
    }

    fn visit_condition(&mut self, condition: &Expr) {
        if self.lacks_memory {
            return;
        }
        let names = OpenNames::at(&self.scopes, self.locals.as_slice());
        let outcome = self
            .checker
            .check_condition(&names, condition, &mut self.notes);
        self.lacks_memory = outcome.is_err();
    }

    fn visit_given(&mut self, place: Span, values: &Option<Box<Exprs>>) {
        if self.lacks_memory {
            return;
        }
        let names = OpenNames::at(&self.scopes, self.locals.as_slice());
        let outcome = self
            .checker
            .check_given(&names, place, values, &mut self.notes);
        self.lacks_memory = outcome.is_err();
    }

    fn enter(&mut self) {
        if self.lacks_memory {
            return;
        }
        self.lacks_memory = self.scopes.enter().is_err();
    }

    fn leave(&mut self) {
        if self.lacks_memory || self.scopes.depth() == 0 {
            return;
        }
        self.scopes.leave();
    }

    ghost leads_none = { λ a. leads_none _ _ };

    ghost leads_more = { λ a b c f g. leads_more _ _ _ _ f g };

    ghost leads_inner = { λ a b c d f o e. leads_inner _ _ _ _ _ f o e };
}
