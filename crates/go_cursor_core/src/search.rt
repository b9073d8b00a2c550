//! The search through a function for the identifier that begins at an offset, with the locals that are open there.
ghost use Rattle.std.specs.Prelude.{◌≡◌, [], ◌∷◌, None};
ghost use Rattle.go_tree_nodes.specs.TypeShapes.{shape_idents, shape_names, shape_results, params_of};
ghost use Rattle.go_expr_core.specs.local_core.Outline.{idents, some_idents, param_idents, result_idents, receiver_idents};
ghost use Rattle.go_cursor_core.specs.Blocks.{opened};
ghost use Rattle.go_cursor_core.specs.mirrors.Searching.{Declares, Enters, LeavesTo};

use crate::names::OpenNames;
use crate::spot::UsedName;
use go_tree_nodes::{Ident, Idents, Param, Receiver, Results};
use std::alloc::Global;

/// A search through a function.
///
/// No step of it fails: where memory is wanting it notes that, and passes over what is left.
#[derive(Drop)]
pub(crate) struct Search<'t> {
    /// Where the identifier begins.
    pub(crate) start: usize,
    /// The locals that are open: at the identifier, once it is found.
    pub(crate) names: OpenNames<'t>,
    pub(crate) found: Option<UsedName<'t>>,
    pub(crate) lacks_memory: bool,
}

impl<'t> Search<'t> {
    /// A search that has seen nothing.
    pub(crate) fn begin(alloc: Global, start: usize) -> Self
        ensures start { result.start ≡ start }
        ensures names { result.names ≡ opened [] [] }
        ensures found { result.found ≡ None }
    {
        Search {
            start,
            names: OpenNames::new(alloc),
            found: None,
            lacks_memory: false,
        }
    }

    // Declares an identifier.
    fn declare(&mut self, ident: &'t Ident)
        ensures { Declares self.old (ident.now ∷ []) self.new }
    {
        if !self.lacks_memory {
            self.lacks_memory = self.names.declare(ident).is_err();
        }
    }

    /// Opens a block.
    pub(crate) fn enter(&mut self) -> usize
        ensures { Enters self.old result self.new }
    {
        self.names.enter()
    }

    /// Closes the innermost block, unless the identifier is found.
    pub(crate) fn leave(&mut self, outer: usize)
        ensures { LeavesTo self.old outer self.new }
    {
        if self.found.is_none() {
            self.names.leave(outer);
        }
    }
}

/// Declares identifiers with commas between them.
pub(crate) fn declare_idents<'t>(names: &'t Idents, search: &mut Search<'t>)
    ensures { Declares search.old (idents (shape_idents names.now)) search.new }
{
    search.declare(&names.first);
    for next in &names.more {
        search.declare(&next.ident);
    }
}

fn declare_names<'t>(names: &'t Option<Idents>, search: &mut Search<'t>)
    ensures { Declares search.old (some_idents (shape_names names.now)) search.new }
{
    if let Some(names) = names {
        declare_idents(names, search);
    }
}

/// Declares the names of parameters.
pub(crate) fn declare_params<'t>(params: &'t Vec<Param>, search: &mut Search<'t>)
    ensures { Declares search.old (param_idents (params_of params.now.items)) search.new }
{
    for param in params {
        declare_names(&param.names, search);
    }
}

/// Declares the names of results.
pub(crate) fn declare_results<'t>(results: &'t Results, search: &mut Search<'t>)
    ensures { Declares search.old (result_idents (shape_results results.now)) search.new }
{
    match results {
        Results::Nothing => {}
        Results::Single(_) => {}
        Results::Listed(params) => declare_params(&params.entries, search),
    }
}

/// Declares the name of a receiver.
pub(crate) fn declare_receiver<'t>(receiver: &'t Option<Receiver>, search: &mut Search<'t>)
    ensures { Declares search.old (receiver_idents receiver.now) search.new }
{
    if let Some(receiver) = receiver {
        if let Some(ident) = &receiver.name {
            search.declare(ident);
        }
    }
}
