//! The types of parameters and of results by their numbers.
ghost use Rattle.std.specs.Prelude.{◌≡◌, ◌<◌, length, slice_get, Some};
ghost use Rattle.go_term_core.specs.Terms.{sign_params, sign_results, term_list};
ghost use Rattle.go_term_core.specs.Shapes.{param_shapes, shape_found, sign_of};

use crate::term::{Params, Signature, TypeTerm};

/// How many types there are.
fn count(params: &Params) -> usize
    ensures { result ≡ length (term_list (param_shapes params.now)) }
{
    params.lines.len()
}

/// The type of a number.
fn numbered_type(params: &Params, at: usize) -> Option<&TypeTerm>
    requires { at < length (term_list (param_shapes params.now)) }
    ensures { slice_get (term_list (param_shapes params.now)) at ≡ Some (shape_found result) }
{
    match params.lines.get(at) {
        Some(line) => params.terms.get(*line),
        None => None,
    }
}

impl Signature {
    /// How many parameters it has. It takes constant time.
    pub fn param_count(&self) -> usize
        ensures { result ≡ length (sign_params (sign_of self.now)) }
    {
        count(&self.params)
    }

    /// The type of a parameter by its number, from 0; `None` stands for no type. It takes constant time.
    pub fn param_at(&self, at: usize) -> Option<&TypeTerm>
        requires { at < length (sign_params (sign_of self.now)) }
        ensures { slice_get (sign_params (sign_of self.now)) at ≡ Some (shape_found result) }
    {
        numbered_type(&self.params, at)
    }

    /// How many results it has. It takes constant time.
    pub fn result_count(&self) -> usize
        ensures { result ≡ length (sign_results (sign_of self.now)) }
    {
        count(&self.results)
    }

    /// The type of a result by its number, from 0; `None` stands for no type. It takes constant time.
    pub fn result_at(&self, at: usize) -> Option<&TypeTerm>
        requires { at < length (sign_results (sign_of self.now)) }
        ensures { slice_get (sign_results (sign_of self.now)) at ≡ Some (shape_found result) }
    {
        numbered_type(&self.results, at)
    }
}
