//! How high types are.
ghost use Rattle.std.specs.Prelude.{◌≡◌, ◌<◌, ◌^◌};
ghost use Rattle.go_tree_nodes.specs.Heights as heights;
ghost use Rattle.go_tree_nodes.specs.TypeShapes.{shape_type, shape_signature, shape_results, fields_of, methods_of, params_of};
ghost use Rattle.go_parse_reader.specs.types.mirrors.EntryShapes.{field_height};

use go_tree_nodes::{FieldLine, Fields, MethodLine, Param, Results, Signature, TypeExpr};

/// How high a type is: the number of types on its longest path.
#[cycle(heights)]
pub fn type_height(type_expr: &TypeExpr) -> u32
    requires { heights.type_height (shape_type type_expr.now) < 2 ^ 31 }
    ensures { result ≡ heights.type_height (shape_type type_expr.now) }
{
    match type_expr {
        TypeExpr::Name(_) => 1,
        TypeExpr::Pointer(_, inside) | TypeExpr::Paren(_, inside, _) => type_height(inside) + 1,
        TypeExpr::Struct(_, _, lines, _) => lines_height(lines) + 1,
        TypeExpr::Interface(_, _, methods, _) => methods_height(methods) + 1,
    }
}

/// How high the types of the fields of one line are.
#[cycle(heights)]
fn fields_height(fields: &Fields) -> u32
    requires { field_height fields.now < 2 ^ 31 }
    ensures { result ≡ field_height fields.now }
{
    match fields {
        Fields::Named(_, type_expr) => type_height(type_expr),
        Fields::Embedded(..) => 1,
    }
}

/// How high the types of fields are.
#[cycle(heights)]
fn lines_height(lines: &Vec<FieldLine>) -> u32
    requires { heights.fields_height (fields_of lines.now.items) < 2 ^ 31 }
    ensures { result ≡ heights.fields_height (fields_of lines.now.items) }
{
    let mut high: u32 = 0;
    for line in lines {
        high = high.max(fields_height(&line.fields));
    }
    high
}

/// How high the types of methods are.
#[cycle(heights)]
fn methods_height(methods: &Vec<MethodLine>) -> u32
    requires { heights.methods_height (methods_of methods.now.items) < 2 ^ 31 }
    ensures { result ≡ heights.methods_height (methods_of methods.now.items) }
{
    let mut high: u32 = 0;
    for method in methods {
        high = high.max(signature_height(&method.signature));
    }
    high
}

/// How high the types of a signature are.
#[cycle(heights)]
fn signature_height(signature: &Signature) -> u32
    requires { heights.signature_height (shape_signature signature.now) < 2 ^ 31 }
    ensures { result ≡ heights.signature_height (shape_signature signature.now) }
{
    params_height(&signature.params.entries).max(results_height(&signature.results))
}

/// How high the types of results are.
#[cycle(heights)]
fn results_height(results: &Results) -> u32
    requires { heights.result_height (shape_results results.now) < 2 ^ 31 }
    ensures { result ≡ heights.result_height (shape_results results.now) }
{
    match results {
        Results::Nothing => 0,
        Results::Single(type_expr) => type_height(type_expr),
        Results::Listed(params) => params_height(&params.entries),
    }
}

/// How high the types of parameters are.
#[cycle(heights)]
fn params_height(params: &Vec<Param>) -> u32
    requires { heights.params_height (params_of params.now.items) < 2 ^ 31 }
    ensures { result ≡ heights.params_height (params_of params.now.items) }
{
    let mut high: u32 = 0;
    for param in params {
        high = high.max(type_height(&param.type_expr));
    }
    high
}
