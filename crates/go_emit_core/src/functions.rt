//! The functions of a file.
ghost use Rattle.std.specs.Prelude.{◌≡◌, ◌≤◌, ◌+◌, ◌++◌, IfOk, OnOk, drop, length, map, nat_lt};
ghost use Rattle.std.specs.List.{prefix_len};
ghost use Rattle.go_tree_nodes.specs.Shapes.{func_of};
ghost use Rattle.go_term_core.specs.decl_core.Shown.{decl_shown, form_shown};
ghost use Rattle.go_term_core.specs.declared.term.MemberPlace.TheVariants as places;
ghost use Rattle.go_declared_core.specs.handle_core.Declarations.{InFile};
ghost use Rattle.go_package_core.specs.Checked.{local_shown};
ghost use Rattle.go_object_core.specs.Objects.{function_shown};
ghost use Rattle.go_emit_core.specs.Emitted.{uses_before, body_first, body_uses, outcome_declarations, declarations_in, form_function, function_of, functions_of};
ghost use Rattle.go_emit_core.specs.meaning.Looking.{looks_of};
ghost use Rattle.go_emit_core.specs.meaning.Scenes.{decl_at};
ghost use Rattle.go_emit_core.specs.meaning.mirrors.Naming.{code_scene_shown};
ghost use Rattle.go_emit_core.specs.lookup.mirrors.Naming.{file_looks};

use crate::lookup::{FileCodeNames, FuncCodeNames};
use crate::meaning::{PackageNames, decl_at, file_names};
use go_code_core::function_code;
use go_constant_core::text_core::add;
use go_declared_core::handle_core::{Decl, DeclSite};
use go_expr_core::denote_core::Outcome;
use go_object_core::FunctionCode;
use go_package_core::report_core::{Answer, HeldLocal, Site};
use go_select_core::EmbedPath;
use go_table_core::path_core::ImportPath;
use go_term_core::MemberPlace;
use go_term_core::decl_core::{DeclForm, TopDecl};
use go_tree_nodes::FuncDecl;
use std::alloc::{AllocError, Global};

// How many occurrences stand before an offset, counted from the one of a number on: the number of the first that does not.
fn passed(answers: &[Answer], from: usize, bound: usize) -> usize
    requires { from ≤ length answers.now }
    ensures value { result ≡ from + prefix_len (λ u. nat_lt u.offset bound) (drop from answers.now) }
    ensures order { from ≤ result }
    ensures within { result ≤ length answers.now }
{
    for place in from..answers.len() {
        if answers[place].offset >= bound {
            return place;
        }
    }
    answers.len()
}

// How many of a file's occurrences stand before an offset.
#[derive(Clone, Copy)]
struct Counted {
    bound: usize,
    count: usize,
}

// How many occurrences stand before an offset, where it is known how many do before another: what stands before an earlier one is passed over.
fn before(answers: &[Answer], known: Counted, bound: usize) -> usize
    requires { known.count ≡ uses_before answers.now known.bound }
    ensures value { result ≡ uses_before answers.now bound }
    ensures within { result ≤ length answers.now }
{
    if known.bound <= bound {
        passed(answers, known.count, bound)
    } else {
        passed(answers, 0, bound)
    }
}

// Adds the declaration of an occurrence, if it has one.
fn add_declaration(
    references: &mut Vec<Site>,
    outcome: &Outcome<Site, EmbedPath>,
) -> Result<(), AllocError>
    ensures { OnOk result (references.new.items ≡ references.old.items ++ outcome_declarations outcome.now) }
{
    match outcome {
        Outcome::Declared(site) => add(references, Site::of(&site.decl())?),
        Outcome::Selected(site, _) => add(references, Site::of(&site.decl())?),
        Outcome::Refused(_) => Ok(()),
    }
}

// The declarations of occurrences, in order.
fn declarations_in(alloc: Global, answers: &[Answer]) -> Result<Vec<Site>, AllocError>
    ensures { IfOk result (λ references. references.items ≡ declarations_in answers.now) }
{
    let mut references = Vec::new(alloc);
    for answer in answers {
        add_declaration(&mut references, &answer.outcome)?;
    }
    Ok(references)
}

/// A file whose functions are emitted. All is lent.
#[derive(Drop)]
pub(crate) struct EmittedFile<'a> {
    /// The path of its package.
    pub(crate) path: &'a ImportPath,
    /// Its number in order of name, from 0.
    pub(crate) number: usize,
    /// What its occurrences have.
    pub(crate) answers: &'a [Answer],
    /// What its names come to.
    pub(crate) names: &'a FileCodeNames,
}

/// Where a declaration of a file stands.
fn site_of(file: &EmittedFile<'_>, decl: &TopDecl<'_>) -> Result<Site, AllocError>
    ensures { IfOk result (λ s. s ≡ InFile file.now.path.now (places.Declared (decl_at file.now.number (decl_shown decl.now)))) }
{
    let place = MemberPlace::Declared(decl_at(file.number, decl));
    Site::of(&Decl::at(DeclSite::InFile(file.path, place)))
}

// The occurrences of the body of a function, before which so many of its file stand.
fn body_of<'a>(file: &EmittedFile<'a>, func: &FuncDecl, first: usize) -> &'a [Answer]
    requires { first ≡ body_first file.now.answers.now (func_of func.now) }
    ensures { result.now ≡ body_uses file.now.answers.now (func_of func.now) }
{
    let last = passed(file.answers, first, func.close_brace.start as usize);
    &file.answers[first..last]
}

// A function of a file, before the body of which so many occurrences of the file stand.
fn function_of(
    alloc: Global,
    file: &EmittedFile<'_>,
    decl: &TopDecl<'_>,
    func: &FuncDecl,
    first: usize,
) -> Result<FunctionCode<Site>, AllocError>
    requires { first ≡ body_first file.now.answers.now (func_of func.now) }
    ensures { IfOk result (λ f. function_shown f ≡ function_of file.now.path.now file.now.number file.now.answers.now (file_looks file.now.names.now) (decl_shown decl.now) (func_of func.now)) }
{
    let names = FuncCodeNames {
        file: file.names,
        before: first,
    };
    let parts = function_code(alloc, &names, func)?;
    let references = declarations_in(alloc, body_of(file, func, first))?;
    let name = decl.ident.name.copy(alloc)?;
    let declaration = site_of(file, decl)?;
    Ok(FunctionCode {
        declaration,
        name,
        has_receiver: func.receiver.is_some(),
        slots: parts.slots,
        references,
        code: parts.code,
    })
}

// Adds the function that a declaration is, if it is one, and says how many occurrences stand before its body, or before what was known.
fn add_function(
    alloc: Global,
    functions: &mut Vec<FunctionCode<Site>>,
    file: &EmittedFile<'_>,
    decl: &TopDecl<'_>,
    known: Counted,
) -> Result<Counted, AllocError>
    requires { known.count ≡ uses_before file.now.answers.now known.bound }
    ensures functions { OnOk result (map function_shown functions.new.items ≡ map function_shown functions.old.items ++ form_function file.now.path.now file.now.number file.now.answers.now (file_looks file.now.names.now) (decl_shown decl.now) (form_shown decl.now.form)) }
    ensures known { IfOk result (λ p. p.count ≡ uses_before file.now.answers.now p.bound) }
{
    match decl.form {
        DeclForm::Func(func) => {
            let bound = func.open_brace.start as usize;
            let count = before(file.answers, known, bound);
            let function = function_of(alloc, file, decl, func, count)?;
            add(functions, function)?;
            Ok(Counted { bound, count })
        }
        DeclForm::Value(_, _, _) => Ok(known),
        DeclForm::Type(_) => Ok(known),
    }
}

// Adds the functions among the declarations of a file.
fn add_functions(
    alloc: Global,
    functions: &mut Vec<FunctionCode<Site>>,
    file: &EmittedFile<'_>,
    tops: &[TopDecl<'_>],
) -> Result<(), AllocError>
    ensures { OnOk result (map function_shown functions.new.items ≡ map function_shown functions.old.items ++ functions_of file.now.path.now file.now.number file.now.answers.now (file_looks file.now.names.now) (map decl_shown tops.now)) }
{
    let mut known = Counted { bound: 0, count: 0 };
    for decl in tops {
        known = add_function(alloc, functions, file, decl, known)?;
    }
    Ok(())
}

/// Adds the functions of the file of a number: of what is declared in it outside functions. The time that it takes is linear in the file, but for a
/// logarithm.
///
/// # Errors
///
/// `AllocError` where memory is wanting.
pub(crate) fn add_file(
    alloc: Global,
    functions: &mut Vec<FunctionCode<Site>>,
    package_names: &PackageNames<'_>,
    number: usize,
    tops: &[TopDecl<'_>],
    answers: &[Answer],
    locals: &[HeldLocal],
) -> Result<(), AllocError>
    ensures { OnOk result (map function_shown functions.new.items ≡ map function_shown functions.old.items ++ functions_of package_names.now.path.now number answers.now (looks_of (code_scene_shown package_names.now) number answers.now (map local_shown locals.now)) (map decl_shown tops.now)) }
{
    let names = file_names(alloc, package_names, number, answers, locals)?;
    let file = EmittedFile {
        path: package_names.path,
        number,
        answers,
        names: &names,
    };
    add_functions(alloc, functions, &file, tops)
}
