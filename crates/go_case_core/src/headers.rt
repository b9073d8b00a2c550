//! Headers of functions, as they are written where the functions are declared.

use crate::case::Case;
use go_diagnostic_core::snap_core::Snapshot;
use go_diagnostic_core::{Here, offset_of, place_text};
use go_graph_core::SourceFile;
use go_graph_core::path_core::ImportPath;
use go_handle_core::DeclSite;
use go_judge_core::inside;
use go_report_core::answer::{Answer, Site};
use go_report_core::denote_core::Outcome;
use go_term_core::MemberPlace;
use go_term_core::decl_core::DeclRef;
use go_tree_nodes::text_core::is_blank;
use go_tree_nodes::{Decl, Expr, File, FuncDecl, Idents, Param, Results};
use std::alloc::{AllocError, Global};

/// A function or a method with its header, in a file of the package of a path.
#[derive(Clone, Copy)]
pub struct Header<'s> {
    path: &'s ImportPath,
    file: &'s SourceFile,
    func: &'s FuncDecl,
}

// The first byte of the identifier by which an expression is known that is called: a name, or that after a dot.
fn name_offset(expr: &Expr) -> Option<usize> {
    match inside(expr) {
        Expr::Name(ident) => Some(ident.span.start as usize),
        Expr::Select(select) => Some(select.name.span.start as usize),
        _ => None,
    }
}

// What the check gave the identifier or the call at an offset.
fn answer_among(answers: &[Answer], offset: usize) -> Option<&Answer> {
    for answer in answers {
        if answer.offset == offset {
            return Some(answer);
        }
    }
    None
}

// What the check gave the identifier or the call at an offset of the file of a fault.
fn answer_at<'s>(here: &Here<'s>, offset: usize) -> Option<&'s Answer> {
    match here.snapshot.file(here.path(), here.file.name()) {
        Some(found) => answer_among(found.made.answers.answers.as_slice(), offset),
        None => None,
    }
}

// The declaration that an occurrence has; none where it has none.
fn declared(answer: &Answer) -> Option<&Site> {
    match &answer.outcome {
        Outcome::Declared(site) => Some(site),
        Outcome::Selected(site, _) => Some(site),
        Outcome::Refused(_) => None,
    }
}

// The declaration of the identifier that an expression is, or that stands after its dot; none where it has none.
fn site_of<'s>(here: &Here<'s>, expr: &Expr) -> Option<&'s Site> {
    let offset = name_offset(expr)?;
    let answer = answer_at(here, offset)?;
    declared(answer)
}

// The function of a file whose name begins at an offset.
fn func_named(tree: &File, offset: usize) -> Option<&FuncDecl> {
    for top in &tree.decls {
        if let Decl::Func(func) = &top.decl {
            if func.name.span.start as usize == offset {
                return Some(func);
            }
        }
    }
    None
}

// The function of a file that a declaration is.
fn func_in<'s>(
    alloc: Global,
    file: &'s SourceFile,
    decl: DeclRef,
) -> Result<Option<&'s FuncDecl>, AllocError> {
    let Some(offset) = offset_of(alloc, file, decl.number)? else {
        return Ok(None);
    };
    match file.tree() {
        Ok(tree) => Ok(func_named(tree, offset)),
        Err(_) => Ok(None),
    }
}

// The header of a declaration of the package of a path; none where it is no function.
fn header_at<'s>(
    alloc: Global,
    snapshot: &'s Snapshot,
    path: &ImportPath,
    decl: DeclRef,
) -> Result<Option<Header<'s>>, AllocError> {
    let Some(part) = snapshot.part(path) else {
        return Ok(None);
    };
    let Some(file) = part.input().package().files().get(decl.file) else {
        return Ok(None);
    };
    match func_in(alloc, file, decl)? {
        Some(func) => Ok(Some(Header {
            path: part.path(),
            file,
            func,
        })),
        None => Ok(None),
    }
}

/// The header of what an expression names that is called; none where it is no function of the workspace, and where it is the method of an interface type.
///
/// # Errors
///
/// `AllocError` where memory is wanting.
pub fn header_of<'s>(
    alloc: Global,
    case: &Case<'s>,
    callee: &Expr,
) -> Result<Option<Header<'s>>, AllocError> {
    let Some(site) = site_of(&case.here, callee) else {
        return Ok(None);
    };
    match site.decl().site() {
        DeclSite::InFile(path, MemberPlace::Declared(decl)) => header_at(
            alloc,
            case.here.snapshot,
            path,
            decl,
        ),
        DeclSite::InFile(_, MemberPlace::Local(_)) => Ok(None),
        DeclSite::Universe(_) => Ok(None),
        DeclSite::ErrorMethod => Ok(None),
        DeclSite::Package(_) => Ok(None),
    }
}

// How many names there are.
fn count_of(idents: &Idents) -> usize {
    idents.more.len().saturating_add(1)
}

// The name of a number, from 0, among names; none where they are fewer.
fn name_among(idents: &Idents, number: usize) -> Option<&str> {
    if number == 0 {
        return Some(idents.first.name.as_str());
    }
    match idents.more.get(number.saturating_sub(1)) {
        Some(next) => Some(next.ident.name.as_str()),
        None => None,
    }
}

// A name that a sentence may use; nothing of the blank identifier.
fn unless_blank(name: &str) -> &str {
    if is_blank(name) {
        return "";
    }
    name
}

// The name of a parameter by its number, from 0; nothing where it has none.
fn param_name(params: &[Param], number: usize) -> &str {
    let mut left = number;
    for param in params {
        let Some(idents) = &param.names else {
            return "";
        };
        if let Some(name) = name_among(idents, left) {
            return unless_blank(name);
        }
        left = left.saturating_sub(count_of(idents));
    }
    ""
}

// A piece of a text; nothing where it is none.
fn piece(text: &str, start: usize, end: usize) -> &str {
    match text.get(start..end) {
        Some(piece) => piece,
        None => "",
    }
}

/// The results of a function as they are written in the text of its file; nothing where it has none.
pub fn results_written<'t>(text: &'t str, func: &FuncDecl) -> &'t str {
    match &func.signature.results {
        Results::Nothing => "",
        Results::Listed(params) => {
            piece(text, params.open.start as usize, params.close.end as usize)
        }
        Results::Single(_) => {
            let start = func.signature.params.close.end as usize;
            piece(text, start, func.open_brace.start as usize).trim()
        }
    }
}

impl<'s> Header<'s> {
    /// The name of a parameter by its number, from 0; nothing where it has none.
    pub fn param_name(&self, number: usize) -> &'s str {
        param_name(self.func.signature.params.entries.as_slice(), number)
    }

    /// The parameters as they are written, in their parentheses.
    pub fn params(&self) -> &'s str {
        let params = &self.func.signature.params;
        piece(
            self.file.text(),
            params.open.start as usize,
            params.close.end as usize,
        )
    }

    /// The place of its name, as it is told.
    ///
    /// # Errors
    ///
    /// `AllocError` where memory is wanting.
    pub fn place(&self, alloc: Global, case: &Case<'_>) -> Result<String, AllocError> {
        let offset = self.func.name.span.start as usize;
        place_text(
            alloc,
            case.here.module,
            self.path.as_str(),
            self.file,
            offset,
        )
    }
}
