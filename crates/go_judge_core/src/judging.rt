//! What expressions denote at a place of a checked file.
ghost use Rattle.std.specs.Prelude.{◌≡◌, ◌<◌, true, IfOk, OnOk, Some, length, map};
ghost use Rattle.go_term_core.specs.Shapes.{shape};
ghost use Rattle.go_env_core.specs.declared.here.Here.{Here};
ghost use Rattle.go_env_core.specs.handle_core.DecidingRules.{term_rules};
ghost use Rattle.go_judge_core.specs.declared.pieces.Piece.{Piece};
ghost use Rattle.go_judge_core.specs.Breaking.{BreaksIn};
ghost use Rattle.go_judge_core.specs.Misfits.{IsFirstMisfit, given_shown, wanted_shown};
ghost use Rattle.go_judge_core.specs.Places.{IsPlaceIn};
ghost use Rattle.go_judge_core.specs.Written.{IsToldAs};

use crate::breaking::{is_broken, news_of};
use crate::checked::{CheckedFile, scene_of};
use crate::fitting::{Given, basic_of, misfit_among};
use crate::held::{Judged, hold_denoted};
use crate::locals::{LocalAt, declared_value, locals_at, meanings_of};
use crate::pieces::{Piece, decl_round};
use crate::steps::{numbered, piece_round, steps_of};
use crate::writing::{TypeText, told};
use go_env_core::handle_core::TypeRef;
use go_env_core::{Here, Meaning, outer_names, stand};
use go_names_core::OpenNames;
use go_names_core::block_core::Blocks;
use go_names_core::scope_core::Scopes;
use go_names_core::scope_stack::DeclId;
use go_stmt_core::denote_core::Stand;
use go_stmt_core::expr_core::{Notes, check_expr};
use go_stmt_core::operand_core::Operand;
use go_stmt_core::piece::{function_results, has_named_results};
use go_table_core::TypeTable;
use go_term_core::{Basic, TypeTerm, copy};
use go_tree_nodes::text_core::{Rule, add, boxed};
use go_tree_nodes::{Decl, Expr, FuncDecl, Ident, Signature};
use std::alloc::{AllocError, Global};

/// A place of a checked file where expressions are judged, with the piece that stands there. Nothing of the file is checked again.
pub struct Setting<'s> {
    checked: &'s CheckedFile<'s>,
    locals: Vec<LocalAt<'s>>,
    decl: Option<&'s Decl>,
    piece: Option<Piece<'s>>,
}

impl Drop for Setting<'_> {
    fn drop(self) {
        let Setting {
            checked: _,
            locals: _,
            decl: _,
            piece: _,
        } = self;
    }
}

// The piece of a declaration that an offset stands in, with the locals that are open in it; none where there is none.
fn piece_in<'s>(
    alloc: Global,
    checked: &'s CheckedFile<'s>,
    decl: &'s Decl,
    offset: usize,
) -> Result<(Option<Piece<'s>>, Vec<LocalAt<'s>>), AllocError> {
    let steps = steps_of(alloc, decl)?;
    let Some(number) = piece_round(&steps, offset) else {
        return Ok((None, Vec::new(alloc)));
    };
    let made = checked.file.made;
    let locals = locals_at(alloc, made.answers.locals.as_slice(), &steps, number)?;
    Ok((numbered(&steps, number), locals))
}

// Declares a local in the innermost block, where no other of its name is declared there.
fn declare_local(scopes: &mut Scopes<'_>, name: &str, number: usize) -> Result<(), AllocError>
    requires { 0 < length scopes.old.open_blocks }
    ensures { OnOk result (0 < length scopes.new.open_blocks) }
{
    if scopes.is_taken(name) {
        return Ok(());
    }
    match scopes.declare(name, DeclId(number)) {
        Ok(()) => Ok(()),
        Err(_) => Err(AllocError),
    }
}

// The same of the local of a number, if there is one.
fn declare_number(
    scopes: &mut Scopes<'_>,
    locals: &[LocalAt<'_>],
    number: usize,
) -> Result<(), AllocError>
    requires { 0 < length scopes.old.open_blocks }
    ensures { OnOk result (0 < length scopes.new.open_blocks) }
{
    match locals.get(number) {
        Some(local) => declare_local(scopes, local.ident.name.as_str(), number),
        None => Ok(()),
    }
}

// Declares locals in the innermost block, the last of each name.
fn declare_locals(scopes: &mut Scopes<'_>, locals: &[LocalAt<'_>]) -> Result<(), AllocError>
    requires { 0 < length scopes.old.open_blocks }
{
    let count = locals.len();
    for back in 1..count.saturating_add(1) {
        declare_number(scopes, locals, count.saturating_sub(back))?;
    }
    Ok(())
}

// The blocks that are open in the file of a number where these locals are, in one block.
fn scopes_with<'p>(
    alloc: Global,
    blocks: &'p Blocks,
    number: usize,
    locals: &[LocalAt<'_>],
) -> Result<Scopes<'p>, AllocError> {
    let mut scopes = Scopes::begin(alloc, blocks, number);
    let Ok(()) = scopes.enter() else {
        return Err(AllocError);
    };
    declare_locals(&mut scopes, locals)?;
    Ok(scopes)
}

// The names that are open in blocks, where each local means what stands at its number.
fn open_names<'n, 'p: 'n>(
    scopes: &'n Scopes<'n>,
    meanings: &'n [Meaning<'p>],
) -> OpenNames<'n, Meaning<'p>> {
    OpenNames::at(scopes, meanings)
}

// What an expression denotes that stands so at a place.
fn judged_one<'n, 'p>(
    alloc: Global,
    here: &Here<'n, 'p>,
    expr: &Expr,
    place: Stand,
) -> Result<Judged, AllocError> {
    let mut notes = Notes {
        uses: Vec::new(alloc),
        faults: Vec::new(alloc),
    };
    let denoted = check_expr(here, alloc, place, expr, &mut notes)?;
    hold_denoted(alloc, denoted)
}

// What expressions denote that stand so at a place.
fn judged_at<'n, 'p>(
    alloc: Global,
    here: &Here<'n, 'p>,
    exprs: &[&Expr],
    place: Stand,
) -> Result<Vec<Judged>, AllocError> {
    let mut all = Vec::new(alloc);
    for expr in exprs {
        let judged = judged_one(alloc, here, *expr, place)?;
        add(&mut all, judged)?;
    }
    Ok(all)
}

// Pointers to pointers to a type, so many.
fn pointed(alloc: Global, term: TypeTerm, stars: usize) -> Result<TypeTerm, AllocError> {
    let mut found = term;
    for _ in 0..stars {
        let base = boxed(alloc, found)?;
        found = TypeTerm::Pointer(base);
    }
    Ok(found)
}

// A type that is lent, held.
fn held_type(alloc: Global, t: &TypeRef<'_>) -> Result<TypeTerm, AllocError> {
    let parts = t.parts();
    let term = copy(alloc, parts.term)?;
    pointed(alloc, term, parts.stars)
}

// Types that are lent, held.
fn held_types(
    alloc: Global,
    types: &[Option<TypeRef<'_>>],
) -> Result<Vec<Option<TypeTerm>>, AllocError> {
    let mut all = Vec::new(alloc);
    for t in types {
        match t {
            Some(t) => add(&mut all, Some(held_type(alloc, t)?))?,
            None => add(&mut all, None)?,
        }
    }
    Ok(all)
}

// What expressions denote that stand so in a file, where these locals are open.
fn judged_in<'p>(
    alloc: Global,
    checked: &'p CheckedFile<'p>,
    locals: &[LocalAt<'p>],
    exprs: &[&Expr],
    place: Stand,
) -> Result<Vec<Judged>, AllocError> {
    let scene = scene_of(checked);
    let number = checked.file.number;
    let meanings = meanings_of(alloc, locals)?;
    let scopes = scopes_with(alloc, scene.blocks, number, locals)?;
    let names = open_names(&scopes, &meanings);
    let inline = &checked.known.places.inline;
    let here = stand(&scene, number, inline, &checked.declared, &names);
    let all = judged_at(alloc, &here, exprs, place)?;
    Ok(all)
}

// The types of the results of a function of a file, in order: none for one without a type.
fn results_in<'p>(
    alloc: Global,
    checked: &'p CheckedFile<'p>,
    signature: &Signature,
) -> Result<Vec<Option<TypeRef<'p>>>, AllocError> {
    let scene = scene_of(checked);
    let number = checked.file.number;
    let scopes = Scopes::begin(alloc, scene.blocks, number);
    let names = outer_names(&scene, &scopes);
    let inline = &checked.known.places.inline;
    let here = stand(&scene, number, inline, &checked.declared, &names);
    let types = function_results(&here, alloc, signature)?;
    Ok(types)
}

// What the results of the function are round a place: their types, and whether they have names. There are none outside functions.
fn results_round<'p>(
    alloc: Global,
    checked: &'p CheckedFile<'p>,
    func: Option<&FuncDecl>,
) -> Result<(Vec<Option<TypeRef<'p>>>, bool), AllocError> {
    match func {
        Some(func) => {
            let types = results_in(alloc, checked, &func.signature)?;
            Ok((types, has_named_results(&func.signature)))
        }
        None => Ok((Vec::new(alloc), false)),
    }
}

// Whether a piece breaks a rule at an offset of a file, where these locals are open, and `news` says which of the names are new that it declares with `:=`.
fn breaks_in<'p>(
    alloc: Global,
    checked: &'p CheckedFile<'p>,
    locals: &[LocalAt<'p>],
    func: Option<&FuncDecl>,
    piece: Piece<'_>,
    news: &[bool],
    offset: usize,
    rule: Rule,
) -> Result<bool, AllocError>
    ensures { IfOk result (λ holds. holds ≡ true → BreaksIn checked.now.file.part.now checked.now.known checked.now.file.number piece.entry offset rule) }
{
    let scene = scene_of(checked);
    let number = checked.file.number;
    let (results, has_names) = results_round(alloc, checked, func)?;
    let meanings = meanings_of(alloc, locals)?;
    let scopes = scopes_with(alloc, scene.blocks, number, locals)?;
    let names = open_names(&scopes, &meanings);
    let inline = &checked.known.places.inline;
    let here = stand(&scene, number, inline, &checked.declared, &names);
    let holds = is_broken(
        &here,
        alloc,
        piece,
        func.is_some(),
        news,
        &results,
        has_names,
        offset,
        rule,
    )?;
    Ok(holds)
}

// A type as it is told in a file, where these locals are open.
fn told_in<'p>(
    alloc: Global,
    checked: &'p CheckedFile<'p>,
    locals: &[LocalAt<'p>],
    term: &TypeTerm,
) -> Result<TypeText, AllocError>
    ensures { IfOk result (λ told. (h : Here) × IsPlaceIn checked.now.file.part.now checked.now.known checked.now.file.number h × IsToldAs h (shape term.now) told) }
{
    let scene = scene_of(checked);
    let number = checked.file.number;
    let meanings = meanings_of(alloc, locals)?;
    let scopes = scopes_with(alloc, scene.blocks, number, locals)?;
    let names = open_names(&scopes, &meanings);
    let inline = &checked.known.places.inline;
    let here = stand(&scene, number, inline, &checked.declared, &names);
    let text = told(alloc, &here, term)?;
    Ok(text)
}

impl<'s> Setting<'s> {
    /// The place at an offset in bytes of a file.
    ///
    /// The time is linear in the declaration round the offset; each declaration of the file is one step.
    ///
    /// # Errors
    ///
    /// `AllocError` where memory is wanting.
    pub fn of(
        alloc: Global,
        checked: &'s CheckedFile<'s>,
        offset: usize,
    ) -> Result<Setting<'s>, AllocError> {
        let file = checked.file;
        let Some(decl) = decl_round(file.tree, offset) else {
            return Ok(Setting {
                checked,
                locals: Vec::new(alloc),
                decl: None,
                piece: None,
            });
        };
        let (piece, locals) = piece_in(alloc, checked, decl, offset)?;
        Ok(Setting {
            checked,
            locals,
            decl: Some(decl),
            piece,
        })
    }

    /// The declaration round the place; none in front of the first one.
    pub fn decl(&self) -> Option<&'s Decl> {
        self.decl
    }

    /// The piece round the place; none where the place is in front of the first one of its declaration.
    pub fn piece(&self) -> Option<Piece<'s>> {
        self.piece
    }

    /// The types that the package sees.
    pub fn table(&self) -> &'s TypeTable {
        let checked = self.checked;
        &checked.known.types
    }

    /// Which of bool, int and string lies under the type of a value, or is the kind of an untyped one.
    ///
    /// The Go specification, "Underlying types".
    ///
    /// # Errors
    ///
    /// `AllocError` where the text of a constant has too many owners.
    pub fn basic_under(&self, operand: &Operand<TypeTerm>) -> Result<Option<Basic>, AllocError> {
        let checked = self.checked;
        let known = &checked.known;
        basic_of(&known.types, &known.home, &*operand)
    }

    /// The number, from 0, of the first value that does not fit where the type of this number is wanted: it is not assignable to it, and all in front of it are. What
    /// is not known is taken to fit. None where all fit.
    ///
    /// The Go specification, "Assignability".
    ///
    /// # Errors
    ///
    /// `AllocError` where memory is wanting.
    pub fn first_misfit(
        &self,
        alloc: Global,
        values: &[Given<'_>],
        wanted: &[Option<&TypeTerm>],
    ) -> Result<Option<usize>, AllocError>
        ensures { IfOk result (λ found. IsFirstMisfit (term_rules self.now.checked.now.known.types self.now.checked.now.known.home) (map given_shown values.now) (map wanted_shown wanted.now) found) }
    {
        let checked = self.checked;
        let known = &checked.known;
        misfit_among(alloc, &known.types, &known.home, &*values, &*wanted)
    }

    // The local of a name that is open at the place, the innermost one.
    fn open_local(&self, name: &str) -> Option<LocalAt<'s>> {
        let count = self.locals.len();
        for back in 1..count.saturating_add(1) {
            if let Some(local) = self.locals.get(count.saturating_sub(back)) {
                if local.ident.name.as_str() == name {
                    return Some(*local);
                }
            }
        }
        None
    }

    /// The local of a name that is open at the place, the innermost one: the first byte of its declared identifier, in bytes from the file's start.
    ///
    /// The Go specification, "Declarations and scope".
    pub fn local(&self, name: &str) -> Option<usize> {
        match self.open_local(name) {
            Some(local) => Some(local.ident.span.start as usize),
            None => None,
        }
    }

    /// What the local of a name stands for that is open at the place: none where it has no type, and where none is open.
    pub fn local_value(&self, name: &str) -> Option<&'s Operand<TypeTerm>> {
        match self.open_local(name) {
            Some(local) => local.value.as_ref(),
            None => None,
        }
    }

    /// What the local stands for that is declared by an identifier of the file: none where it has no type, and where the identifier declares none.
    pub fn declared_local(&self, ident: &Ident) -> Option<&'s Operand<TypeTerm>> {
        let checked = self.checked;
        let made = checked.file.made;
        declared_value(made.answers.locals.as_slice(), ident.span.start as usize)
    }

    /// What expressions of the piece denote, each for itself, where they stand so: by the very rules of the check, of what the part keeps of the package
    /// and of the locals that are open there. An expression that writes out a struct type is refused.
    ///
    /// The Go specification, "Expressions".
    ///
    /// # Errors
    ///
    /// `AllocError` where memory is wanting.
    pub fn judge(
        &self,
        alloc: Global,
        exprs: &[&Expr],
        place: Stand,
    ) -> Result<Vec<Judged>, AllocError> {
        judged_in(alloc, self.checked, self.locals.as_slice(), exprs, place)
    }

    /// Whether the piece, judged anew, breaks a rule at an offset in bytes: as an outcome of an identifier or a call, or as a fault of a part. Where there is no piece
    /// it breaks none. Of a specification outside functions nothing is said of what is no constant.
    ///
    /// # Errors
    ///
    /// `AllocError` where memory is wanting.
    pub fn breaks(&self, alloc: Global, offset: usize, rule: Rule) -> Result<bool, AllocError>
        ensures { IfOk result (λ holds. holds ≡ true → (p : Piece) × (self.now.piece ≡ Some p) × BreaksIn self.now.checked.now.file.part.now self.now.checked.now.known self.now.checked.now.file.number p offset rule) }
    {
        let Some(piece) = self.piece else {
            return Ok(false);
        };
        let holds = self.is_piece_breaking(alloc, piece, offset, rule)?;
        Ok(holds)
    }

    // The same of a piece at the place.
    fn is_piece_breaking(
        &self,
        alloc: Global,
        piece: Piece<'s>,
        offset: usize,
        rule: Rule,
    ) -> Result<bool, AllocError>
        ensures { IfOk result (λ holds. holds ≡ true → BreaksIn self.now.checked.now.file.part.now self.now.checked.now.known self.now.checked.now.file.number piece.entry offset rule) }
    {
        let checked = self.checked;
        let made = checked.file.made;
        let news = news_of(alloc, made.answers.locals.as_slice(), piece)?;
        let locals = self.locals.as_slice();
        let func = self.func();
        let holds = breaks_in(
            alloc,
            self.checked,
            locals,
            func,
            piece,
            &news,
            offset,
            rule,
        )?;
        Ok(holds)
    }

    /// The function round the place; none outside functions.
    pub fn func(&self) -> Option<&'s FuncDecl> {
        match self.decl {
            Some(Decl::Func(func)) => Some(func),
            Some(Decl::Value(_)) => None,
            Some(Decl::Type(_)) => None,
            None => None,
        }
    }

    /// The types of the results of a function of the file, in order, with names or without: none for one without a type.
    ///
    /// The Go specification, "Function types".
    ///
    /// # Errors
    ///
    /// `AllocError` where memory is wanting.
    pub fn results(
        &self,
        alloc: Global,
        signature: &Signature,
    ) -> Result<Vec<Option<TypeTerm>>, AllocError> {
        let types = results_in(alloc, self.checked, signature)?;
        held_types(alloc, &types)
    }

    /// A type as it is told at the place: as it is written there, where a name after stars is this type there by the rule of the check. Else what is told
    /// is no Go: the path of its package in quotes and its name, the word `predeclared` and its name, or `..` for what stands in braces.
    ///
    /// The Go specification, "Types", "Qualified identifiers", "Declarations and scope".
    ///
    /// # Errors
    ///
    /// `AllocError` where memory is wanting.
    pub fn type_text(&self, alloc: Global, term: &TypeTerm) -> Result<TypeText, AllocError>
        ensures { IfOk result (λ told. (h : Here) × IsPlaceIn self.now.checked.now.file.part.now self.now.checked.now.known self.now.checked.now.file.number h × IsToldAs h (shape term.now) told) }
    {
        let text = told_in(alloc, self.checked, self.locals.as_slice(), term)?;
        Ok(text)
    }
}
