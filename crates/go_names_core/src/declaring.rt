//! Names that are about to be declared: which are new in their block, and the rules that they break.

ghost use Rattle.std.specs.Prelude.{◌≡◌, [], ◌∷◌, ◌++◌, IfOk, OnOk, map, if◌then◌else◌};
ghost use Rattle.go_local_core.specs.scope_stack.Blocks.{innermost, short_name, short_names, is_short_new, list_name, any_new};
ghost use Rattle.go_local_core.specs.Faults.{ident_fault, none_new_fault, spellings};
ghost use Rattle.go_tree_nodes.specs.TypeShapes.{shape_idents};
ghost use Rattle.go_local_core.specs.Outline.{idents};
ghost use Rattle.go_names_core.specs.Body.{func_idents};
ghost use Rattle.go_names_core.specs.mirrors.Declaring.{is_second, faults_of_second, found_faults, AreNew};
ghost use Rattle.go_names_core.specs.Scenes.{name_scene, local_declared, locals_declared};

use crate::idents::{header_idents, listed_idents};
use crate::meaning::Meant;
use go_local_core::Fault;
use go_local_core::scope_stack::{DeclId, NameList, ShortName};
use go_scope_core::Scopes;
use go_scope_core::text_core::Rule;
use go_tree_nodes::{FuncDecl, Ident, Idents};
use std::alloc::{AllocError, Global};

// What a name would be in the innermost block of a scope, behind those that were seen.
fn short_name<'a>(
    scopes: &Scopes,
    seen: &mut NameList<'a>,
    name: &'a str,
) -> Result<ShortName, AllocError>
    ensures short { IfOk result (λ short. short ≡ short_name (innermost scopes.now.open_blocks) seen.old name.now) }
    ensures seen { OnOk result (seen.new ≡ list_name seen.old name.now) }
{
    let is_first = match seen.add(name) {
        Ok(is_first) => is_first,
        Err(_) => return Err(AllocError),
    };
    if name == "_" {
        return Ok(ShortName::Blank);
    }
    if !is_first {
        return Ok(ShortName::Repeated);
    }
    if scopes.depth() > 0 && scopes.is_taken(name) {
        return Ok(ShortName::Old);
    }
    Ok(ShortName::New)
}

// What each of some names would be in the innermost block of a scope, one after the other.
fn short_names(
    alloc: Global,
    scopes: &Scopes,
    idents: &[&Ident],
) -> Result<Vec<ShortName>, AllocError>
    ensures { IfOk result (λ shorts. shorts.items ≡ short_names (innermost scopes.now.open_blocks) (spellings (map (λ i. i.now) idents.now))) }
{
    let mut seen = NameList::new(alloc);
    let mut shorts = Vec::new(alloc);
    for ident in idents {
        let short = short_name(scopes, &mut seen, ident.name.as_str())?;
        shorts.push(short)?;
    }
    Ok(shorts)
}

// Which of some names are new.
fn news(alloc: Global, shorts: &[ShortName]) -> Result<Vec<bool>, AllocError>
    ensures { IfOk result (λ news. news.items ≡ map is_short_new shorts.now) }
{
    let mut news = Vec::new(alloc);
    for short in shorts {
        news.push(short.is_new())?;
    }
    Ok(news)
}

/// Names that are about to be declared: what each of them is in its block, and which of them are new there.
#[derive(Drop)]
pub struct NewNames<'n> {
    idents: Vec<&'n Ident>,
    shorts: Vec<ShortName>,
    /// Which of them are new in their block, in order.
    pub firsts: Vec<bool>,
}

// Names that are about to be declared in the innermost block of a scope.
fn new_names<'n>(
    alloc: Global,
    scopes: &Scopes,
    idents: Vec<&'n Ident>,
) -> Result<NewNames<'n>, AllocError>
    ensures { IfOk result (λ news. AreNew (innermost scopes.now.open_blocks) (map (λ i. i.now) idents.entry.items) news) }
{
    let shorts = short_names(alloc, scopes, idents.as_slice())?;
    let firsts = news(alloc, shorts.as_slice())?;
    Ok(NewNames {
        idents,
        shorts,
        firsts,
    })
}

/// The names of a specification or a short declaration, about to be declared in the innermost block of a scope.
///
/// # Errors
///
/// [`AllocError`] where memory is wanting.
pub fn names_of<'n>(
    alloc: Global,
    scopes: &Scopes,
    names: &'n Idents,
) -> Result<NewNames<'n>, AllocError>
    ensures { IfOk result (λ news. AreNew (innermost scopes.now.open_blocks) (idents (shape_idents names.now)) news) }
{
    new_names(alloc, scopes, listed_idents(alloc, names)?)
}

/// The names of a function's receiver, parameters and results, about to be declared in the innermost block of a scope.
///
/// # Errors
///
/// [`AllocError`] where memory is wanting.
pub fn names_of_header<'n>(
    alloc: Global,
    scopes: &Scopes,
    func: &'n FuncDecl,
) -> Result<NewNames<'n>, AllocError>
    ensures { IfOk result (λ news. AreNew (innermost scopes.now.open_blocks) (func_idents func.now) news) }
{
    new_names(alloc, scopes, header_idents(alloc, func)?)
}

// Whether one of some names is new.
fn is_any_new(shorts: &[ShortName]) -> bool
    ensures { result ≡ any_new shorts.now }
{
    shorts.iter().any(|short| short.is_new())
}

// Whether a name breaks B1: in a short declaration where it stands to its left already, in others where its block has it too.
fn is_second(is_short: bool, short: ShortName) -> bool
    ensures { result ≡ is_second is_short short }
{
    match short {
        ShortName::Repeated => true,
        ShortName::Old => !is_short,
        ShortName::New | ShortName::Blank => false,
    }
}

// Adds a fault at an identifier, if there is one.
fn add_fault_if(
    faults: &mut Vec<Fault>,
    is_fault: bool,
    ident: &Ident,
    rule: Rule,
) -> Result<(), AllocError>
    ensures { OnOk result (faults.new.items ≡ faults.old.items ++ (if is_fault then ident_fault ident.now rule ∷ [] else [])) }
{
    if is_fault {
        let offset = ident.span.start as usize;
        faults.push(Fault { offset, rule })?;
    }
    Ok(())
}

// Adds B4 at the first of the names before `:=`, where none of them is new.
fn add_none_new(
    faults: &mut Vec<Fault>,
    idents: &[&Ident],
    shorts: &[ShortName],
) -> Result<(), AllocError>
    ensures { OnOk result (faults.new.items ≡ faults.old.items ++ none_new_fault (any_new shorts.now) (map (λ i. i.now) idents.now)) }
{
    match idents.first() {
        Some(first) => add_fault_if(faults, !is_any_new(shorts), first, Rule::B4),
        None => Ok(()),
    }
}

// Adds B1 at each name that breaks it.
fn add_second(
    faults: &mut Vec<Fault>,
    is_short: bool,
    idents: &[&Ident],
    shorts: &[ShortName],
) -> Result<(), AllocError>
    ensures { OnOk result (faults.new.items ≡ faults.old.items ++ faults_of_second is_short shorts.now (map (λ i. i.now) idents.now)) }
{
    for (ident, short) in idents.iter().zip(shorts) {
        add_fault_if(faults, is_second(is_short, *short), ident, Rule::B1)?;
    }
    Ok(())
}

// Adds the faults of names that are declared, by what each of them is in its block: those before `:=`, or others.
fn add_name_faults(
    faults: &mut Vec<Fault>,
    is_short: bool,
    idents: &[&Ident],
    shorts: &[ShortName],
) -> Result<(), AllocError>
    ensures { OnOk result (faults.new.items ≡ faults.old.items ++ found_faults is_short shorts.now (map (λ i. i.now) idents.now)) }
{
    if is_short {
        add_none_new(faults, idents, shorts)?;
    }
    add_second(faults, is_short, idents, shorts)
}

// Declares a name in the innermost block, if it is new there.
fn declare_local<M: Drop>(
    scopes: &mut Scopes,
    locals: &mut Vec<M>,
    ident: &Ident,
    meaning: M,
) -> Result<(), AllocError>
    ensures { OnOk result (name_scene scopes.new locals.new.items ≡ local_declared (name_scene scopes.old locals.old.items) ident.now meaning) }
{
    let id = DeclId(locals.len());
    locals.push(meaning)?;
    if scopes.depth() == 0 {
        return Ok(());
    }
    match scopes.declare(ident.name.as_str(), id) {
        Ok(()) => Ok(()),
        // The block has the name already.
        Err(Rule::B1) => Ok(()),
        Err(_) => Err(AllocError),
    }
}

// Declares names in the innermost block, those that are new there.
fn declare_locals<M: Meant + Drop>(
    scopes: &mut Scopes,
    locals: &mut Vec<M>,
    idents: &[&Ident],
    means: &[M],
) -> Result<(), AllocError>
    ensures { OnOk result (name_scene scopes.new locals.new.items ≡ locals_declared (name_scene scopes.old locals.old.items) (map (λ i. i.now) idents.now) means.now) }
{
    for (ident, meaning) in idents.iter().zip(means) {
        let again = meaning.again()?;
        declare_local(scopes, locals, ident, again)?;
    }
    Ok(())
}

/// Declares names in the innermost block with what they mean, those that are new there, and adds the faults of the others: of names before
/// `:=`, or of others.
///
/// # Errors
///
/// [`AllocError`] where memory is wanting. Some of the names may be declared then.
pub fn declare<M: Meant + Drop>(
    scopes: &mut Scopes,
    locals: &mut Vec<M>,
    faults: &mut Vec<Fault>,
    is_short: bool,
    names: &NewNames,
    means: &[M],
) -> Result<(), AllocError>
    ensures faults { OnOk result (faults.new.items ≡ faults.old.items ++ found_faults is_short names.now.shorts.items (map (λ i. i.now) names.now.idents.items)) }
    ensures scene { OnOk result (name_scene scopes.new locals.new.items ≡ locals_declared (name_scene scopes.old locals.old.items) (map (λ i. i.now) names.now.idents.items) means.now) }
{
    add_name_faults(
        faults,
        is_short,
        names.idents.as_slice(),
        names.shorts.as_slice(),
    )?;
    declare_locals(scopes, locals, names.idents.as_slice(), means)
}
