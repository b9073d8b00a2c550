//! The members that an identifier names.
ghost use Rattle.std.specs.Prelude.{◌≡◌, ◌⊎◌, ◌↔◌, IsTrue, map};
ghost use Rattle.std.specs.List.{list_any};
ghost use Rattle.std.specs.Str.{bytes_eq, chars};
ghost use Rattle.go_collections_core.specs.text_core.Text.{exported};
ghost use Rattle.go_term_core.specs.Terms.{ErrorType};
ghost use Rattle.go_term_core.specs.Shapes.{line_shapes, shape};
ghost use Rattle.go_type_core.specs.table_core.Entries.{same_id, has_method};
ghost use Rattle.go_type_core.specs.table_core.Shown.{member_shown};
ghost use Rattle.go_embed_core.specs.Owners.{term_found, is_spelled_in, nobody};
ghost use Rattle.go_embed_core.specs.OwnersShown.{name_shown, member_package_shown};
ghost use Rattle.go_embed_core.specs.mirrors.Tallies.{together, hits_shown, tallies, tally_of, method_tally, field_tally, interface_tally};

use go_collections_core::text_core::Name;
use go_path_core::ImportPath;
use go_term_core::FieldLine;
use go_type_core::table_core::StructField;
use go_type_core::{DeclaredMethod, Field, Method, TypeTerm};

/// A member of a type, with the package where it is written.
#[derive(Clone, Copy)]
pub enum Member<'a> {
    Field(&'a ImportPath, StructField<'a>),
    /// A method that is declared with a receiver.
    Method(&'a ImportPath, &'a DeclaredMethod),
    /// A method of an interface type.
    InterfaceMethod(&'a ImportPath, &'a Method),
    /// The method `Error` of the predeclared type `error`.
    ErrorMethod,
}

/// The members of one type that an identifier names.
#[derive(Clone, Copy)]
pub enum Hits<'a> {
    Nothing,
    One(Member<'a>),
    More,
}

impl<'a> Member<'a> {
    /// Its name.
    pub fn name(self) -> &'a str
        ensures { result.now ≡ name_shown self.entry }
    {
        match self {
            Member::Field(_, field) => field.field.name.as_str(),
            Member::Method(_, method) => method.name.as_str(),
            Member::InterfaceMethod(_, method) => method.name.as_str(),
            Member::ErrorMethod => "Error",
        }
    }

    /// The path of the package where its name is written, which is empty for the method of the predeclared type `error`.
    pub fn package(self) -> &'a str
        ensures { result.now ≡ member_package_shown self.entry }
    {
        match self {
            Member::Field(path, _) => path.as_str(),
            Member::Method(path, _) => path.as_str(),
            Member::InterfaceMethod(path, _) => path.as_str(),
            Member::ErrorMethod => "",
        }
    }

    /// Whether an identifier that is written in a package may name it: it is exported, or of that package. The Go specification, "Exported
    /// identifiers", "Uniqueness of identifiers".
    pub fn is_visible(self, from: &ImportPath) -> bool
        ensures { IsTrue result ↔ (IsTrue (exported (chars (name_shown self.entry))) ⊎ (member_package_shown self.entry ≡ from.now)) }
    {
        go_collections_core::text_core::is_exported(self.name()) || self.package() == from.as_str()
    }
}

impl<'a> Hits<'a> {
    // These and others.
    pub(crate) fn and(self, others: Hits<'a>) -> Hits<'a>
        ensures { hits_shown result ≡ together (hits_shown self.entry) (hits_shown others.entry) }
    {
        match self {
            Hits::Nothing => others,
            Hits::One(member) => match others {
                Hits::Nothing => Hits::One(member),
                Hits::One(_) => Hits::More,
                Hits::More => Hits::More,
            },
            Hits::More => Hits::More,
        }
    }
}

// Whether two identifiers are the same, each with the package where it is written.
pub(crate) fn is_same_id(a: &str, a_path: &ImportPath, b: &str, b_path: &ImportPath) -> bool
    ensures { result ≡ same_id a.now a_path.now b.now b_path.now }
{
    go_collections_core::text_core::same_id(a, a_path.as_str(), b, b_path.as_str())
}

/// Whether a method of a type has an identifier: `path` is that of the package of the type, and `from` that of the package where the
/// identifier is written. It takes no memory. The Go specification, "Uniqueness of identifiers".
pub(crate) fn has_method(
    path: &ImportPath,
    methods: &[DeclaredMethod],
    name: &str,
    from: &ImportPath,
) -> bool
    ensures { result ≡ has_method path.now (map member_shown methods.now) name.now from.now }
{
    for method in methods {
        if is_same_id(method.name.as_str(), path, name, from) {
            return true;
        }
    }
    false
}

// The method of a type, where it has the identifier.
fn method_hit<'a>(
    path: &'a ImportPath,
    method: &'a DeclaredMethod,
    name: &str,
    from: &ImportPath,
) -> Hits<'a>
    ensures { hits_shown result ≡ method_tally path.now name.now from.now method.now }
{
    if is_same_id(method.name.as_str(), path, name, from) {
        Hits::One(Member::Method(path, method))
    } else {
        Hits::Nothing
    }
}

// The field of a struct type, where it has the identifier.
fn field_hit<'a>(
    path: &'a ImportPath,
    field: &'a Field,
    lines: &'a [FieldLine],
    name: &str,
    from: &ImportPath,
) -> Hits<'a>
    ensures { hits_shown result ≡ field_tally (line_shapes lines.now) path.now name.now from.now field.now }
{
    if is_same_id(field.name.as_str(), path, name, from) {
        Hits::One(Member::Field(path, StructField::of(field, lines)))
    } else {
        Hits::Nothing
    }
}

// The method of an interface type, where it has the identifier.
fn interface_hit<'a>(
    path: &'a ImportPath,
    method: &'a Method,
    name: &str,
    from: &ImportPath,
) -> Hits<'a>
    ensures { hits_shown result ≡ interface_tally path.now name.now from.now method.now }
{
    if is_same_id(method.name.as_str(), path, name, from) {
        Hits::One(Member::InterfaceMethod(path, method))
    } else {
        Hits::Nothing
    }
}

// The methods that are declared of a type and have the identifier.
pub(crate) fn method_hits<'a>(
    path: &'a ImportPath,
    methods: &'a [DeclaredMethod],
    name: &str,
    from: &ImportPath,
) -> Hits<'a>
    ensures { hits_shown result ≡ tallies (method_tally path.now name.now from.now) methods.now }
{
    let mut hits = Hits::Nothing;
    for method in methods {
        hits = hits.and(method_hit(path, method, name, from));
    }
    hits
}

// The fields of a struct type that have the identifier.
fn field_hits<'a>(
    path: &'a ImportPath,
    fields: &'a [Field],
    lines: &'a [FieldLine],
    name: &str,
    from: &ImportPath,
) -> Hits<'a>
    ensures { hits_shown result ≡ tallies (field_tally (line_shapes lines.now) path.now name.now from.now) fields.now }
{
    let mut hits = Hits::Nothing;
    for field in fields {
        hits = hits.and(field_hit(path, field, lines, name, from));
    }
    hits
}

// The methods of an interface type that have the identifier.
fn interface_hits<'a>(
    path: &'a ImportPath,
    methods: &'a [Method],
    name: &str,
    from: &ImportPath,
) -> Hits<'a>
    ensures { hits_shown result ≡ tallies (interface_tally path.now name.now from.now) methods.now }
{
    let mut hits = Hits::Nothing;
    for method in methods {
        hits = hits.and(interface_hit(path, method, name, from));
    }
    hits
}

// The method of the predeclared type `error`, where it has the identifier: it is exported.
pub(crate) fn error_hit<'a>(name: &str, from: &ImportPath) -> Hits<'a>
    ensures { hits_shown result ≡ tallies (tally_of name.now from.now) (term_found nobody ErrorType) }
{
    if go_collections_core::text_core::same_id("Error", "", name, from.as_str()) {
        Hits::One(Member::ErrorMethod)
    } else {
        Hits::Nothing
    }
}

// The members of a type that is no name which have the identifier.
pub(crate) fn term_hits<'a>(term: &'a TypeTerm, name: &str, from: &ImportPath) -> Hits<'a>
    ensures { hits_shown result ≡ tallies (tally_of name.now from.now) (term_found nobody (shape term.now)) }
{
    match term {
        TypeTerm::Error => error_hit(name, from),
        TypeTerm::Struct(path, fields, lines) => field_hits(path, fields, lines, name, from),
        TypeTerm::Interface(path, methods) => interface_hits(path, methods, name, from),
        TypeTerm::NoType | TypeTerm::Basic(_) | TypeTerm::Defined(_) | TypeTerm::Pointer(_) =>
            Hits::Nothing,
    }
}

// Whether a name is spelled so.
fn is_spelled_as(name: &Name, spelling: &str) -> bool
    ensures { result ≡ bytes_eq name.now spelling.now }
{
    name.as_str() == spelling
}

// Whether a method that is declared of a type is spelled so.
pub(crate) fn is_method_spelled(methods: &[DeclaredMethod], name: &str) -> bool
    ensures { result ≡ list_any (λ m. bytes_eq m.name name.now) methods.now }
{
    for method in methods {
        if is_spelled_as(&method.name, name) {
            return true;
        }
    }
    false
}

// Whether a field is spelled so.
fn is_field_spelled(fields: &[Field], name: &str) -> bool
    ensures { result ≡ list_any (λ f. bytes_eq f.name name.now) fields.now }
{
    for field in fields {
        if is_spelled_as(&field.name, name) {
            return true;
        }
    }
    false
}

// Whether a method of an interface type is spelled so.
fn is_interface_spelled(methods: &[Method], name: &str) -> bool
    ensures { result ≡ list_any (λ m. bytes_eq m.name name.now) methods.now }
{
    for method in methods {
        if is_spelled_as(&method.name, name) {
            return true;
        }
    }
    false
}

// Whether a type that is no name has a member that is spelled so.
pub(crate) fn is_spelled(term: &TypeTerm, name: &str) -> bool
    ensures { result ≡ is_spelled_in (term_found nobody (shape term.now)) name.now }
{
    match term {
        TypeTerm::Error => name == "Error",
        TypeTerm::Struct(_, fields, _) => is_field_spelled(fields, name),
        TypeTerm::Interface(_, methods) => is_interface_spelled(methods, name),
        TypeTerm::NoType | TypeTerm::Basic(_) | TypeTerm::Defined(_) | TypeTerm::Pointer(_) =>
            false,
    }
}
