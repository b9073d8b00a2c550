//! Tables of defined types.
ghost use Rattle.std.specs.Prelude.{◌≡◌, ◌↔◌, ◌++◌, [], length, IfOk, OnOk, OnErr, IfSome, option_map, false, All};
ghost use Rattle.go_table_core.specs.Entries.{find_entry, underlying_in, IsUnnamed};
ghost use Rattle.go_term_core.specs.Shapes.{shape};
ghost use Rattle.go_table_core.specs.Tables.{package_types, AreOf, KeysRise, ArePackageTypes, IsPlaceOf, AreOthers};

use crate::entry::DefinedType;
use go_collections_core::name_table::NameTable;
use go_path_core::ImportPath;
use go_term_core::TypeTerm;
use go_term_core::decl_core::{DeclKey, place_order};
use std::alloc::{AllocError, Global};
use std::marker::Model;
use std::sync::Arc;

/// What is shared of a package's types.
#[derive(Drop)]
struct TypesContent {
    path: ImportPath,
    entries: Vec<DefinedType>,
}

/// The types of a package, shared by all that hold it. Contracts see its path and a list of entries in order of their keys.
pub struct PackageTypes {
    content: Arc<TypesContent>,
}

impl Drop for PackageTypes {
    fn drop(self) {
        let PackageTypes { content: _ } = self;
    }
}

impl Model for PackageTypes {
    ghost use Rattle.std.specs.Arc.{arc_value};
    ghost use Rattle.go_table_core.specs.Tables.{PackageTypesModel, package_types, ArePackageTypes};
    ghost use Rattle.go_table_core.specs.codes.EntryCodes.{coded_package_types};

    ghost Value = { PackageTypesModel };

    ghost coded = { coded_package_types };

    ghost view = { λ t. package_types (arc_value t.content).path (arc_value t.content).entries.items };

    ghost invariant = { λ t. ArePackageTypes (arc_value t.content).path (arc_value t.content).entries.items };
}

/// The types of a package of a table, with the number of the first in the table's list.
#[derive(Drop)]
struct Numbered {
    first: usize,
    types: PackageTypes,
}

/// A view of the types of several packages. Contracts see one list of entries.
pub struct TypeTable {
    /// How many types there are.
    len: usize,
    /// The packages that have types, by their paths, in the order in which they were added.
    packages: NameTable<Numbered>,
    /// The term of what is no type, to be lent.
    nothing: TypeTerm,
    alloc: Global,
}

impl Drop for TypeTable {
    fn drop(self) {
        let TypeTable {
            len: _,
            packages: _,
            nothing: _,
            alloc: _,
        } = self;
    }
}

impl Model for TypeTable {
    ghost use Rattle.std.specs.Prelude.{List};
    ghost use Rattle.std.specs.Coded.{coded_list};
    ghost use Rattle.go_term_core.specs.Shapes.{shape};
    ghost use Rattle.go_table_core.specs.Entries.{Entry};
    ghost use Rattle.go_table_core.specs.codes.EntryCodes.{coded_entry};
    ghost use Rattle.go_table_core.specs.mirrors.Holding.{all_entries, IsTable};

    ghost Value = { List Entry };

    ghost coded = { coded_list coded_entry };

    ghost view = { λ t. all_entries t.packages.names };

    ghost invariant = { λ t. IsTable t.len t.packages.names (shape t.nothing) };
}

/// A defined type of a table, with its place in the table's list of entries.
#[derive(Clone, Copy)]
pub struct Located<'a> {
    pub number: usize,
    pub defined: &'a DefinedType,
}

impl PackageTypes {
    /// The types of the package of a path, in order of file and place.
    ///
    /// # Errors
    ///
    /// `AllocError` where memory is wanting.
    pub fn new(
        alloc: Global,
        path: ImportPath,
        entries: Vec<DefinedType>,
    ) -> Result<PackageTypes, AllocError>
        requires own { AreOf path entries.items }
        requires rising { KeysRise entries.items }
        requires plain { All (λ e. IsUnnamed e.term) entries.items }
        ensures { IfOk result (λ types. types ≡ package_types path entries.items) }
    {
        let content = Arc::new(alloc, TypesContent { path, entries })?;
        Ok(PackageTypes { content })
    }

    /// The same types once more. It takes no memory.
    ///
    /// # Errors
    ///
    /// `AllocError` where they have too many owners.
    pub fn share(&self) -> Result<PackageTypes, AllocError>
        ensures { IfOk result (λ types. types ≡ self.now) }
    {
        Ok(PackageTypes {
            content: Arc::try_clone(&self.content)?,
        })
    }

    /// The path of the package.
    pub fn path(&self) -> &ImportPath
        ensures { result.now ≡ self.now.path }
    {
        &self.content.path
    }

    /// The types of the package, in order of file and place.
    pub fn types(&self) -> &[DefinedType]
        ensures value { result.now ≡ self.now.entries }
        ensures well { ArePackageTypes self.now.path self.now.entries }
    {
        self.content.entries.as_slice()
    }
}

/// The type of a key among the types of the key's package, with its place there.
fn locate_in<'a>(types: &'a [DefinedType], key: &DeclKey) -> Option<Located<'a>>
    requires { ArePackageTypes key.now.path types.now }
    ensures entry { option_map (λ l. l.defined.now) result ≡ find_entry types.now key.now }
    ensures number { IfSome result (λ l. IsPlaceOf types.now key.now l.number) }
{
    let found = types.binary_search_by(|defined| place_order(defined.key().decl, key.decl));
    match found {
        Ok(number) => {
            let defined = &types[number];
            if defined.key().decl == key.decl {
                Some(Located { number, defined })
            } else {
                None
            }
        }
        Err(_) => None,
    }
}

impl TypeTable {
    /// A table without types.
    pub fn new(alloc: Global) -> TypeTable
        ensures { result ≡ [] }
    {
        TypeTable {
            len: 0,
            packages: NameTable::new(alloc),
            nothing: TypeTerm::NoType,
            alloc,
        }
    }

    /// How many types the table has.
    pub fn len(&self) -> usize
        ensures value { result ≡ length self.now }
        ensures plain { All (λ e. IsUnnamed e.term) self.now }
    {
        self.len
    }

    /// Adds the types of a package behind the others. Nothing of them is copied.
    ///
    /// # Errors
    ///
    /// `AllocError` where memory is wanting, or where the types would be too many for a `usize`; the table is then as it was.
    pub fn add(&mut self, types: PackageTypes) -> Result<(), AllocError>
        requires { AreOthers types.path self.old }
        ensures ok { OnOk result (self.new ≡ self.old ++ types.entries) }
        ensures err { OnErr result (self.new ≡ self.old) }
    {
        let more = types.types().len();
        if more == 0 {
            return Ok(());
        }
        let len = match self.len.checked_add(more) {
            Some(len) => len,
            None => return Err(AllocError),
        };
        let named = types.share()?;
        let numbered = Numbered {
            first: self.len,
            types,
        };
        self.packages
            .add(self.alloc, named.path().as_str(), numbered)?;
        self.len = len;
        Ok(())
    }

    /// Whether the table has a type of a package.
    pub fn has_package(&self, path: &ImportPath) -> bool
        ensures { (result ≡ false) ↔ AreOthers path.now self.now }
    {
        self.packages.find(path.as_str()).is_some()
    }

    /// The defined type of a declaration, with its place in the table's list, or none where the table has none.
    pub fn locate<'a>(&'a self, key: &DeclKey) -> Option<Located<'a>>
        ensures entry { option_map (λ l. l.defined.now) result ≡ find_entry self.now key.now }
        ensures number { IfSome result (λ l. IsPlaceOf self.now key.now l.number) }
    {
        if self.len == 0 {
            return None;
        }
        let numbered = self.packages.find(key.path.as_str())?;
        let found = locate_in(numbered.types.types(), key)?;
        Some(Located {
            number: numbered.first + found.number,
            defined: found.defined,
        })
    }

    /// The underlying type of a type: of a defined type what it comes to with all names passed, of any other the type itself. No type where
    /// there is none. It takes no memory. The Go specification, "Underlying types".
    pub fn underlying<'a>(&'a self, term: &'a TypeTerm) -> &'a TypeTerm
        ensures { shape result.now ≡ underlying_in (find_entry self.now) (shape term.now) }
    {
        match term {
            TypeTerm::Defined(key) => match self.locate(key) {
                Some(located) => located.defined.underlying(),
                None => &self.nothing,
            },
            TypeTerm::NoType
            | TypeTerm::Basic(_)
            | TypeTerm::Error
            | TypeTerm::Pointer(_)
            | TypeTerm::Struct(_, _, _)
            | TypeTerm::Interface(_, _) => term,
        }
    }
}
