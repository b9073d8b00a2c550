//! What is declared of types.
ghost use Rattle.std.specs.Prelude.{◌≡◌, IfOk, IfSome, map};
ghost use Rattle.std.specs.Arc.{arc_value};
ghost use Rattle.go_term_core.specs.Shapes.{shape};
ghost use Rattle.go_table_core.specs.Shown.{member_shown, HidesRightly};
ghost use Rattle.go_table_core.specs.mirrors.Spots.{spells_some};
ghost use Rattle.go_table_core.specs.Methods.{term_fields};
ghost use Rattle.go_table_core.specs.MemberNames.{term_names};
ghost use Rattle.go_collections_core.specs.spelling_index.Spelled.{AreSpelled, places_of};

use crate::fields::FieldTable;
use crate::indexed::{IndexedTerm, method_index};
use go_collections_core::spelling_index::Spellings;
use go_collections_core::text_core::Name;
use go_term_core::decl_core::DeclKey;
use go_term_core::{MemberPlace, Signature, TypeTerm};
use std::alloc::{AllocError, Global};
use std::marker::Model;
use std::sync::Arc;

/// A method that is declared with a receiver.
pub struct DeclaredMethod {
    pub name: Name,
    pub place: MemberPlace,
    /// Whether its receiver is a pointer to the type.
    pub pointer: bool,
    pub signature: Signature,
}

impl Drop for DeclaredMethod {
    fn drop(self) {
        let DeclaredMethod {
            name: _,
            place: _,
            pointer: _,
            signature: _,
        } = self;
    }
}

/// A type declaration as it is written, with each name of a type that resolves as its declaration's key.
pub struct TypeEntry {
    pub key: DeclKey,
    pub name: Name,
    /// What it is defined by.
    pub term: TypeTerm,
    /// The methods whose receivers name it, in order of file and place.
    pub methods: Vec<DeclaredMethod>,
}

impl Drop for TypeEntry {
    fn drop(self) {
        let TypeEntry {
            key: _,
            name: _,
            term: _,
            methods: _,
        } = self;
    }
}

/// A defined type of a package. Contracts see its key, its name, its underlying type, and those of its methods that are its own by the
/// rules.
pub struct DefinedType {
    key: DeclKey,
    name: Name,
    underlying: Arc<IndexedTerm>,
    methods: Vec<DeclaredMethod>,
    /// Where the names of its methods stand among them, where they are many.
    spellings: Option<Spellings>,
    /// Whether a field of its struct type has the identifier of one of its methods, which keeps the field from it.
    hides: bool,
}

impl Drop for DefinedType {
    fn drop(self) {
        let DefinedType {
            key: _,
            name: _,
            underlying: _,
            methods: _,
            spellings: _,
            hides: _,
        } = self;
    }
}

impl Model for DefinedType {
    ghost use Rattle.go_table_core.specs.Entries.{Entry};
    ghost use Rattle.go_table_core.specs.codes.EntryCodes.{coded_entry};
    ghost use Rattle.go_table_core.specs.Shown.{defined_shown};
    ghost use Rattle.go_table_core.specs.mirrors.Kept.{IsDefined};

    ghost Value = { Entry };

    ghost coded = { coded_entry };

    ghost view = { λ d. defined_shown d.key d.name d.underlying d.methods };

    ghost invariant = { λ d. IsDefined d.hides d.spellings (defined_shown d.key d.name d.underlying d.methods) };
}

/// Whether a field of a struct type is spelled as one of these methods. It takes expected time that is linear in the methods.
fn spells_one_of(
    alloc: Global,
    underlying: &IndexedTerm,
    methods: &[DeclaredMethod],
) -> Result<bool, AllocError>
    ensures { IfOk result (λ spells. spells ≡ spells_some (map member_shown methods.now) (term_fields underlying.now)) }
{
    if methods.is_empty() {
        return Ok(false);
    }
    let fields = underlying.field_table(alloc)?;
    for method in methods {
        if fields.has_spelled(method.name.as_str()) {
            return Ok(true);
        }
    }
    Ok(false)
}

impl DefinedType {
    /// A defined type with its underlying type, which is shared, and its methods.
    ///
    /// # Errors
    ///
    /// `AllocError` where memory is wanting.
    pub fn new(
        alloc: Global,
        key: DeclKey,
        name: Name,
        underlying: Arc<IndexedTerm>,
        methods: Vec<DeclaredMethod>,
    ) -> Result<DefinedType, AllocError>
        ensures { IfOk result (λ d. d ≡ record { key = key; name = name; term = arc_value underlying; methods = map member_shown methods.items }) }
    {
        let hides = spells_one_of(alloc, &underlying, methods.as_slice())?;
        let spellings = method_index(alloc, methods.as_slice())?;
        Ok(DefinedType {
            key,
            name,
            underlying,
            methods,
            spellings,
            hides,
        })
    }

    /// Its declaration.
    pub fn key(&self) -> &DeclKey
        ensures { result.now ≡ self.now.key }
    {
        &self.key
    }

    /// Its name.
    pub fn name(&self) -> &Name
        ensures { result.now ≡ self.now.name }
    {
        &self.name
    }

    /// Its underlying type, or no type.
    pub fn underlying(&self) -> &TypeTerm
        ensures { shape result.now ≡ self.now.term }
    {
        self.underlying.term()
    }

    /// The fields of its underlying type. It takes constant time where they are many and in order.
    ///
    /// # Errors
    ///
    /// `AllocError` where memory is wanting.
    pub fn field_table(&self, alloc: Global) -> Result<FieldTable<'_>, AllocError>
        ensures { IfOk result (λ table. table ≡ self.now.term) }
    {
        self.underlying.field_table(alloc)
    }

    /// Its underlying type once more, to be shared with another defined type. It takes no memory.
    ///
    /// # Errors
    ///
    /// `AllocError` where the term has too many owners.
    pub fn share_underlying(&self) -> Result<Arc<IndexedTerm>, AllocError>
        ensures { IfOk result (λ u. arc_value u ≡ self.now.term) }
    {
        Arc::try_clone(&self.underlying)
    }

    /// The methods that are declared of it, in order of file and place.
    pub fn methods(&self) -> &[DeclaredMethod]
        ensures { map member_shown result.now ≡ self.now.methods }
    {
        self.methods.as_slice()
    }

    /// Where the names of its methods stand among them, where they are many; of few each is looked for.
    pub fn method_spellings(&self) -> Option<&Spellings>
        ensures { IfSome result (λ s. AreSpelled (places_of s.now) (map (λ m. m.name) self.now.methods)) }
    {
        match &self.spellings {
            Some(spellings) => Some(spellings),
            None => None,
        }
    }

    /// Where the names of the members of its underlying type stand among them, where they are many: of the fields of a struct type, or of
    /// the methods of an interface type. Of few each is looked for.
    pub fn member_spellings(&self) -> Option<&Spellings>
        ensures { IfSome result (λ s. AreSpelled (places_of s.now) (term_names self.now.term)) }
    {
        self.underlying.members()
    }

    /// Whether a method may keep a field from it: where this is false, none does.
    pub fn hides_fields(&self) -> bool
        ensures { HidesRightly result self.now }
    {
        self.hides
    }
}
