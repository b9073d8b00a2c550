//! The fields of struct types that have many, by an index of their names.
ghost use Rattle.std.specs.Prelude.{◌≡◌, IfSome, map, option_map};
ghost use Rattle.go_term_core.specs.Shapes.{shape};
ghost use Rattle.go_collections_core.specs.spelling_index.Spelled.{AreSpelled, places_of, spelled_in};
ghost use Rattle.go_table_core.specs.Entries.{find_entry};
ghost use Rattle.go_select_core.specs.embed_core.Owners.{owner_in};
ghost use Rattle.go_select_core.specs.embed_core.OwnersShown.{entry_owner};
ghost use Rattle.go_env_core.specs.Scenes.{SceneModel, scene_shown};
ghost use Rattle.go_env_core.specs.Fields.{literals_in, owner_seen};

use crate::scene::Scene;
use go_collections_core::spelling_index::Spellings;
use go_declared_core::handle_core::TypeRef;
use go_table_core::{DefinedType, TypeTable};
use go_term_core::TypeTerm;

// An index of the names of the fields of a defined type, where they are many and none is kept from it.
fn defined_index(defined: &DefinedType) -> Option<&Spellings>
    ensures { (s : SceneModel) → IfSome result (λ index. AreSpelled (places_of index.now) (map (λ f. f.name) (owner_seen s (entry_owner defined.now)))) }
{
    if defined.hides_fields() {
        return None;
    }
    match defined.underlying() {
        TypeTerm::Struct(_, _, _) => defined.member_spellings(),
        TypeTerm::NoType
        | TypeTerm::Basic(_)
        | TypeTerm::Error
        | TypeTerm::Defined(_)
        | TypeTerm::Pointer(_)
        | TypeTerm::Interface(_, _) => None,
    }
}

// An index of the names of the fields that the type of a term has.
fn term_index<'p>(table: &'p TypeTable, term: &'p TypeTerm) -> Option<&'p Spellings>
    ensures { (s : SceneModel) → IfSome result (λ index. AreSpelled (places_of index.now) (map (λ f. f.name) (owner_seen s (owner_in (find_entry table.now) (shape term.now))))) }
{
    match term {
        TypeTerm::Defined(key) => match table.locate(key) {
            Some(located) => defined_index(located.defined),
            None => None,
        },
        TypeTerm::NoType
        | TypeTerm::Basic(_)
        | TypeTerm::Error
        | TypeTerm::Pointer(_)
        | TypeTerm::Struct(_, _, _)
        | TypeTerm::Interface(_, _) => None,
    }
}

/// An index of the names of the fields of a type, where it is declared with many and no method keeps one from it. It takes no memory.
pub(crate) fn field_index<'p>(scene: &Scene<'p>, t: &TypeRef<'p>) -> Option<&'p Spellings>
    ensures { IfSome result (λ index. AreSpelled (places_of index.now) (map (λ f. f.name) ((literals_in (scene_shown scene.now)).fields t.now))) }
{
    let parts = t.parts();
    if parts.stars > 0 {
        return None;
    }
    term_index(scene.types, parts.term)
}

/// The place of the first name of an index that is spelled so.
pub(crate) fn first_place(index: &Spellings, name: &str) -> Option<usize>
    ensures { result ≡ option_map (λ s. s.first) (spelled_in (places_of index.now) name.now) }
{
    match index.find(name) {
        Some(spelling) => Some(spelling.first),
        None => None,
    }
}
