//! What is known of identifiers.
ghost use Rattle.std.specs.Prelude.{◌≡◌, [], if◌then◌else◌, OnOk};
ghost use Rattle.go_select_core.specs.mirrors.Names.{Identifier, identifier_in, key_shown, same_identifier, names_of, known_of, IsNoted, AreNoted};

use go_embed_core::Member;
use go_path_core::text_core::is_exported;
use std::alloc::{AllocError, Global};
use std::collections::BTreeMap;

/// An identifier: a name, with the path of the package where it is written, or with nothing where it is exported. So two are equal exactly
/// where the Go specification has them as the same ("Uniqueness of identifiers").
pub type Id<'a> = (&'a str, &'a str);

/// What is known of an identifier, by the shallowest depth at which a member has it.
#[derive(Clone, Copy)]
pub enum Known<'a> {
    /// One member alone has it there, of the type at a place, to which one path leads.
    One(usize, Member<'a>),
    /// More have it.
    More,
}

/// Identifiers with what is known of each, in order of their bytes.
#[derive(Drop)]
pub struct Names<'a> {
    pub known: BTreeMap<Id<'a>, Known<'a>>,
}

// The identifier of a member.
fn id_of<'a>(member: Member<'a>) -> Id<'a>
    ensures { key_shown result ≡ identifier_in member.entry }
{
    let name = member.name();
    if is_exported(name) {
        (name, "")
    } else {
        (name, member.package())
    }
}

// What is known of an identifier once a member of the type at a place has it. The types of the level stand from the place `first` on.
fn noted<'a>(
    known: Option<Known<'a>>,
    first: usize,
    place: usize,
    many: bool,
    member: Member<'a>,
) -> Known<'a>
    ensures { IsNoted known.entry first place many member.entry result }
{
    match known {
        None => {
            if many {
                return Known::More;
            }
            Known::One(place, member)
        }
        Some(Known::One(earlier, other)) => {
            if earlier >= first {
                return Known::More;
            }
            Known::One(earlier, other)
        }
        Some(Known::More) => Known::More,
    }
}

impl<'a> Names<'a> {
    /// No identifier.
    pub fn new(alloc: Global) -> Names<'a>
        ensures { names_of result ≡ [] }
    {
        Names {
            known: BTreeMap::new(alloc),
        }
    }

    /// What is known of an identifier.
    pub fn find(&self, id: Id<'a>) -> Option<Known<'a>>
        ensures { result ≡ known_of (names_of self.now) (key_shown id.entry) }
    {
        self.known.get(&id).copied()
    }

    // Notes what is known of an identifier.
    fn put(&mut self, id: Id<'a>, known: Known<'a>) -> Result<(), AllocError>
        ensures { OnOk result ((q : Identifier) → known_of (names_of self.new) q ≡ (if same_identifier (key_shown id.entry) q then Some known.entry else known_of (names_of self.old) q)) }
    {
        self.known.insert(id, known)?;
        Ok(())
    }

    /// Notes that a member of the type at a place has its identifier: that of a level whose types stand from the place `first` on.
    pub fn note(
        &mut self,
        first: usize,
        place: usize,
        many: bool,
        member: Member<'a>,
    ) -> Result<(), AllocError>
        ensures { OnOk result (AreNoted (names_of self.old) first place many member.entry (names_of self.new)) }
    {
        let id = id_of(member);
        let known = noted(self.find(id), first, place, many, member);
        self.put(id, known)
    }
}
