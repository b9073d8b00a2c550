//! What selectors denote behind operands of one type.
ghost use Rattle.std.specs.Bool.{OnTrue};
ghost use Rattle.std.specs.Prelude.{◌≡◌, length, if◌then◌else◌, IfOk, IfSome};
ghost use Rattle.go_term_core.specs.Terms.{PointerTo};
ghost use Rattle.go_term_core.specs.Shapes.{shape};
ghost use Rattle.go_embed_core.specs.table_core.Entries.{find_entry};
ghost use Rattle.go_select_core.specs.levels.Selectors.{IsSelectorAnswer, term_kind_in};
ghost use Rattle.go_select_core.specs.mirrors.Listings.{IsWithin};
ghost use Rattle.go_select_core.specs.surveys.Sole.{HasSameAnswers};
ghost use Rattle.go_select_core.specs.surveys.Surveys.{survey_of};
ghost use Rattle.go_select_core.specs.surveys.mirrors.Seen.{has_word};
ghost use Rattle.go_select_core.specs.surveys.mirrors.Told.{IsReached, operand_type};

use crate::Known;
use crate::levels::{Levels, Selected};
use crate::surveys::names::{hidden_in, known_from};
use crate::surveys::sole::is_alike;
use crate::surveys::walk::walk_from;
use go_embed_core::type_core::{TypeTable, TypeTerm};
use go_path_core::ImportPath;
use go_path_core::text_core::Rule;
use go_term_core::settling::{Kind, kind_of};
use std::alloc::{AllocError, Global};
use std::collections::{BTreeMap, BTreeSet};
use std::marker::Model;

/// What selectors denote behind operands of one type, which are written in one package. Contracts see the table, the type and the package's path.
pub struct Survey<'a> {
    table: &'a TypeTable,
    term: &'a TypeTerm,
    from: &'a ImportPath,
    levels: Levels<'a>,
    /// What is known of the names that members have which the package sees.
    known: BTreeMap<&'a str, Known<'a>>,
    /// The names that members have which are not exported.
    hidden: BTreeSet<&'a str>,
}

impl Drop for Survey<'_> {
    fn drop(self) {
        let Survey {
            table: _,
            term: _,
            from: _,
            levels: _,
            known: _,
            hidden: _,
        } = self;
    }
}

impl<'a> Model for Survey<'a> {
    ghost use Rattle.go_term_core.specs.Shapes.{shape};
    ghost use Rattle.go_select_core.specs.surveys.Surveys.{SurveyOf, survey_of};
    ghost use Rattle.go_select_core.specs.surveys.codes.SurveyCodes.{coded_survey};
    ghost use Rattle.go_select_core.specs.surveys.mirrors.Told.{IsTold};

    ghost Value = { SurveyOf };

    ghost coded = { coded_survey };

    ghost view = { λ s. survey_of s.table.now (shape s.term.now) s.from.now };

    ghost invariant = { λ s. IsTold s.table.now (shape s.term.now) s.from.now s.levels.trails s.levels.types.items s.known.entries s.hidden.keys };
}

// What a selector denotes by what is known of its name. Errors: M0, and S2 where more members have the name.
fn denoted<'a>(
    alloc: Global,
    levels: &Levels<'a>,
    known: Known<'a>,
    by_pointer: bool,
) -> Result<Selected<'a>, Rule>
    requires sized { length levels.now.trails ≡ length levels.now.types.items }
    requires within { IsWithin levels.now.types.items known }
    ensures { IsReached levels.now.trails levels.now.types.items by_pointer known.entry result }
{
    let Known::One(n, member) = known else {
        return Err(Rule::S2);
    };
    match levels.trails.path(alloc, n) {
        Ok(path) => Ok(Selected {
            member,
            path,
            through_pointer: by_pointer || levels.types[n].pointer,
        }),
        Err(_) => Err(Rule::M0),
    }
}

// Why a name denotes nothing that no member has, by the names that are not exported.
fn missing(hidden: &BTreeSet<&str>, name: &str) -> Rule
    ensures { result ≡ if has_word hidden.now.keys name.now then Rule.S3 else Rule.S1 }
{
    if hidden.contains(name) {
        Rule::S3
    } else {
        Rule::S1
    }
}

// A survey of a type that is neither a pointer type nor an interface type.
fn surveyed<'a>(
    alloc: Global,
    table: &'a TypeTable,
    term: &'a TypeTerm,
    from: &'a ImportPath,
    room: usize,
) -> Result<Option<Survey<'a>>, AllocError>
    requires { term_kind_in (find_entry table.now) (shape term.now) ≡ Kind.Other }
    ensures { IfOk result (λ made. IfSome made (λ s. s ≡ survey_of table.now (shape term.now) from.now)) }
{
    let Some(walk) = walk_from(alloc, table, term, room)? else {
        return Ok(None);
    };
    let known = known_from(alloc, &walk.names, from)?;
    let hidden = hidden_in(alloc, &walk.names)?;
    Ok(Some(Survey {
        table,
        term,
        from,
        levels: walk.levels,
        known,
        hidden,
    }))
}

impl<'a> Survey<'a> {
    /// What selectors denote behind operands of a type, and of pointers to it, where they are written in the package `from`. None where the
    /// type is a pointer type, an interface type or no type, and where the types that paths reach, with their fields and methods, are more than
    /// `room`.
    ///
    /// It goes once through the fields and methods of these types.
    ///
    /// # Errors
    ///
    /// `AllocError` where memory is wanting.
    pub fn of(
        alloc: Global,
        table: &'a TypeTable,
        term: &'a TypeTerm,
        from: &'a ImportPath,
        room: usize,
    ) -> Result<Option<Survey<'a>>, AllocError>
        ensures { IfOk result (λ made. IfSome made (λ s. s ≡ survey_of table.now (shape term.now) from.now)) }
    {
        match kind_of(table.underlying(term)) {
            Kind::Nothing => Ok(None),
            Kind::Pointer => Ok(None),
            Kind::Interface => Ok(None),
            Kind::Other => surveyed(alloc, table, term, from, room),
        }
    }

    /// The type.
    pub fn term(&self) -> &'a TypeTerm
        ensures { shape result.now ≡ self.now.term }
    {
        self.term
    }

    /// The package where the selectors are written.
    pub fn from(&self) -> &'a ImportPath
        ensures { result.now ≡ self.now.from }
    {
        self.from
    }

    /// Whether the survey tells of a name what it denotes behind operands of a type too, and of pointers to it. It is so of the survey's type,
    /// and of one that embeds the same type, where each embeds it by its only embedded field, at the same place, and has itself no member that
    /// is spelled so; the types that they embed may be two of which this holds, up to eight of them one behind the other. It takes no memory.
    pub fn tells(&self, term: &TypeTerm, name: &str) -> bool
        ensures { OnTrue result (HasSameAnswers (find_entry self.now.entries) self.now.term (shape term.now) name.now self.now.from) }
    {
        is_alike(self.table, self.term, term, name, self.from)
    }

    // What the selector `x.name` denotes for an operand `x` of the type or, where it is so said, of a pointer to it. Errors: as of `select`.
    fn answer(&self, alloc: Global, by_pointer: bool, name: &str) -> Result<Selected<'a>, Rule>
        ensures { IsSelectorAnswer (find_entry self.now.entries) (operand_type by_pointer self.now.term) name.now self.now.from result }
    {
        if name == "_" {
            return Err(Rule::S8);
        }
        match self.known.get(name).copied() {
            Some(known) => denoted(alloc, &self.levels, known, by_pointer),
            None => Err(missing(&self.hidden, name)),
        }
    }

    /// What the selector `x.name` denotes for an operand `x` of the type, as [`select`](crate::levels::select) answers it. Beside that
    /// of the path, time grows with the logarithm of the number of names.
    ///
    /// # Errors
    ///
    /// As of [`select`](crate::levels::select).
    pub fn select(&self, alloc: Global, name: &str) -> Result<Selected<'a>, Rule>
        ensures { IsSelectorAnswer (find_entry self.now.entries) self.now.term name.now self.now.from result }
    {
        self.answer(alloc, false, name)
    }

    /// What the selector `x.name` denotes for an operand `x` whose type is a pointer to the type, as
    /// [`select_behind_pointer`](crate::levels::select_behind_pointer) answers it. Beside that of the path, time grows with the logarithm of
    /// the number of names.
    ///
    /// # Errors
    ///
    /// As of [`select`](crate::levels::select).
    pub fn select_behind_pointer(&self, alloc: Global, name: &str) -> Result<Selected<'a>, Rule>
        ensures { IsSelectorAnswer (find_entry self.now.entries) (PointerTo self.now.term) name.now self.now.from result }
    {
        self.answer(alloc, true, name)
    }
}
