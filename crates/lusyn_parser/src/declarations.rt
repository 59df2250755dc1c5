//! Types and declarations, from the tokens.

ghost use Rattle.std.specs.Prelude.{◌≡◌, ◌+◌, ◌<◌, ◌++◌, ◌≤◌, suc, true, [], length, map, IfOk};
ghost use Rattle.std.specs.Result.{IfErr};
ghost use Rattle.lutree.specs.Tree.{declarations_view};
ghost use Rattle.lutree.specs.Places.{name_places, type_places, declaration_places};
ghost use Rattle.lusyn_grammar.specs.Grammar.{declared};
ghost use Rattle.lusyn_grammar.specs.Reading as reading;
ghost use Rattle.lusyn_parser.specs.Places.{Lists, Declares, LocalsPlaces, TypesGrow};
ghost use Rattle.lusyn_parser.specs.Gives.{ahead, name_behind, names_view, type_view, types_view, Reads, ReadsInto};

use crate::error::Stop;
use crate::pieces::{WrittenType, kind_of, shared, type_name_of};
use crate::reader::Reader;
use lubase::{Row, SharedName};
use lusyn_grammar::{Fixed, Token};
use lutree::{Condition, Declaration, DeclaredName, TypeDeclaration};

/// Declarations.
impl<'t> Reader<'t> {
    /// Reads one more name, and gives the place after it.
    pub(crate) fn name_behind(
        &self,
        found: &mut Vec<DeclaredName>,
        at: usize,
    ) -> Result<usize, Stop>
        ensures name { ReadsInto self.now.tokens.now at (names_view found.new.items) result
            (name_behind (names_view found.old.items)) }
        ensures places { IfOk result (λ next. Lists self.now.tokens.now at next
            (name_places found.old.items) (name_places found.new.items)) }
        ensures within { IfOk result (λ next. at < next) }
    {
        let byte = self.byte(at);
        let (name, next) = self.name(at)?;
        found.push(DeclaredName { name, byte })?;
        Ok(next)
    }

    /// `{ "," ident }` after the names found
    pub(crate) fn further_names(
        &self,
        found: &mut Vec<DeclaredName>,
        at: usize,
    ) -> Result<usize, Stop>
        ensures names { ReadsInto self.now.tokens.now at (names_view found.new.items) result
            (reading.many (reading.begins Fixed.Comma) reading.further_name
            (suc (length self.now.tokens.now)) (names_view found.old.items)) }
        ensures places { IfOk result (λ next. Lists self.now.tokens.now at next
            (name_places found.old.items) (name_places found.new.items)) }
        ensures within { IfOk result (λ next. at ≤ next) }
    {
        let mut next = at;
        while let Some(after) = self.passed(Fixed::Comma, next) {
            next = self.name_behind(found, after)?;
        }
        Ok(next)
    }

    /// `ident { "," ident }`
    #[tactic(auto, unfolding(lusyn_grammar::specs::Reading::names))]
    fn names(&self, at: usize) -> Result<(Vec<DeclaredName>, usize), Stop>
        ensures names { Reads self.now.tokens.now at (λ a. names_view a.items) result
            (reading.names (suc (length self.now.tokens.now))) }
        ensures places { IfOk result (λ x. Lists self.now.tokens.now at x.1 []
            (name_places x.0.items)) }
        ensures within { IfOk result (λ x. at < x.1) }
    {
        let byte = self.byte(at);
        let (name, next) = self.name(at)?;
        let mut found = vec![in self.alloc; DeclaredName { name, byte }]?;
        let next = self.further_names(&mut found, next)?;
        Ok((found, next))
    }

    /// `"int"`, `"bool"` or `ident`
    fn kind(&self, at: usize) -> Result<(WrittenType, usize), Stop>
        ensures kind { Reads self.now.tokens.now at type_view result reading.kind }
        ensures within { IfOk result (λ x. x.1 ≡ at + 1) }
    {
        match self.token(at) {
            Some(Token::Fixed(Fixed::Int)) => Ok((WrittenType::Int, at + 1)),
            Some(Token::Fixed(Fixed::Bool)) => Ok((WrittenType::Bool, at + 1)),
            Some(Token::Name(name)) => {
                let name = SharedName::from_text(self.alloc, name)?;
                Ok((WrittenType::Named(name), at + 1))
            }
            _ => Err(Stop::Refused(at)),
        }
    }

    /// `[ "when" clock ]`
    fn clocked(&self, at: usize) -> Result<(Option<Condition>, usize), Stop>
        ensures clock { Reads self.now.tokens.now at (λ a. a) result reading.clocked }
        ensures within { IfOk result (λ x. at ≤ x.1) }
    {
        let Some(next) = self.passed(Fixed::When, at) else {
            return Ok((None, at));
        };
        let (condition, next) = self.condition(next)?;
        Ok((Some(condition), next))
    }

    /// Declares these names after those found.
    fn declare(
        &self,
        found: &mut Vec<Declaration>,
        names: Vec<DeclaredName>,
        written: &WrittenType,
        clock: &Option<Condition>,
    ) -> Result<(), Stop>
        ensures ok { IfOk result (λ _. declarations_view found.new.items
            ≡ declarations_view found.old.items
            ++ map (declared (type_view written.now) clock.now) (names_view names.items)) }
        ensures places { IfOk result (λ _. declaration_places found.new.items
            ≡ declaration_places found.old.items ++ name_places names.items) }
        ensures err { IfErr result (λ e. e ≡ Stop.OutOfMemory) }
    {
        if found.is_empty() {
            // Most lists have one declaration, and so no room that is never used.
            found.reserve_exact(names.len())?;
        }
        for placed in names {
            let type_name = type_name_of(written)?;
            let clock = shared(clock)?;
            found.push(Declaration {
                name: placed.name,
                kind: kind_of(written),
                type_name,
                clock,
                byte: placed.byte,
            })?;
        }
        Ok(())
    }

    /// `ident { "," ident } ":" ( "int" | "bool" | ident ) [ "when" clock ]`
    #[tactic(auto, unfolding(lusyn_grammar::specs::Reading::declaration))]
    fn declaration(&self, found: &mut Vec<Declaration>, at: usize) -> Result<usize, Stop>
        ensures declaration { ReadsInto self.now.tokens.now at (declarations_view found.new.items)
            result (reading.declaration (suc (length self.now.tokens.now))
            (declarations_view found.old.items)) }
        ensures places { IfOk result (λ next. Declares self.now.tokens.now at next
            (declaration_places found.old.items) (declaration_places found.new.items)) }
        ensures within { IfOk result (λ next. at < next) }
    {
        let (names, next) = self.names(at)?;
        let next = self.after(Fixed::Colon, next)?;
        let (written, next) = self.kind(next)?;
        let (clock, next) = self.clocked(next)?;
        self.declare(found, names, &written, &clock)?;
        Ok(next)
    }

    /// `decl { ";" decl }`
    #[tactic(auto, unfolding(lusyn_grammar::specs::Reading::declarations))]
    pub(crate) fn declarations(&self, at: usize) -> Result<(Vec<Declaration>, usize), Stop>
        ensures declarations { Reads self.now.tokens.now at (λ a. declarations_view a.items) result
            (reading.declarations (suc (length self.now.tokens.now))) }
        ensures places { IfOk result (λ x. Declares self.now.tokens.now at x.1 []
            (declaration_places x.0.items)) }
        ensures within { IfOk result (λ x. at ≤ x.1) }
    {
        let mut found = Vec::new(self.alloc);
        let mut next = self.declaration(&mut found, at)?;
        while let Some(after) = self.passed(Fixed::Semicolon, next) {
            next = self.declaration(&mut found, after)?;
        }
        Ok((found, next))
    }

    /// `[ decls ]`
    #[tactic(auto, unfolding(lusyn_grammar::specs::Reading::inputs))]
    pub(crate) fn inputs(&self, at: usize) -> Result<(Vec<Declaration>, usize), Stop>
        ensures declarations { Reads self.now.tokens.now at (λ a. declarations_view a.items) result
            (reading.inputs (suc (length self.now.tokens.now))) }
        ensures places { IfOk result (λ x. Declares self.now.tokens.now at x.1 []
            (declaration_places x.0.items)) }
        ensures within { IfOk result (λ x. at ≤ x.1) }
    {
        if self.begins(Fixed::Close, at) {
            return Ok((Vec::new(self.alloc), at));
        }
        self.declarations(at)
    }

    /// `decl ";"`
    fn ended_declaration(&self, found: &mut Vec<Declaration>, at: usize) -> Result<usize, Stop>
        ensures declaration { ReadsInto self.now.tokens.now at (declarations_view found.new.items)
            result (reading.ended_declaration (suc (length self.now.tokens.now))
            (declarations_view found.old.items)) }
        ensures places { IfOk result (λ next. Declares self.now.tokens.now at next
            (declaration_places found.old.items) (declaration_places found.new.items)) }
        ensures within { IfOk result (λ next. at < next) }
    {
        let next = self.declaration(found, at)?;
        self.after(Fixed::Semicolon, next)
    }

    /// `[ "var" decl ";" { decl ";" } ]`
    #[tactic(auto, unfolding(lusyn_grammar::specs::Reading::locals))]
    pub(crate) fn locals(&self, at: usize) -> Result<(Vec<Declaration>, usize), Stop>
        ensures declarations { Reads self.now.tokens.now at (λ a. declarations_view a.items) result
            (reading.locals (suc (length self.now.tokens.now))) }
        ensures places { IfOk result (λ x. reading.begins Fixed.Let (ahead self.now.tokens.now x.1)
            ≡ true → LocalsPlaces self.now.tokens.now at x.1 x.0.items) }
        ensures within { IfOk result (λ x. at ≤ x.1) }
    {
        let mut found = Vec::new(self.alloc);
        let Some(after) = self.passed(Fixed::Var, at) else {
            return Ok((found, at));
        };
        let mut next = self.ended_declaration(&mut found, after)?;
        while self.begins_name(next) {
            next = self.ended_declaration(&mut found, next)?;
        }
        Ok((found, next))
    }
}

/// Types.
impl<'t> Reader<'t> {
    /// `"type" ident "=" "enum" "{" ident { "," ident } "}" ";"`
    #[tactic(auto, unfolding(lusyn_grammar::specs::Reading::type_declaration))]
    fn type_declaration(&self, found: &mut Vec<TypeDeclaration>, at: usize) -> Result<usize, Stop>
        ensures declaration { ReadsInto self.now.tokens.now at (types_view found.new.items) result
            (reading.type_declaration (suc (length self.now.tokens.now))
            (types_view found.old.items)) }
        ensures places { IfOk result (λ next. TypesGrow self.now.tokens.now at next
            (map type_places found.old.items) (map type_places found.new.items)) }
        ensures within { IfOk result (λ next. at < next) }
    {
        let next = self.after(Fixed::Type, at)?;
        let byte = self.byte(next);
        let (name, next) = self.name(next)?;
        let next = self.after(Fixed::Equal, next)?;
        let next = self.after(Fixed::Enum, next)?;
        let next = self.after(Fixed::OpenBrace, next)?;
        let (names, next) = self.names(next)?;
        let next = self.after(Fixed::CloseBrace, next)?;
        let next = self.after(Fixed::Semicolon, next)?;
        let names = Row::new(names);
        found.push(TypeDeclaration { name, byte, names })?;
        Ok(next)
    }

    /// `{ typedecl }`
    #[tactic(auto, unfolding(lusyn_grammar::specs::Reading::types))]
    pub(crate) fn types(&self, at: usize) -> Result<(Vec<TypeDeclaration>, usize), Stop>
        ensures types { Reads self.now.tokens.now at (λ a. types_view a.items) result
            (reading.types (suc (length self.now.tokens.now))) }
        ensures places { IfOk result (λ x. TypesGrow self.now.tokens.now at x.1 []
            (map type_places x.0.items)) }
    {
        let mut found = Vec::new(self.alloc);
        let mut next = at;
        while self.begins(Fixed::Type, next) {
            next = self.type_declaration(&mut found, next)?;
        }
        Ok((found, next))
    }
}
