//! From tokens to equations.

ghost use Rattle.std.specs.Prelude.{◌≡◌, ◌+◌, ◌<◌, ◌≤◌, suc, true, Ok, [], ◌∷◌, length, IfOk};
ghost use Rattle.lutree.specs.Tree.{view, equation_view};
ghost use Rattle.lutree.specs.Places.{equation_places};
ghost use Rattle.lusyn_grammar.specs.Reading as reading;
ghost use Rattle.lusyn_grammar.specs.Places.{first};
ghost use Rattle.lusyn_parser.specs.Places.{from, Defines};
ghost use Rattle.lusyn_parser.specs.Refused.{place};
ghost use Rattle.lusyn_parser.specs.Gives.{ahead, names_view, equations_view, Reads, ReadsInto};

use crate::error::Stop;
use crate::pieces::plain;
use crate::reader::Reader;
use lubase::{Name, Row};
use lusyn_grammar::Fixed;
use lutree::{DeclaredName, Equation, Expr};

/// Equations.
impl<'t> Reader<'t> {
    /// A name as a row of its own.
    fn name_alone(&self, at: usize) -> Result<(Row<Name>, usize), Stop>
        ensures name { Reads self.now.tokens.now at (λ a. a) result
            (λ ts. reading.◌>>=◌ (reading.name ts) (λ x. Ok (x.0 ∷ [], x.1))) }
        ensures place { IfOk result (λ x. place self.now.end (from self.now.tokens.now at)
            ≡ first (from self.now.tokens.now at)) }
        ensures within { IfOk result (λ x. x.1 ≡ at + 1) }
    {
        let (name, next) = self.name(at)?;
        Ok((Row::new(vec![in self.alloc; name]?), next))
    }

    /// `ident "=" expr`
    #[tactic(auto, unfolding(lusyn_grammar::specs::Reading::single))]
    fn single(&self, at: usize) -> Result<(Equation, usize), Stop>
        ensures equation { Reads self.now.tokens.now at equation_view result
            (reading.single (suc (length self.now.tokens.now))) }
        ensures place { IfOk result (λ x. x.0.byte ≡ first (from self.now.tokens.now at)) }
        ensures within { IfOk result (λ x. at < x.1) }
    {
        let byte = self.byte(at);
        let (left, next) = self.name_alone(at)?;
        let (right, next) = self.behind(self.bound(), Fixed::Equal, next)?;
        Ok((Equation { left, right, byte }, next))
    }

    /// `ident "(" [ expr { "," expr } ] ")"`
    #[tactic(auto, unfolding(lusyn_grammar::specs::Reading::call))]
    fn call(&self, at: usize) -> Result<(Expr, usize), Stop>
        ensures call { Reads self.now.tokens.now at view result
            (reading.call (suc (length self.now.tokens.now))) }
        ensures within { IfOk result (λ x. at < x.1) }
    {
        let (name, next) = self.name(at)?;
        let next = self.after(Fixed::Open, next)?;
        let (operands, next) = self.operands(self.bound(), next)?;
        Ok((Expr::Call(name, operands), next))
    }

    /// After the parenthesis that opens them, two names and more, up to the one that closes them.
    #[tactic(auto, unfolding(lusyn_grammar::specs::Reading::tuple_names))]
    fn tuple_names(&self, at: usize) -> Result<(Vec<DeclaredName>, usize), Stop>
        ensures names { Reads self.now.tokens.now at (λ a. names_view a.items) result
            (reading.tuple_names (suc (length self.now.tokens.now))) }
        ensures within { IfOk result (λ x. at < x.1) }
    {
        let byte = self.byte(at);
        let (name, next) = self.name(at)?;
        let mut found = vec![in self.alloc; DeclaredName { name, byte }]?;
        let next = self.after(Fixed::Comma, next)?;
        let next = self.name_behind(&mut found, next)?;
        let next = self.further_names(&mut found, next)?;
        Ok((found, self.after(Fixed::Close, next)?))
    }

    /// The names of a tuple on the left of an equation, without their places.
    fn tuple_left(&self, at: usize) -> Result<(Row<Name>, usize), Stop>
        ensures names { Reads self.now.tokens.now at (λ a. a) result
            (reading.tuple_names (suc (length self.now.tokens.now))) }
        ensures within { IfOk result (λ x. at < x.1) }
    {
        let (names, next) = self.tuple_names(at)?;
        Ok((plain(self.alloc, names.as_slice())?, next))
    }

    /// After the parenthesis that opens the names: `ident "," ident { "," ident } ")" "=" call`
    #[tactic(auto, unfolding(lusyn_grammar::specs::Reading::tuple))]
    fn tuple(&self, at: usize, byte: usize) -> Result<(Equation, usize), Stop>
        ensures equation { Reads self.now.tokens.now at equation_view result
            (reading.tuple (suc (length self.now.tokens.now))) }
        ensures place { IfOk result (λ x. x.0.byte ≡ byte) }
        ensures within { IfOk result (λ x. at < x.1) }
    {
        let (left, next) = self.tuple_left(at)?;
        let next = self.after(Fixed::Equal, next)?;
        let (right, next) = self.call(next)?;
        Ok((Equation { left, right, byte }, next))
    }

    #[tactic(auto, unfolding(lusyn_grammar::specs::Reading::equation))]
    fn equation(&self, at: usize) -> Result<(Equation, usize), Stop>
        ensures equation { Reads self.now.tokens.now at equation_view result
            (reading.equation (suc (length self.now.tokens.now))) }
        ensures place { IfOk result (λ x. x.0.byte ≡ first (from self.now.tokens.now at)) }
        ensures within { IfOk result (λ x. at < x.1) }
    {
        match self.passed(Fixed::Open, at) {
            Some(next) => self.tuple(next, self.byte(at)),
            None => self.single(at),
        }
    }

    /// `equation ";"`
    fn ended_equation(&self, found: &mut Vec<Equation>, at: usize) -> Result<usize, Stop>
        ensures equation { ReadsInto self.now.tokens.now at (equations_view found.new.items) result
            (reading.ended_equation (suc (length self.now.tokens.now))
            (equations_view found.old.items)) }
        ensures places { IfOk result (λ next. Defines self.now.tokens.now at next
            (equation_places found.old.items) (equation_places found.new.items)) }
        ensures within { IfOk result (λ next. at < next) }
    {
        let (equation, next) = self.equation(at)?;
        found.push(equation)?;
        self.after(Fixed::Semicolon, next)
    }

    fn begins_equation(&self, at: usize) -> bool
        ensures begins { result ≡ reading.begins_equation (ahead self.now.tokens.now at) }
        ensures within { result ≡ true → at < length self.now.tokens.now }
    {
        self.begins_name(at) || self.begins(Fixed::Open, at)
    }

    #[tactic(auto, unfolding(lusyn_grammar::specs::Reading::equations))]
    pub(crate) fn equations(&self, at: usize) -> Result<(Vec<Equation>, usize), Stop>
        ensures equations { Reads self.now.tokens.now at (λ a. equations_view a.items) result
            (reading.equations (suc (length self.now.tokens.now))) }
        ensures places { IfOk result (λ x. Defines self.now.tokens.now at x.1 []
            (equation_places x.0.items)) }
        ensures within { IfOk result (λ x. at ≤ x.1) }
    {
        let mut found = Vec::new(self.alloc);
        let mut next = at;
        while self.begins_equation(next) {
            next = self.ended_equation(&mut found, next)?;
        }
        Ok((found, next))
    }
}
