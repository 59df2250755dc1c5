//! From tokens to expressions, from left to right. A place here is an index into the tokens.

ghost use Rattle.std.specs.Prelude.{◌≡◌, ◌≢◌, ◌+◌, ◌<◌, ◌≤◌, ℕ, suc, false, true, Ok, [], ◌∷◌, length, MatchOption, IfOk};
ghost use Rattle.lutree.specs.Tree.{view, views};
ghost use Rattle.lutree.specs.Tree as t;
ghost use Rattle.lusyn_grammar.specs.Tokens.{tok};
ghost use Rattle.lusyn_grammar.specs.Grammar.{truths};
ghost use Rattle.lusyn_grammar.specs.Reading as reading;
ghost use Rattle.lusyn_grammar.specs.Places.{first};
ghost use Rattle.lusyn_parser.specs.Places.{from};
ghost use Rattle.lusyn_parser.specs.Refused.{place};
ghost use Rattle.lusyn_parser.specs.Gives.{Gives, GivesPlace, EndsOperand, atom, ahead, next_view, operand_view, branch_view, branches_view, Reads};

use crate::error::Stop;
use crate::pieces::{
    Branch, Next, Operand, bare_label, both_of, boxed, byte_of, choice_of, first_of_two,
    operand_of, parted, truths, when,
};
use lubase::{Name, Number, SharedName};
use lusyn_grammar::{Fixed, Lexeme, Token, binding_of, infix_of, prefix_of};
use lutree::{Condition, Expr, Infix, Pattern, Prefix};
use std::alloc::Global;

#[derive(Clone, Copy)]
pub(crate) struct Reader<'t> {
    pub(crate) alloc: Global,
    pub(crate) tokens: &'t [Lexeme<'t>],
    /// The length of the text.
    pub(crate) end: usize,
}

/// Tokens.
impl<'t> Reader<'t> {
    pub(crate) fn token(&self, at: usize) -> Option<Token<'t>>
        ensures { MatchOption result (ahead self.now.tokens.now at ≡ [])
            (λ x. (ahead self.now.tokens.now at ≡ tok x ∷ ahead self.now.tokens.now (at + 1))
            × (at < length self.now.tokens.now)) }
    {
        match self.tokens.get(at) {
            Some(lexeme) => Some(lexeme.token),
            None => None,
        }
    }

    /// The place in the text of this token, or the text's end.
    pub(crate) fn byte(&self, at: usize) -> usize
        ensures { result ≡ place self.now.end (from self.now.tokens.now at) }
    {
        byte_of(self.tokens, self.end, at)
    }

    /// A number above that of the tokens, which no nesting and no repetition reaches.
    pub(crate) fn bound(&self) -> usize
        ensures { result ≡ (suc (length self.now.tokens.now)) }
    {
        self.tokens.len() + 1
    }

    /// The place after this token, if it stands here.
    pub(crate) fn passed(&self, wanted: Fixed, at: usize) -> Option<usize>
        ensures after { GivesPlace self.now.tokens.now at result
            (reading.after wanted (ahead self.now.tokens.now at)) }
        ensures within { MatchOption result (Unit {0}) (λ next. (next ≡ at + 1)
            × (at < length self.now.tokens.now)) }
    {
        match self.token(at) {
            Some(Token::Fixed(found)) if found == wanted => Some(at + 1),
            _ => None,
        }
    }

    pub(crate) fn begins(&self, wanted: Fixed, at: usize) -> bool
        ensures begins { result ≡ reading.begins wanted (ahead self.now.tokens.now at) }
        ensures within { result ≡ true → at < length self.now.tokens.now }
    {
        self.passed(wanted, at).is_some()
    }

    /// The place after this token, which has to stand here.
    pub(crate) fn after(&self, wanted: Fixed, at: usize) -> Result<usize, Stop>
        ensures after { Gives self.now.tokens.now (ahead self.now.tokens.now) result
            (reading.after wanted (ahead self.now.tokens.now at)) }
        ensures within { IfOk result (λ next. next ≡ at + 1) }
    {
        match self.passed(wanted, at) {
            Some(next) => Ok(next),
            None => Err(Stop::Refused(at)),
        }
    }

    /// The place after a semicolon that may be left out.
    pub(crate) fn past_semicolon(&self, at: usize) -> usize
        ensures past { ahead self.now.tokens.now result ≡ reading.past Fixed.Semicolon
            (ahead self.now.tokens.now at) }
        ensures within { at ≤ result }
    {
        match self.passed(Fixed::Semicolon, at) {
            Some(next) => next,
            None => at,
        }
    }

    pub(crate) fn begins_name(&self, at: usize) -> bool
        ensures begins { result ≡ reading.begins_name (ahead self.now.tokens.now at) }
        ensures within { result ≡ true → at < length self.now.tokens.now }
    {
        matches!(self.token(at), Some(Token::Name(_)))
    }

    pub(crate) fn name(&self, at: usize) -> Result<(Name, usize), Stop>
        ensures name { Reads self.now.tokens.now at (λ a. a) result reading.name }
        ensures within { IfOk result (λ x. x.1 ≡ at + 1) }
    {
        match self.token(at) {
            Some(Token::Name(name)) => Ok((Name::from_text(self.alloc, name)?, at + 1)),
            _ => Err(Stop::Refused(at)),
        }
    }

    /// A name that may be shared.
    fn shared_name(&self, at: usize) -> Result<(SharedName, usize), Stop>
        ensures name { Reads self.now.tokens.now at (λ a. a) result reading.name }
        ensures within { IfOk result (λ x. x.1 ≡ at + 1) }
    {
        match self.token(at) {
            Some(Token::Name(name)) => Ok((SharedName::from_text(self.alloc, name)?, at + 1)),
            _ => Err(Stop::Refused(at)),
        }
    }

    /// The variable of a clock with this label, after the parenthesis that opens it, up to the one that
    /// closes it.
    fn labelled_clock(&self, label: SharedName, at: usize) -> Result<(Condition, usize), Stop>
        ensures condition { Reads self.now.tokens.now at (λ a. a) result
            (reading.labelled_clock label) }
        ensures within { IfOk result (λ x. at < x.1) }
    {
        let (variable, next) = self.shared_name(at)?;
        let next = self.after(Fixed::Close, next)?;
        let pattern = Pattern::Label(bare_label(label));
        Ok((Condition { variable, pattern }, next))
    }

    /// After a name: it is the variable, unless a parenthesis follows it.
    fn clock_from(&self, name: SharedName, at: usize) -> Result<(Condition, usize), Stop>
        ensures condition { Reads self.now.tokens.now at (λ a. a) result
            (reading.clock_from name) }
        ensures within { IfOk result (λ x. at ≤ x.1) }
    {
        match self.passed(Fixed::Open, at) {
            Some(next) => self.labelled_clock(name, next),
            None => {
                let pattern = Pattern::Truth(true);
                let condition = Condition {
                    variable: name,
                    pattern,
                };
                Ok((condition, at))
            }
        }
    }

    /// After `not`: the variable.
    fn negated(&self, at: usize) -> Result<(Condition, usize), Stop>
        ensures condition { Reads self.now.tokens.now at (λ a. a) result reading.negated }
        ensures within { IfOk result (λ x. at < x.1) }
    {
        let (variable, next) = self.shared_name(at)?;
        let pattern = Pattern::Truth(false);
        Ok((Condition { variable, pattern }, next))
    }

    /// `[ "not" ] ident`, or `ident "(" ident ")"`
    pub(crate) fn condition(&self, at: usize) -> Result<(Condition, usize), Stop>
        ensures condition { Reads self.now.tokens.now at (λ a. a) result reading.condition }
        ensures within { IfOk result (λ x. at < x.1) }
    {
        match self.passed(Fixed::Not, at) {
            Some(next) => self.negated(next),
            None => {
                let (name, next) = self.shared_name(at)?;
                self.clock_from(name, next)
            }
        }
    }

    fn next_of(&self, at: usize) -> Next
        ensures next { next_view result ≡ reading.next (ahead self.now.tokens.now at) }
        ensures past { result ≢ Next.Nothing → ahead self.now.tokens.now (at + 1)
            ≡ reading.tail (ahead self.now.tokens.now at) }
        ensures within { result ≢ Next.Nothing → at < length self.now.tokens.now }
    {
        match self.token(at) {
            Some(Token::Fixed(Fixed::When)) => Next::Clock,
            Some(Token::Fixed(Fixed::Open)) => Next::Parenthesis,
            Some(Token::Fixed(fixed)) => match infix_of(fixed) {
                Some(op) => Next::Operator(op),
                None => Next::Nothing,
            },
            _ => Next::Nothing,
        }
    }
}

/// Expressions from their operands.
impl<'t> Reader<'t> {
    fn unary(&self, op: Prefix, a: Expr) -> Result<Expr, Stop>
        ensures { Gives self.now.tokens.now view result (Ok (t.unary op (view a))) }
    {
        Ok(Expr::Unary(op, boxed(self.alloc, a)?))
    }

    fn binary(&self, op: Infix, a: Box<Expr>, b: Expr) -> Result<Expr, Stop>
        ensures { Gives self.now.tokens.now view result (Ok (t.binary op (view a.value) (view b))) }
    {
        Ok(Expr::Binary(op, a, boxed(self.alloc, b)?))
    }

    /// The merge on this variable with a branch for each truth: the one that was put first, and another
    /// behind it.
    fn both(&self, variable: SharedName, first: Vec<Expr>, b: Expr) -> Result<Expr, Stop>
        ensures { (a : Expr) → first.items ≡ a ∷ [] → Gives self.now.tokens.now view result
            (Ok (t.merge variable truths (t.more (view a) (t.more (view b) t.none)))) }
    {
        let branches = both_of(first, b)?;
        Ok(Expr::Merge(variable, truths(self.alloc)?, branches))
    }

    /// The merge on this variable with these branches.
    fn merged(&self, variable: SharedName, found: Vec<Branch>) -> Result<Expr, Stop>
        ensures { Gives self.now.tokens.now view result
            (Ok (reading.merged variable (branches_view found.items))) }
    {
        let (patterns, branches) = parted(self.alloc, found)?;
        Ok(Expr::Merge(variable, patterns, branches))
    }

    /// What was read, as an operand of this level.
    fn operand(&self, level: u8, read: Result<(Expr, usize), Stop>) -> Result<Operand, Stop>
        ensures operand { (reported : reading.Read t.Tree) → Gives self.now.tokens.now
            (λ x. (view x.0, ahead self.now.tokens.now x.1)) read reported
            → Gives self.now.tokens.now (operand_view self.now.tokens.now) result
            (reading.at_level level reported) }
        ensures within { (at : ℕ) → IfOk read (λ x. at ≤ x.1) → IfOk result (λ x. at ≤ x.next) }
    {
        Ok(operand_of(level, read?))
    }

    /// What was read, and the closing parenthesis after it.
    fn closed(&self, read: (Expr, usize)) -> Result<(Expr, usize), Stop>
        ensures closed { Gives self.now.tokens.now (λ x. (view x.0, ahead self.now.tokens.now x.1))
            result (reading.closed (Ok (view read.0, ahead self.now.tokens.now read.1))) }
        ensures within { IfOk result (λ x. read.1 ≤ x.1) }
    {
        let (found, next) = read;
        Ok((found, self.after(Fixed::Close, next)?))
    }

    /// The expression `current x`, from behind its first word on.
    fn current(&self, at: usize) -> Result<(Expr, usize), Stop>
        ensures within { IfOk result (λ x. at ≤ x.1) }
        ensures current { Reads self.now.tokens.now at view result reading.current }
    {
        let (variable, next) = self.name(at)?;
        Ok((Expr::Current(variable), next))
    }
}

/// Names and constants.
impl<'t> Reader<'t> {
    /// Whether a name or a constant before this place is not called, and no operator of this level or above
    /// follows it.
    fn ends_at(&self, least: u8, at: usize) -> bool
        ensures { result ≡ true → EndsOperand least (ahead self.now.tokens.now at) }
    {
        if self.begins(Fixed::Open, at) {
            return false;
        }
        match self.next_of(at) {
            Next::Operator(op) => {
                let binding = binding_of(op);
                if least <= binding.level {
                    return false;
                }
                true
            }
            Next::Clock | Next::Parenthesis => false,
            Next::Nothing => true,
        }
    }

    /// Whether an expression of this level or above is a name or a constant alone.
    fn is_atom(&self, least: u8, at: usize) -> bool
        ensures { result ≡ true → (depth : ℕ) → reading.expr (suc depth) least
            (ahead self.now.tokens.now at) ≡ atom (ahead self.now.tokens.now at) }
    {
        match self.token(at) {
            Some(Token::Name(_)) => self.ends_at(least, at + 1),
            Some(Token::Number(_)) => self.ends_at(least, at + 1),
            Some(Token::Fixed(Fixed::True)) => self.ends_at(least, at + 1),
            Some(Token::Fixed(Fixed::False)) => self.ends_at(least, at + 1),
            _ => false,
        }
    }

    /// A name or a constant alone.
    fn atom(&self, at: usize) -> Result<(Expr, usize), Stop>
        ensures atom { Reads self.now.tokens.now at view result atom }
        ensures within { IfOk result (λ x. at ≤ x.1) }
    {
        match self.token(at) {
            Some(Token::Name(name)) => {
                Ok((Expr::Variable(Name::from_text(self.alloc, name)?), at + 1))
            }
            Some(Token::Number(n)) => Ok((Expr::Number(Number::at_most(n)), at + 1)),
            Some(Token::Fixed(Fixed::True)) => Ok((Expr::Truth(true), at + 1)),
            Some(Token::Fixed(Fixed::False)) => Ok((Expr::Truth(false), at + 1)),
            _ => Err(Stop::Refused(at)),
        }
    }
}

/// Expressions. A depth bounds how deeply they are nested. An operand is put in memory of its own before what
/// follows it is read: what is dropped where that fails is then a box and not an expression of eleven forms,
/// each of which the proof would go through.
impl<'t> Reader<'t> {
    /// An expression of this level or above, and the place after it.
    #[cycle(parser)]
    fn expr(&self, depth: usize, least: u8, at: usize) -> Result<(Expr, usize), Stop>
        ensures expr { Reads self.now.tokens.now at view result (reading.expr depth least) }
        ensures within { IfOk result (λ x. at ≤ x.1) }
    {
        if depth == 0 {
            return Err(Stop::Refused(at));
        }
        if self.is_atom(least, at) {
            return self.atom(at);
        }
        self.compound(depth - 1, least, at)
    }

    /// An operand, and the operators after it.
    #[cycle(parser)]
    #[tactic(auto, unfolding(lusyn_grammar::specs::Reading::expr, lusyn_grammar::specs::Reading::whole))]
    fn compound(&self, depth: usize, least: u8, at: usize) -> Result<(Expr, usize), Stop>
        ensures expr { Reads self.now.tokens.now at view result (reading.expr (suc depth) least) }
        ensures within { IfOk result (λ x. at ≤ x.1) }
    {
        let operand = self.head(depth, least, at)?;
        self.climb(depth, depth, least, operand)
    }

    /// An operand before any operator follows it.
    #[cycle(parser)]
    #[tactic(auto, unfolding(lusyn_grammar::specs::Reading::head, lusyn_grammar::specs::Reading::inside))]
    fn head(&self, depth: usize, least: u8, at: usize) -> Result<Operand, Stop>
        ensures head { Gives self.now.tokens.now (operand_view self.now.tokens.now) result
            (reading.head (reading.expr depth) depth least (ahead self.now.tokens.now at)) }
        ensures within { IfOk result (λ x. at ≤ x.next) }
    {
        match self.token(at) {
            Some(Token::Name(name)) => self.operand(10, self.named(depth, name, at + 1)),
            Some(Token::Number(n)) => {
                Ok(operand_of(10, (Expr::Number(Number::at_most(n)), at + 1)))
            },
            Some(Token::Fixed(Fixed::True)) => Ok(operand_of(10, (Expr::Truth(true), at + 1))),
            Some(Token::Fixed(Fixed::False)) => Ok(operand_of(10, (Expr::Truth(false), at + 1))),
            Some(Token::Fixed(Fixed::Merge)) => self.operand(10, self.merge(depth, at + 1)),
            Some(Token::Fixed(Fixed::Open)) => {
                let inner = self.expr(depth, 0, at + 1)?;
                self.operand(10, self.closed(inner))
            }
            Some(Token::Fixed(Fixed::If)) => {
                if least > 0 {
                    return Err(Stop::Refused(at));
                }
                self.operand(0, self.choice(depth, at + 1))
            }
            Some(Token::Fixed(Fixed::Current)) => {
                if least > 8 {
                    return Err(Stop::Refused(at));
                }
                self.operand(8, self.current(at + 1))
            }
            Some(Token::Fixed(fixed)) => {
                let Some(op) = prefix_of(fixed) else {
                    return Err(Stop::Refused(at));
                };
                if least > 8 {
                    return Err(Stop::Refused(at));
                }
                let (found, next) = self.expr(depth, 8, at + 1)?;
                Ok(operand_of(8, (self.unary(op, found)?, next)))
            }
            None => Err(Stop::Refused(at)),
        }
    }

    /// An expression behind this token, which has to stand here.
    #[cycle(parser)]
    pub(crate) fn behind(
        &self,
        depth: usize,
        wanted: Fixed,
        at: usize,
    ) -> Result<(Expr, usize), Stop>
        ensures expr { Reads self.now.tokens.now at view result
            (λ ts. reading.◌>>=◌ (reading.after wanted ts) (reading.expr depth 0)) }
        ensures within { IfOk result (λ x. at ≤ x.1) }
    {
        let next = self.after(wanted, at)?;
        self.expr(depth, 0, next)
    }

    /// An expression behind this token, which has to stand here, in memory of its own.
    #[cycle(parser)]
    fn part(&self, depth: usize, wanted: Fixed, at: usize) -> Result<(Box<Expr>, usize), Stop>
        ensures expr { Reads self.now.tokens.now at (λ a. view a.value) result
            (λ ts. reading.◌>>=◌ (reading.after wanted ts) (reading.expr depth 0)) }
        ensures within { IfOk result (λ x. at ≤ x.1) }
    {
        let (found, next) = self.behind(depth, wanted, at)?;
        Ok((boxed(self.alloc, found)?, next))
    }

    /// The expression of a branch of `merge`, behind its arrow, and the parenthesis that closes the branch.
    #[cycle(parser)]
    #[tactic(auto, unfolding(lusyn_grammar::specs::Reading::inside))]
    fn arrowed(&self, depth: usize, at: usize) -> Result<(Expr, usize), Stop>
        ensures inside { Reads self.now.tokens.now at view result (λ ts. reading.◌>>=◌
            (reading.after Fixed.Arrow ts) (reading.inside (reading.expr depth))) }
        ensures within { IfOk result (λ x. at ≤ x.1) }
    {
        let inner = self.behind(depth, Fixed::Arrow, at)?;
        self.closed(inner)
    }

    /// After `if`.
    #[cycle(parser)]
    #[tactic(auto, unfolding(lusyn_grammar::specs::Reading::choice))]
    fn choice(&self, depth: usize, at: usize) -> Result<(Expr, usize), Stop>
        ensures choice { Reads self.now.tokens.now at view result
            (reading.choice (reading.expr depth)) }
        ensures within { IfOk result (λ x. at ≤ x.1) }
    {
        let (test, next) = self.expr(depth, 0, at)?;
        let test = boxed(self.alloc, test)?;
        let (first, next) = self.part(depth, Fixed::Then, next)?;
        let (second, next) = self.part(depth, Fixed::Else, next)?;
        Ok((choice_of(test, first, second), next))
    }

    /// A branch of `merge`, with the truth that it begins with.
    #[cycle(parser)]
    #[tactic(auto, unfolding(lusyn_grammar::specs::Reading::branch, lusyn_grammar::specs::Reading::inside))]
    fn branch(&self, depth: usize, sign: Fixed, at: usize) -> Result<(Expr, usize), Stop>
        ensures branch { Reads self.now.tokens.now at view result
            (reading.branch (reading.expr depth) sign) }
        ensures within { IfOk result (λ x. at ≤ x.1) }
    {
        let next = self.after(Fixed::Open, at)?;
        let next = self.after(sign, next)?;
        self.arrowed(depth, next)
    }

    /// After `merge v (true`, up to the end of the second branch.
    #[cycle(parser)]
    #[tactic(auto, unfolding(lusyn_grammar::specs::Reading::by_truths, lusyn_grammar::specs::Reading::inside))]
    fn by_truths(
        &self,
        depth: usize,
        variable: SharedName,
        at: usize,
    ) -> Result<(Expr, usize), Stop>
        ensures merge { Reads self.now.tokens.now at view result
            (reading.by_truths (reading.expr depth) variable) }
        ensures within { IfOk result (λ x. at ≤ x.1) }
    {
        let (first, next) = self.arrowed(depth, at)?;
        let first = first_of_two(self.alloc, first)?;
        let (second, next) = self.branch(depth, Fixed::False, next)?;
        Ok((self.both(variable, first, second)?, next))
    }

    /// After the parenthesis that opens it, a branch of `merge` with the name that it begins with.
    #[cycle(parser)]
    #[tactic(auto, unfolding(lusyn_grammar::specs::Reading::labelled, lusyn_grammar::specs::Reading::inside))]
    fn labelled(&self, depth: usize, at: usize) -> Result<(Branch, usize), Stop>
        ensures branch { Gives self.now.tokens.now (λ x. (
          branch_view x.0 ∷ [],
          ahead self.now.tokens.now x.1,
        )) result
            (reading.labelled (reading.expr depth) [] (ahead self.now.tokens.now at)) }
        ensures within { IfOk result (λ x. at ≤ x.1) }
    {
        let (label, next) = self.shared_name(at)?;
        let (value, next) = self.arrowed(depth, next)?;
        Ok((Branch { label, value }, next))
    }

    /// After `merge v (`, up to the end of the last branch.
    #[cycle(parser)]
    #[tactic(auto, unfolding(lusyn_grammar::specs::Reading::by_labels))]
    fn by_labels(
        &self,
        depth: usize,
        variable: SharedName,
        at: usize,
    ) -> Result<(Expr, usize), Stop>
        ensures merge { Reads self.now.tokens.now at view result
            (reading.by_labels (reading.expr depth) depth variable) }
        ensures within { IfOk result (λ x. at ≤ x.1) }
    {
        let (first, next) = self.labelled(depth, at)?;
        let mut found = Vec::new(self.alloc);
        found.push(first)?;
        let (found, next) = self.further_branches(depth, depth, found, next)?;
        Ok((self.merged(variable, found)?, next))
    }

    /// The branches after those found, each with a parenthesis before it, fewer than so many.
    #[cycle(parser)]
    #[tactic(auto, unfolding(lusyn_grammar::specs::Reading::many))]
    fn further_branches(
        &self,
        depth: usize,
        turns: usize,
        mut found: Vec<Branch>,
        at: usize,
    ) -> Result<(Vec<Branch>, usize), Stop>
        ensures branches { Reads self.now.tokens.now at (λ a. branches_view a.items) result
            (reading.many (reading.begins Fixed.Open)
            (reading.further_branch (reading.expr depth)) turns (branches_view found.items)) }
        ensures within { IfOk result (λ x. at ≤ x.1) }
    {
        let mut at = at;
        for _ in 0..turns {
            let Some(next) = self.passed(Fixed::Open, at) else {
                return Ok((found, at));
            };
            let (branch, next) = self.labelled(depth, next)?;
            found.push(branch)?;
            at = next;
        }
        Err(Stop::Refused(at))
    }

    /// After `merge`.
    #[cycle(parser)]
    #[tactic(auto, unfolding(lusyn_grammar::specs::Reading::merge))]
    fn merge(&self, depth: usize, at: usize) -> Result<(Expr, usize), Stop>
        ensures merge { Reads self.now.tokens.now at view result
            (reading.merge (reading.expr depth) depth) }
        ensures within { IfOk result (λ x. at ≤ x.1) }
    {
        let (variable, next) = self.shared_name(at)?;
        let next = self.after(Fixed::Open, next)?;
        match self.passed(Fixed::True, next) {
            Some(next) => self.by_truths(depth, variable, next),
            None => self.by_labels(depth, variable, next),
        }
    }

    /// After a name.
    #[cycle(parser)]
    #[tactic(auto, unfolding(lusyn_grammar::specs::Reading::named))]
    fn named(&self, depth: usize, name: &str, at: usize) -> Result<(Expr, usize), Stop>
        ensures named { Reads self.now.tokens.now at view result
            (reading.named (reading.expr depth) depth name.now) }
        ensures within { IfOk result (λ x. at ≤ x.1) }
    {
        let name = Name::from_text(self.alloc, name)?;
        let Some(next) = self.passed(Fixed::Open, at) else {
            return Ok((Expr::Variable(name), at));
        };
        let (operands, next) = self.operands(depth, next)?;
        Ok((Expr::Call(name, operands), next))
    }

    /// `[ expr { "," expr } ] ")"`
    #[cycle(parser)]
    #[tactic(auto, unfolding(lusyn_grammar::specs::Reading::operands))]
    pub(crate) fn operands(&self, depth: usize, at: usize) -> Result<(Vec<Expr>, usize), Stop>
        ensures operands { Reads self.now.tokens.now at (λ a. views a.items) result
            (reading.operands (reading.expr depth) depth) }
        ensures within { IfOk result (λ x. at ≤ x.1) }
    {
        let mut found = Vec::new(self.alloc);
        if let Some(next) = self.passed(Fixed::Close, at) {
            return Ok((found, next));
        }
        let (first, next) = self.expr(depth, 0, at)?;
        found.push(first)?;
        let (found, next) = self.further_operands(depth, depth, found, next)?;
        Ok((found, self.after(Fixed::Close, next)?))
    }

    /// The operands after those found, each with a comma before it, fewer than so many.
    #[cycle(parser)]
    #[tactic(auto, unfolding(lusyn_grammar::specs::Reading::many))]
    fn further_operands(
        &self,
        depth: usize,
        turns: usize,
        mut found: Vec<Expr>,
        at: usize,
    ) -> Result<(Vec<Expr>, usize), Stop>
        ensures operands { Reads self.now.tokens.now at (λ a. views a.items) result
            (reading.many (reading.begins Fixed.Comma)
            (reading.further_operand (reading.expr depth)) turns (views found.items)) }
        ensures within { IfOk result (λ x. at ≤ x.1) }
    {
        let mut at = at;
        for _ in 0..turns {
            let Some(next) = self.passed(Fixed::Comma, at) else {
                return Ok((found, at));
            };
            let (operand, next) = self.expr(depth, 0, next)?;
            found.push(operand)?;
            at = next;
        }
        Err(Stop::Refused(at))
    }

    /// The operators after an operand, at most so many.
    #[cycle(parser)]
    #[tactic(auto, unfolding(lusyn_grammar::specs::Reading::climb))]
    fn climb(
        &self,
        depth: usize,
        turns: usize,
        least: u8,
        operand: Operand,
    ) -> Result<(Expr, usize), Stop>
        ensures climb { Reads self.now.tokens.now operand.next view result
            (reading.climb (reading.expr depth) turns least operand.level (view operand.found)) }
        ensures within { IfOk result (λ x. operand.next ≤ x.1) }
    {
        let Operand {
            mut level,
            mut found,
            mut next,
        } = operand;
        for _ in 0..turns {
            match self.next_of(next) {
                Next::Operator(op) => {
                    let binding = binding_of(op);
                    if least > binding.level {
                        return Ok((found, next));
                    }
                    if binding.left > level {
                        return Ok((found, next));
                    }
                    let left = boxed(self.alloc, found)?;
                    let (right, after) = self.expr(depth, binding.right, next + 1)?;
                    found = self.binary(op, left, right)?;
                    level = binding.level;
                    next = after;
                    continue;
                }
                Next::Clock => {
                    if least > 9 {
                        return Ok((found, next));
                    }
                    if level < 9 {
                        return Ok((found, next));
                    }
                    let sampled = boxed(self.alloc, found)?;
                    let (clock, after) = self.condition(next + 1)?;
                    found = when(sampled, clock);
                    level = 9;
                    next = after;
                    continue;
                }
                Next::Parenthesis | Next::Nothing => return Ok((found, next)),
            }
        }
        Ok((found, next))
    }
}
