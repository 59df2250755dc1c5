//! Nodes and whole programs, from the tokens.

ghost use Rattle.std.specs.Prelude.{◌≡◌, [], ◌∷◌, ℕ, ◌<◌, suc, length, map, IfOk};
ghost use Rattle.std.specs.Result.{IfErr};
ghost use Rattle.lutree.specs.Tree.{ProgramTree, node_view, program_view};
ghost use Rattle.lutree.specs.Places.{node_places, places_view};
ghost use Rattle.lusyn_grammar.specs.Tokens.{toks, located};
ghost use Rattle.lusyn_grammar.specs.Grammar.{Spells};
ghost use Rattle.lusyn_grammar.specs.Places.{places_in};
ghost use Rattle.lusyn_grammar.specs.Reading as reading;
ghost use Rattle.lusyn_parser.specs.Places.{Grows, HeadingPlaces, BodyPlaces};
ghost use Rattle.lusyn_parser.specs.Gives.{Gives, ahead, equations_view, nodes_view, heading_view, Reads, ReadsInto};
ghost use Rattle.lusyn_parser.specs.Refused.{IsAnswered, IsRefused, IsRefusedAt, IsWrongFrom};

use crate::error::{ParseError, Stop};
use crate::pieces::{Heading, byte_of};
use crate::reader::Reader;
use lubase::Row;
use lusyn_grammar::{Fixed, Lexeme};
use lutree::{Equation, Node, Program};
use std::alloc::Global;

/// Nodes.
impl<'t> Reader<'t> {
    /// `"node" ident "(" [ decls ] ")" "returns" "(" decls ")" [ ";" ]`
    #[tactic(auto, unfolding(lusyn_grammar::specs::Reading::heading))]
    fn heading(&self, at: usize) -> Result<(Heading, usize), Stop>
        ensures heading { Reads self.now.tokens.now at heading_view result
            (reading.heading (suc (length self.now.tokens.now))) }
        ensures places { IfOk result (λ x. HeadingPlaces self.now.tokens.now at x.1 x.0) }
        ensures within { IfOk result (λ x. at < x.1) }
    {
        let next = self.after(Fixed::Node, at)?;
        let byte = self.byte(next);
        let (name, next) = self.name(next)?;
        let next = self.after(Fixed::Open, next)?;
        let (inputs, next) = self.inputs(next)?;
        let next = self.after(Fixed::Close, next)?;
        let next = self.after(Fixed::Returns, next)?;
        let next = self.after(Fixed::Open, next)?;
        let (outputs, next) = self.declarations(next)?;
        let next = self.after(Fixed::Close, next)?;
        let heading = Heading {
            name,
            byte,
            inputs,
            outputs,
        };
        Ok((heading, self.past_semicolon(next)))
    }

    /// `"let" { equation ";" } "tel" [ ";" ]`
    #[tactic(auto, unfolding(lusyn_grammar::specs::Reading::body))]
    fn body(&self, at: usize) -> Result<(Vec<Equation>, usize), Stop>
        ensures body { Reads self.now.tokens.now at (λ a. equations_view a.items) result
            (reading.body (suc (length self.now.tokens.now))) }
        ensures places { IfOk result (λ x. BodyPlaces self.now.tokens.now at x.1 x.0.items) }
        ensures within { IfOk result (λ x. at < x.1) }
    {
        let next = self.after(Fixed::Let, at)?;
        let (equations, next) = self.equations(next)?;
        let next = self.after(Fixed::Tel, next)?;
        Ok((equations, self.past_semicolon(next)))
    }

    #[tactic(auto, unfolding(lusyn_grammar::specs::Reading::node))]
    fn node(&self, at: usize) -> Result<(Node, usize), Stop>
        ensures node { Reads self.now.tokens.now at node_view result
            (reading.node (suc (length self.now.tokens.now))) }
        ensures places { IfOk result (λ x. Grows self.now.tokens.now at x.1 []
            (map node_places (x.0 ∷ []))) }
        ensures within { IfOk result (λ x. at < x.1) }
    {
        let (heading, next) = self.heading(at)?;
        let (locals, next) = self.locals(next)?;
        let (equations, next) = self.body(next)?;
        let node = Node {
            name: heading.name,
            byte: heading.byte,
            inputs: Row::new(heading.inputs),
            outputs: Row::new(heading.outputs),
            locals: Row::new(locals),
            equations: Row::new(equations),
        };
        Ok((node, next))
    }

    fn further_node(&self, found: &mut Vec<Node>, at: usize) -> Result<usize, Stop>
        ensures node { ReadsInto self.now.tokens.now at (nodes_view found.new.items) result
            (reading.further_node (suc (length self.now.tokens.now)) (nodes_view found.old.items)) }
        ensures places { IfOk result (λ next. Grows self.now.tokens.now at next
            (map node_places found.old.items) (map node_places found.new.items)) }
        ensures within { IfOk result (λ next. at < next) }
    {
        let (node, next) = self.node(at)?;
        found.push(node)?;
        Ok(next)
    }

    /// `node { node }`
    #[tactic(auto, unfolding(lusyn_grammar::specs::Reading::nodes))]
    fn nodes(&self, at: usize) -> Result<(Vec<Node>, usize), Stop>
        ensures nodes { Reads self.now.tokens.now at (λ a. nodes_view a.items) result
            (reading.nodes (suc (length self.now.tokens.now))) }
        ensures places { IfOk result (λ x. Grows self.now.tokens.now at x.1 []
            (map node_places x.0.items)) }
    {
        let mut found = Vec::new(self.alloc);
        let mut next = self.further_node(&mut found, at)?;
        while self.begins(Fixed::Node, next) {
            next = self.further_node(&mut found, next)?;
        }
        Ok((found, next))
    }
}

#[tactic(auto, unfolding(lusyn_grammar::specs::Reading::all_of, lusyn_grammar::specs::Reading::program))]
fn all(alloc: Global, tokens: &[Lexeme<'_>], end: usize) -> Result<Program, Stop>
    ensures program { Gives tokens.now program_view result (reading.all_of (toks tokens.now)) }
    ensures places { IfOk result (λ found. places_view found ≡ places_in (located tokens.now)) }
{
    let reader = Reader { alloc, tokens, end };
    let (types, next) = reader.types(0)?;
    let (nodes, next) = reader.nodes(next)?;
    match reader.token(next) {
        None => Ok(Program {
            types: Row::new(types),
            nodes: Row::new(nodes),
        }),
        Some(_) => Err(Stop::Refused(next)),
    }
}

/// The program that all of the tokens spell. The text ends at the given place.
#[tactic(auto, using(crate::proofs::Whole::spelled_by))]
pub fn parse_tokens(alloc: Global, tokens: &[Lexeme<'_>], end: usize) -> Result<Program, ParseError>
    // What is answered is spelled so.
    ensures spelled { IfOk result (λ found. Spells (toks tokens.now) (program_view found)) }
    // Its places are those of the tokens.
    ensures places { IfOk result (λ found. places_view found ≡ places_in (located tokens.now)) }
    // What is spelled so is answered, unless memory runs out. So no tokens spell two programs.
    ensures only { (tree : ProgramTree) → Spells (toks tokens.now) tree → IsAnswered result tree }
    // The tokens before the one that is reported begin a program, and no program goes on with it.
    ensures refused { IfErr result (IsRefused (located tokens.now) end) }
    // Where that is so at a place, it is reported, unless memory runs out.
    ensures refuses { (byte : ℕ) → IsWrongFrom (located tokens.now) end byte
        → IsRefusedAt result byte }
{
    match all(alloc, tokens, end) {
        Ok(program) => Ok(program),
        Err(Stop::Refused(at)) => Err(ParseError::Syntax {
            byte: byte_of(tokens, end, at),
        }),
        Err(Stop::OutOfMemory) => Err(ParseError::OutOfMemory),
    }
}
