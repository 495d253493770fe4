// Members of classes.

ghost use Rattle.std.specs.Prelude.{◌≡◌, ◌<◌, ◌≤◌, length, map, option_map, IfOk, IfSome};
ghost use Rattle.ss_ast.specs.Expressions.{name_tree, type_tree, type_name_tree};
ghost use Rattle.ss_ast.specs.Programs.{base_call_tree, member_kind_tree, member_tree};
ghost use Rattle.ss_grammar.specs.Stops.{Gives, GivesMore};
ghost use Rattle.ss_grammar_expressions.specs.Heads.{pieces};
ghost use Rattle.ss_parser_expression_trees.specs.View.{start_of};
ghost use Rattle.ss_grammar_programs.specs.Again.{another};
ghost use Rattle.ss_grammar_programs.specs.Heads.{begins_member};
ghost use Rattle.ss_grammar_programs.specs.Grammar.{join_word};
ghost use Rattle.ss_grammar_programs.specs.Parser.{fields, method, base_end, base_after, base, constructor, fields_or_method, typed, void_method, name_first, member_kind, words, member, members};

use crate::clauses::{parse_condition, parse_specified};
use crate::heads::{is_field_ahead, is_member, is_type_ahead, next_modifier};
use crate::params::{parse_attributes, parse_parameters};
use ss_ast::{
    BaseCall, Constructor, Declaration, Member, MemberKind, Method, Modifier, Name, Symbol, Token,
    TokenKind, TypeName, TypeRef, Word,
};
use ss_core::Place;
use ss_grammar::fault::{Fault, Stop};
use ss_parser::declarations::parse_decls_from;
use ss_parser_expression_trees::heads::{Start, expect, expect_name, expect_word};
use ss_parser_expressions::arguments::parse_args_end;
use ss_parser_expressions::types::parse_type_end;
use std::alloc::{AllocError, Global};

// Fields, after the type and the first name.
#[tactic(auto, unfolding(ss_grammar_programs::specs::Parser::fields, ss_grammar_statements::specs::Parser::ended))]
fn parse_fields(
    alloc: Global,
    depth: u32,
    ty: TypeRef,
    name: Name,
    tokens: &[Token],
) -> Result<(MemberKind, &[Token]), Stop>
    ensures gives { Gives (λ x. (member_kind_tree x.0, pieces x.1.now)) result (fields depth (type_tree ty) (name_tree name) (pieces tokens.now)) }
    ensures fewer { IfOk result (λ x. length x.1.now ≤ length tokens.now) }
{
    let (declarators, rest) = parse_decls_from(alloc, depth, name, tokens)?;
    let (_, rest) = expect(rest, Symbol::Semicolon)?;
    Ok((MemberKind::Fields(Declaration { ty, declarators }), rest))
}

// A method, after its name.
#[tactic(auto, unfolding(ss_grammar_programs::specs::Parser::method))]
fn parse_method(
    alloc: Global,
    depth: u32,
    returns: Option<TypeRef>,
    name: Name,
    tokens: &[Token],
) -> Result<(MemberKind, &[Token]), Stop>
    ensures gives { Gives (λ x. (member_kind_tree x.0, pieces x.1.now)) result (method depth (option_map type_tree returns) (name_tree name) (pieces tokens.now)) }
    ensures fewer { IfOk result (λ x. length x.1.now ≤ length tokens.now) }
{
    let (params, rest) = parse_parameters(alloc, depth, tokens)?;
    let ((clauses, body), rest) = parse_specified(alloc, depth, rest)?;
    Ok((
        MemberKind::Method(Method {
            returns,
            name,
            params,
            clauses,
            body,
        }),
        rest,
    ))
}

// The arguments of a call of `base`, which is at this place, after their `(`.
#[tactic(auto, unfolding(ss_grammar_programs::specs::Parser::base_end))]
fn parse_base_end(
    alloc: Global,
    depth: u32,
    place: Place,
    tokens: &[Token],
) -> Result<(Option<BaseCall>, &[Token]), Stop>
    requires { 0 < depth }
    ensures gives { Gives (λ x. (option_map base_call_tree x.0, pieces x.1.now)) result (base_end place depth (pieces tokens.now)) }
    ensures fewer { IfOk result (λ x. length x.1.now ≤ length tokens.now) }
{
    let (arguments, rest) = parse_args_end(alloc, depth, tokens)?;
    Ok((Some(BaseCall { place, arguments }), rest))
}

// The same with the `(`.
#[tactic(auto, unfolding(ss_grammar_programs::specs::Parser::base_after))]
fn parse_base_after(
    alloc: Global,
    depth: u32,
    place: Place,
    tokens: &[Token],
) -> Result<(Option<BaseCall>, &[Token]), Stop>
    ensures gives { Gives (λ x. (option_map base_call_tree x.0, pieces x.1.now)) result (base_after depth place (pieces tokens.now)) }
    ensures fewer { IfOk result (λ x. length x.1.now ≤ length tokens.now) }
{
    match tokens {
        [
            Token {
                kind: TokenKind::Symbol(Symbol::Open),
                ..
            },
            rest @ ..,
        ] => {
            if depth == 0 {
                return Err(Stop::Fault(Fault::TooDeep, tokens.len()));
            }
            parse_base_end(alloc, depth, place, rest)
        }
        _ => Err(Stop::Fault(Fault::Expected, tokens.len())),
    }
}

// A `: base(..)`, where one stands.
#[tactic(auto, unfolding(ss_grammar_programs::specs::Parser::base))]
fn parse_base(
    alloc: Global,
    depth: u32,
    tokens: &[Token],
) -> Result<(Option<BaseCall>, &[Token]), Stop>
    ensures gives { Gives (λ x. (option_map base_call_tree x.0, pieces x.1.now)) result (base depth (pieces tokens.now)) }
    ensures fewer { IfOk result (λ x. length x.1.now ≤ length tokens.now) }
{
    match tokens {
        [
            Token {
                kind: TokenKind::Symbol(Symbol::Colon),
                ..
            },
            rest @ ..,
        ] => {
            let (place, rest) = expect_word(rest, Word::Base)?;
            parse_base_after(alloc, depth, place, rest)
        }
        _ => Ok((None, tokens)),
    }
}

// A constructor, after its name.
#[tactic(auto, unfolding(ss_grammar_programs::specs::Parser::constructor))]
fn parse_constructor(
    alloc: Global,
    depth: u32,
    name: Name,
    tokens: &[Token],
) -> Result<(MemberKind, &[Token]), Stop>
    ensures gives { Gives (λ x. (member_kind_tree x.0, pieces x.1.now)) result (constructor depth (name_tree name) (pieces tokens.now)) }
    ensures fewer { IfOk result (λ x. length x.1.now ≤ length tokens.now) }
{
    let (params, rest) = parse_parameters(alloc, depth, tokens)?;
    let (base, rest) = parse_base(alloc, depth, rest)?;
    let ((clauses, body), rest) = parse_specified(alloc, depth, rest)?;
    Ok((
        MemberKind::Constructor(Constructor {
            name,
            params,
            base,
            clauses,
            body,
        }),
        rest,
    ))
}

// Fields or a method, after a type and a name.
#[tactic(auto, unfolding(ss_grammar_programs::specs::Parser::fields_or_method))]
fn parse_fields_or_method(
    alloc: Global,
    depth: u32,
    ty: TypeRef,
    name: Name,
    tokens: &[Token],
) -> Result<(MemberKind, &[Token]), Stop>
    ensures gives { Gives (λ x. (member_kind_tree x.0, pieces x.1.now)) result (fields_or_method depth (type_tree ty) (name_tree name) (pieces tokens.now)) }
    ensures fewer { IfOk result (λ x. length x.1.now ≤ length tokens.now) }
{
    if is_field_ahead(tokens) {
        parse_fields(alloc, depth, ty, name, tokens)
    } else {
        parse_method(alloc, depth, Some(ty), name, tokens)
    }
}

// A member with a type, after the type's first token.
#[tactic(auto, unfolding(ss_grammar_programs::specs::Parser::typed))]
fn parse_typed(
    alloc: Global,
    depth: u32,
    start: Start,
    tokens: &[Token],
) -> Result<(MemberKind, &[Token]), Stop>
    ensures gives { Gives (λ x. (member_kind_tree x.0, pieces x.1.now)) result (typed depth (start_of start) (pieces tokens.now)) }
    ensures fewer { IfOk result (λ x. length x.1.now ≤ length tokens.now) }
{
    let (ty, rest) = parse_type_end(depth, start, tokens)?;
    let (name, rest) = expect_name(rest)?;
    parse_fields_or_method(alloc, depth, ty, name, rest)
}

// A method without a result, after `void`.
#[tactic(auto, unfolding(ss_grammar_programs::specs::Parser::void_method))]
fn parse_void_method(
    alloc: Global,
    depth: u32,
    tokens: &[Token],
) -> Result<(MemberKind, &[Token]), Stop>
    ensures gives { Gives (λ x. (member_kind_tree x.0, pieces x.1.now)) result (void_method depth (pieces tokens.now)) }
    ensures fewer { IfOk result (λ x. length x.1.now ≤ length tokens.now) }
{
    let (name, rest) = expect_name(tokens)?;
    parse_method(alloc, depth, None, name, rest)
}

// A member that begins with this name.
#[tactic(auto, unfolding(ss_grammar_programs::specs::Parser::name_first))]
fn parse_name_first(
    alloc: Global,
    depth: u32,
    name: Name,
    tokens: &[Token],
) -> Result<(MemberKind, &[Token]), Stop>
    ensures gives { Gives (λ x. (member_kind_tree x.0, pieces x.1.now)) result (name_first depth (name_tree name) (pieces tokens.now)) }
    ensures fewer { IfOk result (λ x. length x.1.now ≤ length tokens.now) }
{
    if is_type_ahead(tokens) {
        let start = Start {
            place: name.place,
            name: TypeName::Class(name.text),
        };
        parse_typed(alloc, depth, start, tokens)
    } else {
        parse_constructor(alloc, depth, name, tokens)
    }
}

// What a member is, after its attributes and words.
#[tactic(auto, unfolding(ss_grammar_programs::specs::Parser::member_kind, ss_grammar_programs::specs::Parser::kind_after))]
fn parse_kind(alloc: Global, depth: u32, tokens: &[Token]) -> Result<(MemberKind, &[Token]), Stop>
    ensures gives { Gives (λ x. (member_kind_tree x.0, pieces x.1.now)) result (member_kind depth (pieces tokens.now)) }
    ensures fewer { IfOk result (λ x. length x.1.now < length tokens.now) }
{
    match tokens {
        [Token { kind, place }, rest @ ..] => match kind {
            TokenKind::Word(Word::Invariant) => {
                let (condition, rest) = parse_condition(alloc, depth, rest)?;
                Ok((MemberKind::Invariant(condition), rest))
            }
            TokenKind::Word(Word::Void) => parse_void_method(alloc, depth, rest),
            TokenKind::Word(Word::Int) => {
                parse_typed(alloc, depth, start(*place, TypeName::Int), rest)
            }
            TokenKind::Word(Word::Bool) => {
                parse_typed(alloc, depth, start(*place, TypeName::Bool), rest)
            }
            TokenKind::Word(Word::Object) => {
                parse_typed(alloc, depth, start(*place, TypeName::Object), rest)
            }
            TokenKind::Name(text) => {
                let name = Name {
                    text: text.clone()?,
                    place: *place,
                };
                parse_name_first(alloc, depth, name, rest)
            }
            _ => Err(Stop::Fault(Fault::Expected, tokens.len())),
        },
        _ => Err(Stop::Fault(Fault::Expected, tokens.len())),
    }
}

fn start(place: Place, name: TypeName) -> Start
    ensures { start_of result ≡ record { place = place; name = type_name_tree name } }
{
    Start { place, name }
}

fn add_modifier(modifiers: &mut Vec<Modifier>, said: Option<Modifier>) -> Result<(), AllocError>
    ensures { IfOk result (λ _. modifiers.new.items ≡ join_word modifiers.old.items said) }
{
    match said {
        Some(modifier) => {
            modifiers.push(modifier)?;
            Ok(())
        }
        None => Ok(()),
    }
}

// The words before a member, of which access words leave no trace.
#[tactic(auto, unfolding(ss_grammar_programs::specs::Parser::words))]
fn parse_modifiers(alloc: Global, tokens: &[Token]) -> Result<(Vec<Modifier>, &[Token]), Stop>
    ensures gives { Gives (λ x. (x.0.items, pieces x.1.now)) result (words (pieces tokens.now)) }
    ensures fewer { IfOk result (λ x. length x.1.now ≤ length tokens.now) }
{
    let mut modifiers = Vec::new(alloc);
    let mut rest = tokens;
    while let Some((said, after)) = next_modifier(rest) {
        add_modifier(&mut modifiers, said)?;
        rest = after;
    }
    Ok((modifiers, rest))
}

#[tactic(auto, unfolding(ss_grammar_programs::specs::Parser::member))]
fn parse_member(alloc: Global, depth: u32, tokens: &[Token]) -> Result<(Member, &[Token]), Stop>
    ensures gives { Gives (λ x. (member_tree x.0, pieces x.1.now)) result (member depth (pieces tokens.now)) }
    ensures fewer { IfOk result (λ x. length x.1.now < length tokens.now) }
{
    let (attributes, rest) = parse_attributes(alloc, depth, tokens)?;
    let (modifiers, rest) = parse_modifiers(alloc, rest)?;
    let (kind, rest) = parse_kind(alloc, depth, rest)?;
    Ok((
        Member {
            attributes,
            modifiers,
            kind,
        },
        rest,
    ))
}

// A member, where one begins.
fn next_member(
    alloc: Global,
    depth: u32,
    tokens: &[Token],
) -> Result<Option<(Member, &[Token])>, Stop>
    ensures gives { GivesMore (λ x. (member_tree x.0, pieces x.1.now)) result (another begins_member (member depth) (pieces tokens.now)) }
    ensures fewer { IfOk result (λ more. IfSome more (λ x. length x.1.now < length tokens.now)) }
{
    if is_member(tokens) {
        Ok(Some(parse_member(alloc, depth, tokens)?))
    } else {
        Ok(None)
    }
}

/// The members that stand here.
#[tactic(auto, unfolding(ss_grammar_programs::specs::Parser::members))]
pub fn parse_members(
    alloc: Global,
    depth: u32,
    tokens: &[Token],
) -> Result<(Vec<Member>, &[Token]), Stop>
    ensures gives { Gives (λ x. (map member_tree x.0.items, pieces x.1.now)) result (members depth (pieces tokens.now)) }
    ensures fewer { IfOk result (λ x. length x.1.now ≤ length tokens.now) }
{
    let mut list = Vec::new(alloc);
    let mut rest = tokens;
    while let Some((member, after)) = next_member(alloc, depth, rest)? {
        list.push(member)?;
        rest = after;
    }
    Ok((list, rest))
}
