// How many fields and bodies the classes before each class have.

ghost use Rattle.std.specs.Prelude.{◌≡◌, ◌+◌, IfOk, map, length, sum_by};
ghost use Rattle.ss_ast.specs.Programs.{class_tree, member_tree};
ghost use Rattle.ss_tables.specs.Members.{fields_of_kind, methods_of_kind, constructors_of_kind, fields_in, methods_in, constructors_in};
ghost use Rattle.ss_resolver_rules.specs.Numbers.{field_count, body_count};
ghost use Rattle.ss_resolver_tables.specs.Starts.{starts_from, start_at};

use ss_ast::{ClassDecl, Member, MemberKind};
use std::alloc::{AllocError, Global};

/// How many the classes before each class have together, and how many all have.
#[derive(Drop)]
pub struct Starts {
    pub starts: Vec<usize>,
    pub all: usize,
}

impl Starts {
    /// How many those before this class have.
    pub fn at(&self, class: usize) -> usize
        ensures { result ≡ start_at self.now.starts.items self.now.all class }
    {
        match self.starts.get(class) {
            Some(start) => *start,
            None => self.all,
        }
    }
}

// More than can be counted would want more memory than there is.
fn sum(a: usize, b: usize) -> Result<usize, AllocError>
    ensures { IfOk result (λ n. n ≡ a + b) }
{
    a.checked_add(b).ok_or(AllocError)
}

fn fields_of(member: &Member) -> usize
    ensures { result ≡ length (fields_of_kind (member_tree member.now).attributes (member_tree member.now).kind) }
{
    match &member.kind {
        MemberKind::Fields(declaration) => declaration.declarators.len(),
        MemberKind::Invariant(_) | MemberKind::Method(_) | MemberKind::Constructor(_) => 0,
    }
}

fn methods_of(member: &Member) -> usize
    ensures { result ≡ length (methods_of_kind (member_tree member.now).attributes (member_tree member.now).modifiers (member_tree member.now).kind) }
{
    match &member.kind {
        MemberKind::Method(_) => 1,
        MemberKind::Fields(_) | MemberKind::Invariant(_) | MemberKind::Constructor(_) => 0,
    }
}

fn constructors_of(member: &Member) -> usize
    ensures { result ≡ length (constructors_of_kind (member_tree member.now).attributes (member_tree member.now).kind) }
{
    match &member.kind {
        MemberKind::Constructor(_) => 1,
        MemberKind::Fields(_) | MemberKind::Invariant(_) | MemberKind::Method(_) => 0,
    }
}

fn count_fields(members: &[Member]) -> Result<usize, AllocError>
    ensures { IfOk result (λ n. n ≡ length (fields_in (map member_tree members.now))) }
{
    let mut count = 0;
    for member in members {
        count = sum(count, fields_of(member))?;
    }
    Ok(count)
}

fn count_methods(members: &[Member]) -> Result<usize, AllocError>
    ensures { IfOk result (λ n. n ≡ length (methods_in (map member_tree members.now))) }
{
    let mut count = 0;
    for member in members {
        count = sum(count, methods_of(member))?;
    }
    Ok(count)
}

fn count_constructors(members: &[Member]) -> Result<usize, AllocError>
    ensures { IfOk result (λ n. n ≡ length (constructors_in (map member_tree members.now))) }
{
    let mut count = 0;
    for member in members {
        count = sum(count, constructors_of(member))?;
    }
    Ok(count)
}

fn count_bodies(class: &ClassDecl) -> Result<usize, AllocError>
    ensures { IfOk result (λ n. n ≡ body_count (class_tree class.now)) }
{
    sum(
        count_constructors(&class.members)?,
        count_methods(&class.members)?,
    )
}

/// The fields of the classes before each.
pub fn field_starts(alloc: Global, classes: &[ClassDecl]) -> Result<Starts, AllocError>
    ensures starts { IfOk result (λ s. s.starts.items ≡ starts_from field_count 0 (map class_tree classes.now)) }
    ensures all { IfOk result (λ s. s.all ≡ sum_by field_count (map class_tree classes.now)) }
{
    let mut starts = Vec::new(alloc);
    let mut all = 0;
    for class in classes {
        starts.push(all)?;
        all = sum(all, count_fields(&class.members)?)?;
    }
    Ok(Starts { starts, all })
}

/// The bodies of the classes before each.
pub fn body_starts(alloc: Global, classes: &[ClassDecl]) -> Result<Starts, AllocError>
    ensures starts { IfOk result (λ s. s.starts.items ≡ starts_from body_count 0 (map class_tree classes.now)) }
    ensures all { IfOk result (λ s. s.all ≡ sum_by body_count (map class_tree classes.now)) }
{
    let mut starts = Vec::new(alloc);
    let mut all = 0;
    for class in classes {
        starts.push(all)?;
        all = sum(all, count_bodies(class)?)?;
    }
    Ok(Starts { starts, all })
}
