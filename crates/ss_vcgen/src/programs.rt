// Whole programs.

ghost use Rattle.std.specs.Prelude.{◌≡◌, [], IfOk};
ghost use Rattle.ss_core.specs.View as view;
ghost use Rattle.ss_core.specs.Chain.{IsWithinLimits};
ghost use Rattle.ss_terms.specs.Forms.{IsBankOf};
ghost use Rattle.ss_vcgen_heaps.specs.Obligations as tree;
ghost use Rattle.ss_vcgen_builder.specs.Builder.{counters_of, IsFine};
ghost use Rattle.ss_vcgen_builder.specs.Built.{trees, IsWithin};

use crate::bodies::add_body;
use crate::watch::{Located, Watch};
use ss_bit_set::BitSet;
use ss_core::{BodyId, Core};
use ss_terms::{Bank, Symbol, field_sorts};
use ss_vcgen_builder::{Builder, Counters, Guard, Listed, Obligations};
use ss_vcgen_known::{Fields, Known};
use std::alloc::{AllocError, Global};

// Nothing is known of null.
fn no_knowledge(alloc: Global) -> Known {
    Known {
        facts: BitSet::new(alloc),
        sides: Vec::new(alloc),
        beyond: BitSet::new(alloc),
        fields: Fields {
            list: Vec::new(alloc),
            beyond: true,
        },
    }
}

// A builder before the first body.
fn empty(alloc: Global, core: &Core) -> Result<Builder, AllocError>
    ensures fine { IfOk result IsFine }
    ensures bank { IfOk result (λ s. IsBankOf (view.classes core.now.classes) s.bank) }
    ensures next { IfOk result (λ s. counters_of s.next ≡ record { stores = 0; wholes = 0; truths = 0; things = 0 }) }
{
    let fields = field_sorts(alloc, &core.classes)?;
    let mut bank = Bank::new(alloc, fields);
    let store = bank.apply(Symbol::Null, &[])?;
    Ok(Builder {
        alloc,
        bank,
        locals: Vec::new(alloc),
        store,
        guard: Guard::Always,
        known: no_knowledge(alloc),
        next: Counters {
            stores: 0,
            wholes: 0,
            truths: 0,
            things: 0,
        },
        first: 0,
        trail: Vec::new(alloc),
        list: Vec::new(alloc),
    })
}

// The number of a body; past the largest one there is no memory for so many.
fn body_number(i: usize) -> Result<BodyId, AllocError>
    ensures { IfOk result (λ n. n.0 ≡ i) }
{
    let n = u32::try_from(i).map_err(|_| AllocError)?;
    Ok(BodyId(n))
}

// What was built.
fn finished(builder: Builder, list: Vec<Listed>) -> Obligations
    ensures { result ≡ record { bank = builder.bank; trail = builder.trail; list = list } }
{
    let Builder { bank, trail, .. } = builder;
    Obligations { bank, trail, list }
}

/// The obligations of a program, in their order: body by body, and in each from the front. An error is want of memory.
pub fn obligations(alloc: Global, core: &Core) -> Result<Obligations, AllocError>
    requires { IsWithinLimits (view.classes core.now.classes) }
    ensures exact { IfOk result (λ o. trees o ≡ tree.obligations (view.core core.now)) }
    ensures in_bank { IfOk result IsWithin }
    ensures bank { IfOk result (λ o. IsBankOf (view.classes core.now.classes) o.bank) }
{
    let mut watch = Watch::new(alloc, Vec::new(alloc));
    watched(alloc, core, &mut watch)
}

/// All obligations, and where some of them stand.
#[derive(Drop)]
pub struct Positions {
    pub obligations: Obligations,
    /// Of each obligation that was asked for, in order, where the statement stands that it belongs to.
    pub located: Vec<Located>,
}

/// The obligations of a program, and where the statements stand to which those of these numbers belong. The numbers, from 0, come in rising
/// order. An error is want of memory.
pub fn locate(alloc: Global, core: &Core, numbers: Vec<usize>) -> Result<Positions, AllocError>
    requires { IsWithinLimits (view.classes core.now.classes) }
    ensures exact { IfOk result (λ p. trees p.obligations ≡ tree.obligations (view.core core.now)) }
    ensures in_bank { IfOk result (λ p. IsWithin p.obligations) }
    ensures bank { IfOk result (λ p. IsBankOf (view.classes core.now.classes) p.obligations.bank) }
{
    let mut watch = Watch::new(alloc, numbers);
    let obligations = watched(alloc, core, &mut watch)?;
    Ok(Positions {
        obligations,
        located: watch.found,
    })
}

// The obligations, while some are watched.
fn watched(alloc: Global, core: &Core, watch: &mut Watch) -> Result<Obligations, AllocError>
    requires { IsWithinLimits (view.classes core.now.classes) }
    ensures exact { IfOk result (λ o. trees o ≡ tree.obligations (view.core core.now)) }
    ensures in_bank { IfOk result IsWithin }
    ensures bank { IfOk result (λ o. IsBankOf (view.classes core.now.classes) o.bank) }
{
    let mut builder = empty(alloc, core)?;
    let mut done = Vec::new(alloc);
    for i in 0..core.bodies.len() {
        let number = body_number(i)?;
        add_body(&mut builder, core, &core.bodies[i], number, watch)?;
        watch.leave_body(&builder);
        done.extend_from_slice(&builder.list)?;
    }
    Ok(finished(builder, done))
}
