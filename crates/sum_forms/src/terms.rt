//! The elements of a sum or a product.
ghost use Rattle.std.specs.Prelude.{◌≡◌, ◌<◌, ◌≤◌, ◌+◌, ◌++◌, [], ◌∷◌, List, true, MatchOption};
ghost use Rattle.expr_tree.specs.Tree.{Tree, size, depth};
ghost use Rattle.expr_tree.specs.Limits.{Assembles};
ghost use Rattle.semantics.specs.Numbers.{assembled};
ghost use Rattle.semantics.specs.Names.{Names as NamesIn};
ghost use Rattle.semantics.specs.Steps.{ordered};
ghost use Rattle.semantics.specs.declared.builtin.Builtin.{Builtin};
ghost use Rattle.builtin_names.specs.Named.{names_in};
ghost use Rattle.builtin_names.specs.Results.{Makes, IsFaultOf};
ghost use Rattle.sum_forms.specs.Planned.{Plans, Written, atoms_beside};
ghost use Rattle.std.specs.Ordering.{int_eq};

use builtin_names::{Fault, Vocabulary, make};
use canon_order::put_in_order;
use expr_tree::{Built, Expr, Exprs, MAX_SIZE};
use item_list::Items;
use semantics::Builtin;
use std::alloc::Global;
use std::marker::Model;

/// The elements so far. Where one was too deep to be made, it is counted with its atoms, and not held.
#[derive(Debug, Drop)]
pub(crate) struct Terms {
    held: Exprs,
    count: u64,
    nodes: u64,
    is_lost: bool,
}

impl Model for Terms {
    ghost use Rattle.sum_forms.specs.Planned.{Plan};
    ghost use Rattle.expr_tree.specs.Code.{coded_tree};
    ghost use Rattle.std.specs.Coded.{codes};

    ghost Value = { Plan };

    ghost coded = { Prim.hlevel (codes, coded_tree) };

    ghost view = { λ t. record { held = t.held; count = t.count; nodes = t.nodes; is_lost = t.is_lost } };
}

impl Terms {
    pub fn new(alloc: Global) -> Terms
        ensures { Plans [] result }
    {
        Terms {
            held: Items::new(alloc),
            count: 0,
            nodes: 0,
            is_lost: false,
        }
    }

    /// The elements with one more.
    pub fn with(self, term: Result<Expr, Built>) -> Result<Terms, Fault>
        ensures { (ts : List Tree) (t : Tree) → Plans ts self → Assembles t term → Written (ts ++ t ∷ []) result }
    {
        match term {
            Ok(term) => self.with_made(term),
            Err(Built::TooDeep(nodes)) => self.with_lost(nodes),
            Err(Built::TooLarge) => Err(Fault::TooLarge),
            Err(Built::NoMemory) => Err(Fault::NoMemory),
        }
    }

    #[tactic(auto, using(crate::proofs::Lists::terms_steps))]
    fn with_made(self, term: Expr) -> Result<Terms, Fault>
        ensures { (ts : List Tree) → Plans ts self → Written (ts ++ term ∷ []) result }
    {
        let Some(nodes) = grown(self.nodes, term.size()) else {
            return Err(Fault::TooLarge);
        };
        let mut held = self.held;
        held.push(term)?;
        Ok(Terms {
            held,
            count: self.count.saturating_add(1),
            nodes,
            is_lost: self.is_lost,
        })
    }

    #[tactic(auto, using(crate::proofs::Lists::terms_steps))]
    fn with_lost(self, more: u64) -> Result<Terms, Fault>
        ensures { (ts : List Tree) (t : Tree) → Plans ts self → more ≡ size t → 512 < depth t → Written (ts ++ t ∷ []) result }
    {
        let Some(nodes) = grown(self.nodes, more) else {
            return Err(Fault::TooLarge);
        };
        Ok(Terms {
            held: self.held,
            count: self.count.saturating_add(1),
            nodes,
            is_lost: true,
        })
    }

    /// The expression of the elements in canonical order, beside an integer that is left out where it is the unit.
    pub fn finish(
        self,
        alloc: Global,
        names: &Vocabulary,
        row: Builtin,
        unit: i128,
        whole: i128,
    ) -> Result<Expr, Fault>
        ensures { (ts : List Tree) → Plans ts self → Makes (assembled (names_in names.now) row unit whole (ordered ts)) result }
    {
        if self.is_lost {
            return Err(self.fault(unit, whole));
        }
        let mut items = self.held;
        put_in_order(alloc, &mut items)?;
        beside_integer(alloc, names, row, unit, whole, items)
    }

    /// The fault of the expression, where an element was too deep.
    fn fault(&self, unit: i128, whole: i128) -> Fault
        requires { self.now.is_lost ≡ true }
        ensures { (names : NamesIn) (row : Builtin) (ts : List Tree) → Plans ts self.now → IsFaultOf (assembled names row unit whole (ordered ts)) result }
    {
        match grown(self.nodes, atoms_beside(self.count, unit, whole)) {
            Some(nodes) => Fault::TooDeep(nodes),
            None => Fault::TooLarge,
        }
    }
}

/// The number of atoms beside so many elements: the head, and an integer that is not the unit.
fn atoms_beside(count: u64, unit: i128, whole: i128) -> u64
    ensures { result ≡ atoms_beside count (int_eq whole unit) }
{
    if whole != unit {
        2
    } else if count > 1 {
        1
    } else {
        0
    }
}

/// The number of atoms, where it is within the limit.
fn grown(nodes: u64, more: u64) -> Option<u64>
    ensures { MatchOption result (4000000 < nodes + more) (λ sum. (sum ≡ nodes + more) × (sum ≤ 4000000)) }
{
    match nodes.checked_add(more) {
        Some(sum) if sum <= MAX_SIZE => Some(sum),
        _ => None,
    }
}

/// The call of a row with elements, and before them an integer that is left out where it is the unit.
#[tactic(auto, using(crate::proofs::Lists::beside_steps))]
fn beside_integer(
    alloc: Global,
    names: &Vocabulary,
    row: Builtin,
    unit: i128,
    whole: i128,
    items: Exprs,
) -> Result<Expr, Fault>
    ensures { Makes (assembled (names_in names.now) row unit whole items) result }
{
    if items.is_empty() {
        return Ok(Expr::int(whole));
    }
    if whole != unit {
        let mut all = Items::new(alloc);
        all.push(Expr::int(whole))?;
        all.append(items)?;
        return Ok(make(alloc, names, row, all)?);
    }
    if items.len() > 1 {
        return Ok(make(alloc, names, row, items)?);
    }
    let mut items = items;
    match items.pop() {
        Some(only) => Ok(only),
        None => unreachable!(),
    }
}
