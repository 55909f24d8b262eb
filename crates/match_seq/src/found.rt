ghost use Rattle.std.specs.Prelude.{◌≡◌, ◌++◌, ◌∷◌, [], map, IfOk, OnOk};
ghost use Rattle.std.specs.Option.{option_copied, option_map};
ghost use Rattle.expr_tree.specs.Substitution.{value_of};
ghost use Rattle.semantics.specs.Match as defined;
ghost use Rattle.semantics.specs.Match.{same_run};
ghost use Rattle.match_seq.specs.Search.{bind_run};
ghost use Rattle.match_seq.specs.Goals.{guard_of, found_of};

use expr_tree::{Expr, Exprs, Sym, copy_items};
use item_list::Items;
use std::alloc::{AllocError, Global};
use substitution::Bindings;

/// What has to be True for a binding to count.
#[derive(Debug, Drop)]
pub enum Guard {
    /// `t[x]`, for a test `t` and an expression `x` that it is asked of.
    Test(Expr, Expr),
    /// A condition, with the binding put in.
    Cond(Expr),
}

/// Guards in the order in which they are tried.
pub type Guards = Items<Guard>;

/// A binding by which a pattern matches, and the guards that it has to pass.
#[derive(Debug, Drop)]
pub struct Found {
    pub bindings: Bindings,
    pub guards: Guards,
}

impl Guard {
    fn copy(&self, alloc: Global) -> Result<Guard, AllocError>
        ensures { IfOk result (λ g. g ≡ self.now) }
    {
        Ok(match self {
            Guard::Test(test, asked) => Guard::Test(test.copy(alloc)?, asked.copy(alloc)?),
            Guard::Cond(condition) => Guard::Cond(condition.copy(alloc)?),
        })
    }
}

pub(crate) fn copy_guards(alloc: Global, guards: &Guards) -> Result<Guards, AllocError>
    ensures { IfOk result (λ copies. copies ≡ guards.now) }
{
    let mut copies = Items::new(alloc);
    for guard in guards.as_slice() {
        copies.push(guard.copy(alloc)?)?;
    }
    Ok(copies)
}

fn copy_bindings(alloc: Global, bindings: &Bindings) -> Result<Bindings, AllocError>
    ensures { IfOk result (λ copies. copies ≡ bindings.now) }
{
    let mut copies = Items::new(alloc);
    for (symbol, run) in bindings.as_slice() {
        copies.push((*symbol, copy_items(alloc, run)?))?;
    }
    Ok(copies)
}

/// A test of each of these expressions.
pub(crate) fn tests_of(alloc: Global, test: &Expr, run: &Exprs) -> Result<Guards, AllocError>
    ensures { IfOk result (λ guards. map guard_of guards ≡ map (defined.Test test.now) run.now) }
{
    let mut guards = Items::new(alloc);
    for asked in run.as_slice() {
        guards.push(Guard::Test(test.copy(alloc)?, asked.copy(alloc)?))?;
    }
    Ok(guards)
}

#[tactic(auto, using(crate::proofs::Places::run_steps))]
pub(crate) fn same_run(xs: &[Expr], ys: &[Expr]) -> bool
    ensures { result ≡ same_run xs.now ys.now }
{
    if xs.len() != ys.len() {
        return false;
    }
    for (i, x) in xs.iter().enumerate() {
        if !x.equals(&ys[i]) {
            return false;
        }
    }
    true
}

fn run_of(bindings: &Bindings, symbol: Sym) -> Option<&Exprs>
    ensures { option_copied result ≡ value_of bindings.now symbol }
{
    for (bound, run) in bindings.as_slice() {
        if *bound == symbol {
            return Some(run);
        }
    }
    None
}

impl Found {
    pub(crate) fn copy(&self, alloc: Global) -> Result<Found, AllocError>
        ensures { IfOk result (λ f. f ≡ self.now) }
    {
        Ok(Found {
            bindings: copy_bindings(alloc, &self.bindings)?,
            guards: copy_guards(alloc, &self.guards)?,
        })
    }

    /// Binds a name to a run, where it has no other run already.
    pub(crate) fn bind(
        self,
        alloc: Global,
        symbol: Sym,
        run: &Exprs,
    ) -> Result<Option<Found>, AllocError>
        ensures { IfOk result (λ f. option_map found_of f ≡ bind_run symbol run.now (found_of self)) }
    {
        if let Some(old) = run_of(&self.bindings, symbol) {
            if same_run(old.as_slice(), run.as_slice()) {
                return Ok(Some(self));
            }
            return Ok(None);
        }
        let Found {
            mut bindings,
            guards,
        } = self;
        bindings.push((symbol, copy_items(alloc, run)?))?;
        Ok(Some(Found { bindings, guards }))
    }

    /// Adds guards after those that there are.
    pub(crate) fn guarded(self, more: Guards) -> Result<Found, AllocError>
        ensures { IfOk result (λ f. found_of f ≡ defined.guarded (map guard_of more) (found_of self)) }
    {
        let Found {
            bindings,
            mut guards,
        } = self;
        guards.append(more)?;
        Ok(Found { bindings, guards })
    }
}
