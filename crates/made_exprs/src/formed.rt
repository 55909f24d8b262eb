ghost use Rattle.std.specs.Prelude.{◌≡◌, IfOk, MatchOption, min};
ghost use Rattle.std.specs.Option.{option_copied};
ghost use Rattle.expr_tree.specs.Tree.{call, size};
ghost use Rattle.semantics.specs.InPlace.{put_in_place};
ghost use Rattle.builtin_names.specs.Named.{names_in};
ghost use Rattle.evaluation_steps.specs.Stopping.{AreBounded};
ghost use Rattle.made_exprs.specs.Beyond.{IsBeyond};
ghost use Rattle.made_exprs.specs.Judged.{IsJudged, IsMade};

use crate::parts::{nodes_of_call, whole_call};
use builtin_names::Vocabulary;
use evaluation_steps::fits;
use expr_tree::{Binders, Built, Expr, Limits, MAX_SIZE, Stop};
use item_list::Items;
use std::alloc::{AllocError, Global};
use std::marker::Model;
use substitution::{Bindings, binders_of, subst_with};

/// One atom more than an expression may have.
pub(crate) const TOO_MANY: u64 = MAX_SIZE + 1;

/// An expression of any size and depth. Contracts see its `Tree`. Its number of atoms lies beside it, counted as far as one more than an
/// expression may have.
#[cycle(formed)]
#[derive(Debug, Drop)]
pub struct Formed {
    body: Body,
    nodes: u64,
}

/// What it is made of. Only the first is within the limits of an expression.
#[cycle(formed)]
#[derive(Debug, Drop)]
enum Body {
    Whole(Expr),
    /// Runs to be put in place in an expression.
    Placed(Binders, Bindings, Expr),
    /// A head and elements.
    Call(Box<Formed>, Items<Formed>),
}

impl Model for Formed {
    ghost use Rattle.expr_tree.specs.Tree.{Tree, depth};
    ghost use Rattle.expr_tree.specs.Code.{coded_tree};

    ghost Value = { Tree };

    ghost coded = { coded_tree };

    ghost use Rattle.made_exprs.specs.View.{tree_at, IsCounted};

    ghost view = { λ f. tree_at f.body };

    ghost invariant = { λ f. IsCounted f.body f.nodes };

    ghost size = { depth };

    ghost use Rattle.made_exprs.specs.Falls.{children_depth};

    ghost size_decreases = { λ f h. children_depth f.body };
}

impl Formed {
    /// An expression that is there.
    pub fn of(e: Expr) -> Formed
        ensures { result ≡ e }
    {
        let nodes = e.size();
        Formed {
            body: Body::Whole(e),
            nodes,
        }
    }

    /// An expression with runs put in place.
    pub fn placed(
        alloc: Global,
        names: &Vocabulary,
        bindings: Bindings,
        e: Expr,
    ) -> Result<Formed, AllocError>
        ensures { IfOk result (λ f. f ≡ put_in_place (names_in names.now) bindings e) }
    {
        let binders = binders_of(names);
        let nodes = match subst_with(alloc, &binders, &bindings, &e) {
            Ok(made) => return Ok(Formed::of(made)),
            Err(Built::TooLarge) => TOO_MANY,
            Err(Built::TooDeep(nodes)) => nodes,
            Err(Built::NoMemory) => return Err(AllocError),
        };
        Ok(Formed {
            body: Body::Placed(binders, bindings, e),
            nodes,
        })
    }

    /// The call of a head and elements.
    pub fn call(alloc: Global, head: Formed, items: Items<Formed>) -> Result<Formed, AllocError>
        ensures { IfOk result (λ f. f ≡ call head items) }
    {
        let nodes = nodes_of_call(&head, items.as_slice());
        if let Some(made) = whole_call(alloc, &head, items.as_slice())? {
            return Ok(Formed::of(made));
        }
        Ok(Formed {
            body: Body::Call(Box::new(alloc, head)?, items),
            nodes,
        })
    }

    /// The number of its atoms, counted as far as one more than an expression may have.
    pub(crate) fn nodes(&self) -> u64
        ensures { result ≡ min (size self.now) 4000001 }
    {
        self.nodes
    }

    /// The expression, where it is there.
    pub(crate) fn whole(&self) -> Option<&Expr>
        ensures { MatchOption (option_copied result) (IsBeyond self.now) (λ e. e ≡ self.now) }
    {
        match &self.body {
            Body::Whole(e) => Some(e),
            Body::Placed(_, _, _) | Body::Call(_, _) => None,
        }
    }

    /// The expression, where it is within the limits of an expression. What is within those alone is left to be judged by others.
    pub fn made(self, limits: &Limits) -> Result<Expr, Stop>
        requires bounded { AreBounded limits.now }
        ensures { IsMade limits.now self result }
    {
        match self.body {
            Body::Whole(e) => Ok(e),
            Body::Placed(_, _, _) | Body::Call(_, _) => {
                if limits.size < self.nodes {
                    Err(Stop::Size)
                } else {
                    Err(Stop::Depth)
                }
            }
        }
    }

    /// The expression, where it is within these limits.
    pub fn judged(self, limits: &Limits) -> Result<Expr, Stop>
        requires bounded { AreBounded limits.now }
        ensures { IsJudged limits.now self result }
    {
        let made = self.made(limits)?;
        match fits(limits, &made) {
            None => Ok(made),
            Some(stop) => Err(stop),
        }
    }
}
