ghost use Rattle.expr_tree.specs.Code.{coded_tree};
ghost use Rattle.std.specs.Coded.{codes};
ghost use Rattle.journal.specs.Members as desk;

use std::marker::Model;

/// A member of the list behind the desk of turns. It exists in proofs alone: no value of it is made.
#[derive(Drop)]
pub struct Member {
    ghost value: { desk.Member } by { Prim.hlevel (codes, coded_tree) },
}

impl Model for Member {
    ghost use Rattle.expr_tree.specs.Code.{coded_tree};
    ghost use Rattle.std.specs.Coded.{codes};
    ghost use Rattle.journal.specs.Members as desk;
    ghost use base.Fml.{ftrue};

    ghost Value = { desk.Member };

    ghost coded = { Prim.hlevel (codes, coded_tree) };

    ghost view = { λ m. m.value };

    ghost also_owns = { λ _. ftrue };
}
