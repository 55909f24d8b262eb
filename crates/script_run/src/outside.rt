//! The outside of a script that is run alone.
use builtin_names::Vocabulary;
use eval_seq::{Answer, Defs, Upcall, Want};

/// An outside that answers no call.
#[derive(Drop)]
pub(crate) struct NoOutside<'a> {
    pub names: &'a Vocabulary,
}

impl<'a> Upcall for NoOutside<'a> {
    ghost use Rattle.std.specs.Prelude.{◌≡◌, false};
    ghost use Rattle.semantics.specs.Program.{Cell};
    ghost use Rattle.semantics.specs.Play.{Shut};

    ghost step = { λ s d c r e z. (r ≡ Shut) × (e ≡ d) };

    ghost names = { λ s. s.names.now };

    ghost mode = { λ s. Cell };

    ghost is_open = { λ s. false };

    #[tactic(auto, using(crate::proofs::OutsideLemmas::shut_steps))]
    fn call(&mut self, _defs: &mut Defs, _want: Want) -> Answer {
        Answer::Closed
    }
}
