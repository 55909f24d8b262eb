ghost use Rattle.std.specs.Prelude.{◌≡◌};
ghost use Rattle.builtin_names.specs.Named.{names_in};
ghost use Rattle.match_seq.specs.Origin.{constructs_of};
ghost use Rattle.match_seq.specs.Forms.{zero_or_one, only_one, only_two, form_under, form_of};

use builtin_names::{Vocabulary, symbol_for};
use expr_tree::{Expr, Node, Sym};
use semantics::Builtin;

/// The symbols of the constructs of patterns.
#[derive(Clone, Copy)]
pub struct Constructs {
    pub blank: Sym,
    pub sequence: Sym,
    pub null_sequence: Sym,
    pub pattern: Sym,
    pub test: Sym,
    pub condition: Sym,
    pub alternatives: Sym,
    pub hold: Sym,
    pub verbatim: Sym,
}

/// What a normal pattern asks for, by its head and the number of its items.
#[derive(Clone, Copy)]
pub enum Form {
    One,
    OneOf,
    Some,
    SomeOf,
    Any,
    AnyOf,
    Named,
    Tested,
    Conditioned,
    Alternatives,
    Held,
    Verbatim,
    Ordinary,
}

fn zero_or_one(count: usize, zero: Form, one: Form) -> Form
    ensures { result ≡ zero_or_one count zero one }
{
    if count == 0 {
        zero
    } else if count == 1 {
        one
    } else {
        Form::Ordinary
    }
}

fn only_one(count: usize, one: Form) -> Form
    ensures { result ≡ only_one count one }
{
    if count == 1 { one } else { Form::Ordinary }
}

fn only_two(count: usize, two: Form) -> Form
    ensures { result ≡ only_two count two }
{
    if count == 2 { two } else { Form::Ordinary }
}

impl Constructs {
    /// The symbols of the constructs in a table of names.
    pub(crate) fn of(names: &Vocabulary) -> Constructs
        ensures { result ≡ constructs_of (names_in names.now) }
    {
        Constructs {
            blank: symbol_for(names, Builtin::Blank),
            sequence: symbol_for(names, Builtin::BlankSequence),
            null_sequence: symbol_for(names, Builtin::BlankNullSequence),
            pattern: symbol_for(names, Builtin::Pattern),
            test: symbol_for(names, Builtin::PatternTest),
            condition: symbol_for(names, Builtin::Condition),
            alternatives: symbol_for(names, Builtin::Alternatives),
            hold: symbol_for(names, Builtin::HoldPattern),
            verbatim: symbol_for(names, Builtin::Verbatim),
        }
    }

    fn form_under(&self, head: Sym, count: usize) -> Form
        ensures { result ≡ form_under self.now head count }
    {
        if head == self.blank {
            return zero_or_one(count, Form::One, Form::OneOf);
        }
        if head == self.sequence {
            return zero_or_one(count, Form::Some, Form::SomeOf);
        }
        if head == self.null_sequence {
            return zero_or_one(count, Form::Any, Form::AnyOf);
        }
        if head == self.pattern {
            return only_two(count, Form::Named);
        }
        if head == self.test {
            return only_two(count, Form::Tested);
        }
        if head == self.condition {
            return only_two(count, Form::Conditioned);
        }
        if head == self.alternatives {
            return Form::Alternatives;
        }
        if head == self.hold {
            return only_one(count, Form::Held);
        }
        if head == self.verbatim {
            return only_one(count, Form::Verbatim);
        }
        Form::Ordinary
    }

    /// What the pattern of a head and this many items asks for.
    pub(crate) fn form(&self, head: &Expr, count: usize) -> Form
        ensures { result ≡ form_of self.now head.now count }
    {
        match head.node() {
            Node::Symbol(symbol) => self.form_under(*symbol, count),
            _ => Form::Ordinary,
        }
    }
}
