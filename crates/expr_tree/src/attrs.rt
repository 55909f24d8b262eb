ghost use Rattle.std.specs.Prelude.{◌≡◌, false};

/// The attributes of a symbol, by the names that `SetAttributes` knows them by.
#[derive(Clone, Copy, Debug, PartialEq, Eq)]
pub struct Attrs {
    pub flat: bool,
    pub orderless: bool,
    pub listable: bool,
    pub hold_first: bool,
    pub hold_rest: bool,
    pub hold_all: bool,
    pub hold_all_complete: bool,
    pub sequence_hold: bool,
    pub one_identity: bool,
    pub protected: bool,
}

impl Attrs {
    /// No attribute at all.
    pub fn none() -> Attrs
        ensures { result ≡ record { flat = false; orderless = false; listable = false; hold_first = false; hold_rest = false; hold_all = false; hold_all_complete = false; sequence_hold = false; one_identity = false; protected = false } }
    {
        Attrs {
            flat: false,
            orderless: false,
            listable: false,
            hold_first: false,
            hold_rest: false,
            hold_all: false,
            hold_all_complete: false,
            sequence_hold: false,
            one_identity: false,
            protected: false,
        }
    }
}
