//! The definition of a journal: the events of a run, the core that they act on and its replay, what each kernel posts, the sequential
//! run, and which journals are legal; besides them closures and bundles, cuts of a list, and the journal's text. It stands on
//! `semantics` and `syntax`, and has no code but the types that its definitions cite. The laws over it are in `laws_journal` and the
//! crates above that.
#![tactic(auto)]

mod event;
mod handed;
mod item;
mod loss;
mod member;
mod recover;

pub use event::{Entry, Event, Journal, Wait};
pub use handed::{Handed, Posted};
pub use item::{Item, Status};
pub use loss::Loss;
pub use member::Member;
pub use recover::Recover;
