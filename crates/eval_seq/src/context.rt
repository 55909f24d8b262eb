use builtin_names::Vocabulary;
use machine_steps::Mode;

/// Where an expression is evaluated.
#[derive(Clone, Copy)]
pub struct Context<'a> {
    pub names: &'a Vocabulary,
    pub mode: Mode,
    pub kernel: u32,
}
