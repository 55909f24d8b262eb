/// Why a kernel is lost.
#[derive(Clone, Copy, Debug, PartialEq, Eq)]
pub enum Loss {
    /// The options name this entry of this kernel.
    Plan,
    /// The kernel reached `Quit[]`.
    Quit,
    /// Its thread could not be started.
    NotStarted,
}
