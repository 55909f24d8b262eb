/// The ways of cutting that the option `Method` of a parallel form can ask for: `CoarsestGrained`, `FinestGrained`, `ItemsPerEvaluation`.
#[derive(Clone, Copy, Debug)]
pub enum Method {
    /// One chunk for each kernel that lives, at least one.
    Coarsest,
    /// One chunk for each element.
    Finest,
    /// Chunks of so many elements; the last may be shorter.
    Per(u64),
}
