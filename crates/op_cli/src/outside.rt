//! The outside of the program.

use op_pricing::PriceHook;

/// What the top call is handed: all that the program has to do with beside its memory.
#[derive(Drop)]
pub struct Outside<D, S, K, C, W, V, F> {
    /// The journal's disk.
    pub disk: D,
    /// Where requests come from.
    pub source: S,
    /// Where replies go.
    pub sink: K,
    /// What time it is.
    pub clock: C,
    /// Where unguessable bytes come from.
    pub draws: W,
    /// Who tests key proofs.
    pub verifier: V,
    /// The fee rule.
    pub hook: PriceHook<F>,
}
