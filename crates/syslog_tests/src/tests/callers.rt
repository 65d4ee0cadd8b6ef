//! Callers as users of this crate write them, each with its contract. `CALLING.md` shows them.
mod alerts;
mod normaliser;
mod recent;
mod relay;
mod router;
mod store;
