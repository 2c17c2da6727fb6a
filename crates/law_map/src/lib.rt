//! Laws of maps that are sorted by key: what an entry put or set in them changes, and what it leaves. The crate has proofs
//! alone, which other crates cite.
#![tactic(auto)]
