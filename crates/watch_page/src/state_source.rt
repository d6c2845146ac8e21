//! The source of the state of the watch.

ghost use Rattle.std.specs.Prelude.{ℕ, List, Option, IfOk, string_bytes};
ghost use Rattle.std.specs.Option.{option_copied};

use std::alloc::{AllocError, Global};

/// A source of the state of the watch, as JSON.
pub trait StateSource {
    // The text may answer a request for the state with this query.
    ghost may_answer: { Self → Option (List ℕ) → List ℕ → Type 0 };

    /// Returns the JSON text that answers a request for `/state.json`. The query is what follows the first `?` of the
    /// target, as the client sent it. Fails only if memory runs out.
    fn state_text(&self, alloc: Global, query: Option<&str>) -> Result<String, AllocError>
        ensures { IfOk result (λ text. may_answer self.now (option_copied query.entry) (string_bytes text)) };
}
