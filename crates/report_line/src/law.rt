ghost use Rattle.std.specs.Prelude.{◌≡◌, ℕ, List, slice_index_or, []};
ghost use Rattle.report_line.specs.declared.heard.Heard.{Heard};
ghost use Rattle.report_line.specs.Order.{IsInterleaving, of_client, AreOf};

/// A law of queues of reports: where end k pushed reports of client k alone, for each k, what was
/// heard of each client is what its end pushed, in that order. The call does nothing.
#[tactic(auto, using(crate::proofs::OrderLemmas::each_client_heard))]
pub fn reports_of_each_client_are_heard()
    ensures { (heard : List Heard) (lists : List (List Heard)) → IsInterleaving heard lists →
        ((k : ℕ) → AreOf k (slice_index_or lists k [])) →
        (c : ℕ) → of_client c heard ≡ slice_index_or lists c [] }
{}
