//! Laws of the record of a drill, for worlds of any kind.
ghost use Rattle.std.specs.Prelude.{◌≡◌, ℕ, ◌<◌, ◌≤◌, ◌⊎◌, true, List, Some, is_some, slice_get};
ghost use Rattle.game_orders.specs.declared.limits.TheConstants.{MAX_FRAMES};
ghost use Rattle.game_orders.specs.declared.order.Order.{Order};
ghost use Rattle.game_orders.specs.declared.entry.Entry.{Entry};
ghost use Rattle.frame_core.specs.Match.{Match};
ghost use Rattle.frame_core.specs.Column.{column_of};
ghost use Rattle.peer_core.specs.Arrived.{kept_at};
ghost use Rattle.server_core.specs.Board.{report_at, reports_of};
ghost use Rattle.drill_words.specs.declared.event.Event.{Event};
ghost use Rattle.drill.specs.Agreement.{record_after, peer_after, WasToldToTick, WasFound};
ghost use Rattle.drill.specs.Agreement.{WasSealed, WasDropped, SaidFarewell, HandsUpReport};
ghost use Rattle.drill.specs.Agreement.{IsFirstReport, ColumnsOnlyGrow};

use frame_core::Sim;

/// A law of the record: a peer has ticked a frame only if an event told it to, when the play or
/// the departure of each client had reached it and one of them was a play. And whenever one of
/// its peers was told so, it ticked.
pub fn peers_tick_when_told<S: Sim>()
    ensures only { (m : Match S) (events : List Event) (i p n : ℕ) →
        n < (peer_after m events i p).ticked → WasToldToTick m events i p n }
    ensures whenever { (m : Match S) (events : List Event) (i p n : ℕ) → p < m.clients →
        WasToldToTick m events i p n → n < (peer_after m events i p).ticked }
{}

/// A law of the record: an entry is with a peer of the match exactly where an event brought it to
/// the peer and found it in the columns.
pub fn entries_arrive_when_found<S: Sim>()
    ensures only { (m : Match S) (events : List Event) (i p c n : ℕ) (entry : Entry) →
        kept_at (peer_after m events i p).arrived c n ≡ Some entry →
        WasFound m events i p c n entry }
    ensures whenever { (m : Match S) (events : List Event) (i p c n : ℕ) (entry : Entry) →
        p < m.clients → WasFound m events i p c n entry →
        kept_at (peer_after m events i p).arrived c n ≡ Some entry }
{}

/// A law of the record: a play in a client's column was sealed by that client for that frame, and
/// its packet was handed up.
pub fn plays_were_sealed<S: Sim>()
    ensures { (m : Match S) (events : List Event) (i c n : ℕ) (orders : List Order) →
        slice_get (column_of (record_after m events i).columns c).plays n ≡ Some orders →
        WasSealed m events i c n orders }
{}

/// A law of the record: a client's departure stands in its column only if an event dropped the
/// client, or an event sent its farewell and a later one handed that up. And whenever one did so of
/// a client of the match, its departure stands there from then on.
pub fn departures_were_told<S: Sim>()
    ensures only { (m : Match S) (events : List Event) (i c : ℕ) →
        (column_of (record_after m events i).columns c).left ≡ true →
        WasDropped m events i c ⊎ SaidFarewell m events i c }
    ensures whenever { (m : Match S) (events : List Event) (i c : ℕ) → c < m.clients →
        WasDropped m events i c ⊎ SaidFarewell m events i c →
        (column_of (record_after m events i).columns c).left ≡ true }
{}

/// A law of the record: the report that is kept of a client for a frame is the first of them that
/// an event handed up. And once one was handed up, of a client and for a frame of the match, one is
/// kept.
pub fn first_reports_are_kept<S: Sim>()
    ensures only { (m : Match S) (events : List Event) (i c n hash : ℕ) →
        report_at (reports_of (record_after m events i).reports c) n ≡ Some hash →
        IsFirstReport m events i c n hash }
    ensures whenever { (m : Match S) (events : List Event) (i up c n hash : ℕ) →
        up < i → c < m.clients → n < MAX_FRAMES → HandsUpReport m events up c n hash →
        is_some (report_at (reports_of (record_after m events i).reports c) n) ≡ true }
{}

/// A law of the record: from event to event the columns only grow, and each frame that the server
/// or a peer has ticked is ready and stays the same.
pub fn columns_only_grow<S: Sim>()
    ensures { (m : Match S) (events : List Event) (i j : ℕ) → i ≤ j → ColumnsOnlyGrow m events i j }
{}
