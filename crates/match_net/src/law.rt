ghost use Rattle.std.specs.Prelude.{◌≡◌, ◌≢◌, ◌≤◌, ◌<◌, ◌++◌, ◌∷◌, ℕ, List, None, Ok, Option, Some};
ghost use Rattle.std.specs.Prelude.{length, take};
ghost use Rattle.game_io.specs.SinkState.{SinkState};
ghost use Rattle.game_io.specs.SourceState.{SourceState};
ghost use Rattle.frame_table.specs.declared.view.View.{View};
ghost use Rattle.report_line.specs.declared.heard.Heard.{Heard};
ghost use Rattle.match_net.specs.declared.read_cause.ReadCause.{ReadCause};
ghost use Rattle.match_net.specs.Sessions.{ReadsLink, IsWholeSession};
ghost use Rattle.game_orders.specs.declared.entry.Entry.{Entry};
ghost use Rattle.game_orders.specs.declared.entry.Entry.TheVariants.{Leave};
ghost use Rattle.peer_core.specs.declared.arrived.Arrived.{Arrived};
ghost use Rattle.game_orders.specs.declared.order.Order.{Order};
ghost use Rattle.match_net.specs.declared.limits.TheConstants.{MAX_LINK_BYTES};
ghost use Rattle.match_net.specs.declared.ending.Ending.{Ending};
ghost use Rattle.match_net.specs.declared.ending.Ending.TheVariants as ending;
ghost use Rattle.match_net.specs.Session.{Session, IsSession, Makes, limited};
ghost use Rattle.order_packets.specs.declared.down.Down.{Down};
ghost use Rattle.order_packets.specs.declared.down.Down.TheVariants as down;
ghost use Rattle.match_net.specs.Playing.{Stage};
ghost use Rattle.match_net.specs.Stages.{Terms, after_packets, bot_terms};
ghost use Rattle.match_net.specs.CameDown.{IsFold, AreAgreed};
ghost use Rattle.match_net.specs.PlayMatch.{PlaysAs};
ghost use Rattle.match_net.specs.WholeMatch.{WholeMatch, IsWholeMatch, IsPlayed};
ghost use Rattle.match_net.specs.WritesInTurn.{WritesInTurn, orders_by, world_after};
ghost use Rattle.frame_core.specs.Agreed.{IsAt};
ghost use Rattle.frame_core.specs.Column.{Column};

use crate::play_end::PlayEnd;
use crate::reader_end::ReaderEnd;
use frame_core::Sim;

/// A law of links: their bytes have one session, that is, one list of plays that they put and one
/// of reports, and one end with its place. The call does nothing.
pub fn a_links_bytes_have_one_session()
    ensures { (c here : ℕ) (bytes : List ℕ) (session other : Session) (end another : Ending)
        (at there : ℕ) → IsSession c here bytes session end at →
        IsSession c here bytes other another there →
        (session ≡ other) × (end ≡ another) × (at ≡ there) }
{}

/// A law of links: a session after a Welcome that answers `Ended` or `Refused` is that of all bytes
/// that were taken, and ends as they do; one that answers `Lost` is that of all bytes too. So the
/// client's column has all plays that they put. The call does nothing.
pub fn an_ended_session_is_that_of_its_bytes()
    ensures ended { (c here : ℕ) (given : List ℕ) (old new : SourceState) (before after : View)
        (first pushed : List Heard) →
        (reads : ReadsLink c here given old new before after first pushed ReaderEnd.Ended) →
        IsWholeSession c here (given ++ reads.taken) reads.session reads.at ReaderEnd.Ended }
    ensures refused { (c here : ℕ) (given : List ℕ) (old new : SourceState) (before after : View)
        (first pushed : List Heard) (cause : ReadCause) →
        (reads : ReadsLink c here given old new before after first pushed
        (ReaderEnd.Refused cause)) →
        IsWholeSession c here (given ++ reads.taken) reads.session reads.at
        (ReaderEnd.Refused cause) }
    ensures lost { (c here : ℕ) (given : List ℕ) (old new : SourceState) (before after : View)
        (first pushed : List Heard) →
        (reads : ReadsLink c here given old new before after first pushed ReaderEnd.Lost) →
        IsSession c here (given ++ reads.taken) reads.session
        (limited (length (given ++ reads.taken)) ending.Over) reads.at }
{}

/// A law of links: what a session has put before it ended, for any reason, begins what its bytes
/// put in all. The call does nothing.
pub fn a_session_begins_that_of_its_bytes()
    ensures { (c here : ℕ) (bytes rest : List ℕ) (session whole : Session) (end : Ending)
        (at : ℕ) → Makes c here (take MAX_LINK_BYTES bytes) session rest →
        IsSession c here bytes whole end at →
        (more : List (List Order)) × (whole.plays ≡ session.plays ++ more) }
{}

/// A law of players: after a welcome and the entries that it followed, a player has of each client
/// at each frame the entry that came down first; it has ticked the frames that are ready by that,
/// up to the first that is not; and its world is the step of worlds folded over them, from the
/// opening world of the welcome. Where these entries stand in columns, one for each client, it is
/// the agreed world of that many frames, all of them ready by the columns. The call does nothing.
pub fn a_players_world_is_the_fold<S: Sim>()
    ensures folds { (terms : Terms S) (client clients lag seed : ℕ) (packets : List Down)
        (now : Stage S) →
        after_packets terms None (down.Welcome client clients lag seed ∷ packets)
        ≡ Ok (Some now) →
        IsFold terms.course.after (terms.made seed clients) clients packets now.player.peer }
    ensures agrees { (terms : Terms S) (client clients lag seed : ℕ) (packets : List Down)
        (now : Stage S) (columns : List Column) →
        after_packets terms None (down.Welcome client clients lag seed ∷ packets)
        ≡ Ok (Some now) → length columns ≡ clients → AreAgreed columns packets →
        IsAt terms.course.after (terms.made seed clients) columns now.player.peer.ticked
        now.player.peer.world }
{}

/// A law of players: the bytes that a player read determine its match, that is, the packets that it
/// followed, how it stands after them, how the match ends, and the place of that. What a call hands
/// back that was not `Lost` is the match of the bytes that it took. So two calls that play the
/// same and took the same bytes, and were not `Lost`, hand back the same end, client, ticked count
/// and world. What any call followed, also one that was `Lost`, begins the match of the bytes that
/// it took. The call does nothing.
pub fn a_players_bytes_have_one_match<S: Sim>()
    ensures one { (terms : Terms S) (bytes : List ℕ) (one other : WholeMatch S) →
        IsWholeMatch terms bytes one → IsWholeMatch terms bytes other → one ≡ other }
    ensures played { (terms : Terms S) (old new : SourceState) (before after : SinkState)
        (answer : PlayEnd) (client frames : ℕ) (sim : Option S)
        (plays : PlaysAs terms old new before after answer client frames sim) →
        answer ≢ PlayEnd.Lost →
        IsPlayed terms plays.plays.link.taken answer client frames sim }
    ensures same { (terms : Terms S) (old new first last : SourceState)
        (before after start stop : SinkState) (answer another : PlayEnd)
        (client frames c f : ℕ) (sim world : Option S)
        (plays : PlaysAs terms old new before after answer client frames sim)
        (also : PlaysAs terms first last start stop another c f world) →
        answer ≢ PlayEnd.Lost → another ≢ PlayEnd.Lost →
        plays.plays.link.taken ≡ also.plays.link.taken →
        (answer ≡ another) × (client ≡ c) × (frames ≡ f) × (sim ≡ world) }
    ensures begins { (terms : Terms S) (old new : SourceState) (before after : SinkState)
        (answer : PlayEnd) (client frames : ℕ) (sim : Option S) (whole : WholeMatch S)
        (plays : PlaysAs terms old new before after answer client frames sim) →
        IsWholeMatch terms plays.plays.link.taken whole →
        (later : List Down) × (whole.packets ≡ plays.plays.packets ++ later) }
{}

/// A law of players: after a welcome and the entries that it followed, a player has written its
/// greeting and then, in turn, reports and orders frame by frame, so that at each place the orders
/// outnumber the reports by at most the lag of the welcome; its farewell, if it comes, is the last.
/// Each report has the hash of the world after its frame. The orders of each frame are those that
/// the player has for the world that has ticked the frames reported before. While the player has
/// neither said farewell nor got its own departure, it has reported each frame that it ticked, and
/// has sent its orders for as many frames as its lag allows. From its own departure on, and once it
/// has ticked every frame that it plays, it writes nothing more. The call does nothing.
pub fn a_player_writes_in_turn<S: Sim>()
    ensures in_turn { (terms : Terms S) (client clients lag seed : ℕ) (packets : List Down)
        (now : Stage S) →
        after_packets terms None (down.Welcome client clients lag seed ∷ packets)
        ≡ Ok (Some now) →
        WritesInTurn terms (terms.made seed clients) client clients lag now }
    ensures departed { (terms : Terms S) (client clients lag seed frame : ℕ)
        (packets later : List Down) (mid now : Stage S) →
        after_packets terms None (down.Welcome client clients lag seed ∷ packets)
        ≡ Ok (Some mid) →
        after_packets terms (Some mid) (down.Entry client frame Leave ∷ later)
        ≡ Ok (Some now) → now.said ≡ mid.said }
    ensures finished { (terms : Terms S) (client clients lag seed : ℕ)
        (packets later : List Down) (mid now : Stage S) →
        after_packets terms None (down.Welcome client clients lag seed ∷ packets)
        ≡ Ok (Some mid) → terms.plays.frames ≤ mid.player.peer.ticked →
        after_packets terms (Some mid) later ≡ Ok (Some now) → now.said ≡ mid.said }
{}

/// A law of bots: where each step by a frame with an entry of each client keeps a world's clients,
/// and the opening world has those of the welcome, what a bot orders in each world that it holds is
/// what its rule orders. The call does nothing.
pub fn a_bot_orders_by_its_rule<S: Sim>()
    ensures { (made : ℕ → ℕ → S) (after : S → List Entry → S) (hash clients_of : S → ℕ)
        (ordered : S → ℕ → List Order) (rules frames : ℕ) (start : S)
        (client clients ticked n : ℕ) (arrived : List Arrived) →
        ((w : S) (f : List Entry) → length f ≡ clients_of w →
        clients_of (after w f) ≡ clients_of w) →
        clients_of start ≡ clients → client < clients →
        orders_by (bot_terms made after hash clients_of ordered rules frames) start client clients
        arrived ticked n
        ≡ ordered (world_after (bot_terms made after hash clients_of ordered rules frames) start
        clients arrived ticked) client }
{}
