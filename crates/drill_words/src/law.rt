ghost use Rattle.std.specs.Prelude.{◌≡◌, ◌<◌, ◌≤◌, ◌^◌, ℕ, Bool, true, List, length, Ok};
ghost use Rattle.std.specs.List.{list_all};
ghost use Rattle.drill_words.specs.declared.limits.TheConstants.{MAX_EVENTS};
ghost use Rattle.drill_words.specs.declared.script_words.ScriptPlay.{ScriptPlay};
ghost use Rattle.drill_words.specs.ScriptLine.{most_clients};
ghost use Rattle.drill_words.specs.Script.{play_fits, scripts_of, read_script_of};
ghost use Rattle.game_orders.specs.declared.limits.TheConstants.{MAX_CLIENTS, MAX_LAG};
ghost use Rattle.drill_words.specs.declared.event.Event.{Event};
ghost use Rattle.drill_words.specs.Words.{words_of};
ghost use Rattle.drill_words.specs.MatchLine.{match_line_of};
ghost use Rattle.drill_words.specs.EventLine.{event_of};
ghost use Rattle.drill_words.specs.Event.{event_fits, event_in_range};
ghost use Rattle.drill_words.specs.Drill.{DrillPlain, IsDrill, read_of};
ghost use Rattle.drill_words.specs.Text.{event_line, match_line, drill_text, script_text};

/// A law of drills: the canonical line of each event, the canonical first line of a match, and the
/// canonical text of a drill are read back as exactly these.
pub fn lines_read_back()
    ensures event { (clients : ℕ) (event : Event) → clients ≤ MAX_CLIENTS →
        event_fits clients event ≡ true → event_in_range event ≡ true →
        event_of clients (words_of (event_line event)) ≡ Ok event }
    ensures head { (clients lag seed : ℕ) → 1 ≤ clients → clients ≤ MAX_CLIENTS → 1 ≤ lag →
        lag ≤ MAX_LAG → seed < 2 ^ 32 →
        match_line_of (words_of (match_line clients lag seed))
        ≡ Ok (record { clients = clients; lag = lag; seed = seed }) }
    ensures text { (drill : DrillPlain) → IsDrill drill → read_of (drill_text drill) ≡ Ok drill }
{}

/// A law of scripts: the canonical text of any plays, in any order of the clients, is read back as
/// the seed, and as what each client plays by its own lines in order.
pub fn scripts_read_back()
    ensures { (solo : Bool) (clients seed : ℕ) (plays : List ScriptPlay) → 1 ≤ clients →
        clients ≤ most_clients solo → seed < 2 ^ 32 → length plays ≤ MAX_EVENTS →
        list_all (play_fits clients) plays ≡ true →
        read_script_of solo (script_text clients seed plays)
        ≡ Ok (record { seed = seed; scripts = scripts_of clients plays }) }
{}
