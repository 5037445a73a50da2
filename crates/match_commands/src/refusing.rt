ghost use Rattle.std.specs.Prelude.{◌≡◌, ◌<◌, ◌≤◌, ◌⊎◌, ◌+◌, ℕ, List, Err, length, unwrap_or};
ghost use Rattle.command_words.specs.RequestPlain.{MatchPlain, RangePlain, Continue, Save};
ghost use Rattle.command_words.specs.RequestPlain.{Local, View, Worlds};
ghost use Rattle.command_answers.specs.Contents.{Contents};
ghost use Rattle.game_model.specs.Setup.{Setup};
ghost use Rattle.game_save.specs.declared.saved.Saved.{Saved};
ghost use Rattle.drill_words.specs.Script.{ScriptPlain};
ghost use Rattle.game_orders.specs.declared.limits.TheConstants.{MAX_CLIENTS};
ghost use Rattle.local_command.specs.LocalText.{too_many_clients};
ghost use Rattle.match_commands.specs.Refusing.{Accepts, AcceptsSave, AcceptsScript, IsOtherMatch};
ghost use Rattle.match_commands.specs.Refusing.{IsRefusedWhere, other_match, too_few};
ghost use Rattle.match_commands.specs.Request.{answer_of};
ghost use Rattle.replay_file.specs.declared.replay.Replay.{Replay};
ghost use Rattle.replay_run.specs.Rerun.{frame_count};
ghost use Rattle.view_command.specs.Views.{no_such_client};

/// Laws of the commands on replays and saves and of `local`, where their files are accepted: `save`
/// and `worlds` are refused exactly where the replay has fewer frames than asked for; `continue`
/// where it is one of another match than the save, else exactly where it has fewer frames than the
/// save; `view` exactly where the client is none of the replay's; `local` exactly where the
/// script's clients and the bots are more than a match may have. The call does nothing.
pub fn refusals_are_exact()
    ensures save { (query : MatchPlain) (frames : ℕ) (to : List ℕ) (contents : Contents)
        (made : Setup × ℕ) (r : Replay) → Accepts query contents made r →
        IsRefusedWhere (frame_count r < frames) (answer_of (Save query frames to) contents)
        (too_few query.file) }
    ensures other_match { (query : MatchPlain) (save : List ℕ) (contents : Contents)
        (made : Setup × ℕ) (saved : Saved) (r : Replay) → Accepts query contents made r →
        AcceptsSave save contents made saved → IsOtherMatch saved r →
        answer_of (Continue query save) contents ≡ Err (other_match query.file) }
    ensures too_few { (query : MatchPlain) (save : List ℕ) (contents : Contents)
        (made : Setup × ℕ) (saved : Saved) (r : Replay) → Accepts query contents made r →
        AcceptsSave save contents made saved → (IsOtherMatch saved r → ⊥) →
        IsRefusedWhere (frame_count r < saved.frames) (answer_of (Continue query save) contents)
        (too_few query.file) }
    ensures worlds { (query : MatchPlain) (range : RangePlain) (contents : Contents)
        (made : Setup × ℕ) (r : Replay) → Accepts query contents made r →
        IsRefusedWhere
        ((frame_count r < range.from) ⊎ (frame_count r < unwrap_or range.to (frame_count r)))
        (answer_of (Worlds query range) contents) (too_few query.file) }
    ensures view { (query : MatchPlain) (client : ℕ) (contents : Contents) (made : Setup × ℕ)
        (r : Replay) → Accepts query contents made r →
        IsRefusedWhere (r.clients ≤ client) (answer_of (View query client) contents)
        no_such_client }
    ensures local { (query : MatchPlain) (bots : ℕ) (contents : Contents) (setup : Setup)
        (script : ScriptPlain) → AcceptsScript query contents setup script →
        IsRefusedWhere (MAX_CLIENTS < length script.scripts + bots)
        (answer_of (Local query bots) contents) (too_many_clients query.file) }
{}
