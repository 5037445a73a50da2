ghost use Rattle.std.specs.Prelude.{◌≡◌, ◌∷◌, ◌++◌, [], ℕ, List, Some, None, true, codes};
ghost use Rattle.std.specs.Prelude.{option_map, is_some, slice_get, ◌⊎◌, false};
ghost use Rattle.std.specs.List.{All};
ghost use Rattle.clap.specs.Simple.{subcommand_of};
ghost use Rattle.command_words.specs.CommandNames.{command_of};
ghost use Rattle.command_words.specs.Commands.{lockstep_app};
ghost use Rattle.command_words.specs.RequestPlain.{RequestPlain, Drill, Yaml, Check, Replay};
ghost use Rattle.command_words.specs.RequestPlain.{Migrate, Route, Make, Local, Serve, Play};
ghost use Rattle.command_words.specs.RequestPlain.{Save, Continue, View, Worlds, Compare, Datagrams, PlayBot};
ghost use Rattle.command_words.specs.RequestPlain.{match_alone};
ghost use Rattle.command_words.specs.Reading.{request_of, is_accepted, is_plain, allowed};
ghost use Rattle.command_words.specs.HostOptions.{no_options};
ghost use Rattle.command_words.specs.Reading.{NamesRefused, CellRefused, PlayerRefused};
ghost use Rattle.command_words.specs.Reading.{PortsRefused};

/// A law of the definition: no arguments, and the program's name alone, are refused.
#[tactic(auto, using(crate::proofs::LiteralLemmas::no_words, crate::proofs::LiteralLemmas::alone))]
pub fn no_command()
    ensures none { request_of [] ≡ None }
    ensures alone { (program : List ℕ) → request_of (program ∷ []) ≡ None }
{}

/// A law of the definition: the command of a request is the argument after the program's name.
#[tactic(auto, using(crate::proofs::SecondWordLemmas::command_comes_second))]
pub fn command_comes_second()
    ensures { (words : List (List ℕ)) (request : RequestPlain) →
        request_of words ≡ Some request → slice_get words 1 ≡ Some (command_of request) }
{}

/// A law of the definition: `--script=FILE` names FILE, whatever it is.
#[tactic(auto, using(crate::proofs::LiteralLemmas::script_after_equals))]
pub fn script_after_equals()
    ensures { (program script : List ℕ) →
        request_of (program ∷ codes "drill" ∷ (codes "--script=" ++ script) ∷ [])
        ≡ Some (Drill (match_alone script) None) }
{}

/// A law of the definition: after `drill --script=FILE` the argument `--record=FILE` names the file
/// that the replay is written to, whatever it is.
#[tactic(auto, using(crate::proofs::LiteralLemmas::record_after_equals))]
pub fn record_after_equals()
    ensures { (program script written : List ℕ) →
        request_of (program ∷ codes "drill" ∷ (codes "--script=" ++ script)
        ∷ (codes "--record=" ++ written) ∷ [])
        ≡ Some (Drill (match_alone script) (Some written)) }
{}

/// A law of the definition: `replay --file=FILE` names FILE, whatever it is.
#[tactic(auto, using(crate::proofs::LiteralLemmas::replay_after_equals))]
pub fn replay_after_equals()
    ensures { (program file : List ℕ) →
        request_of (program ∷ codes "replay" ∷ (codes "--file=" ++ file) ∷ [])
        ≡ Some (Replay (match_alone file)) }
{}

/// A law of the definition: `migrate --file=FILE --to=FILE` names the replay and the file that the
/// migrated one is written to, whatever they are.
#[tactic(auto, using(crate::proofs::LiteralLemmas::migrated_files_after_equals))]
pub fn migrated_files_after_equals()
    ensures { (program file to : List ℕ) →
        request_of (program ∷ codes "migrate" ∷ (codes "--file=" ++ file)
        ∷ (codes "--to=" ++ to) ∷ [])
        ≡ Some (Migrate (match_alone file) to) }
{}

/// A law of the definition: each option of `save` names what it is called by, `--frames` the greatest
/// number here.
#[tactic(auto, using(crate::proofs::LiteralLemmas::save_with_options))]
pub fn save_with_options()
    ensures { (program file to : List ℕ) →
        request_of (program ∷ codes "save" ∷ (codes "--to=" ++ to)
        ∷ codes "--frames=4294967295" ∷ (codes "--file=" ++ file) ∷ [])
        ≡ Some (Save (match_alone file) 4294967295 to) }
{}

/// A law of the definition: `continue --save=FILE --file=FILE` names the save and the replay,
/// whatever they are.
#[tactic(auto, using(crate::proofs::LiteralLemmas::continue_after_equals))]
pub fn continue_after_equals()
    ensures { (program save file : List ℕ) →
        request_of (program ∷ codes "continue" ∷ (codes "--save=" ++ save)
        ∷ (codes "--file=" ++ file) ∷ [])
        ≡ Some (Continue (match_alone file) save) }
{}

/// A law of the definition: `view --file=FILE --client=N` names FILE, whatever it is, and N, the
/// greatest number here.
#[tactic(auto, using(crate::proofs::LiteralLemmas::view_of_a_client))]
pub fn view_of_a_client()
    ensures { (program file : List ℕ) →
        request_of (program ∷ codes "view" ∷ (codes "--file=" ++ file)
        ∷ codes "--client=4294967295" ∷ [])
        ≡ Some (View (match_alone file) 4294967295) }
{}

/// A law of the definition: `worlds --file=FILE` names FILE, whatever it is. Its worlds are those
/// after 0, 1, 2 frames and so on to the end, over no map and no rules.
#[tactic(auto, using(crate::proofs::LiteralLemmas::worlds_without_options))]
pub fn worlds_without_options()
    ensures { (program file : List ℕ) →
        request_of (program ∷ codes "worlds" ∷ (codes "--file=" ++ file) ∷ [])
        ≡ Some (Worlds (match_alone file) (record { from = 0; to = None; every = 1 })) }
{}

/// A law of the definition: each option of `worlds` names what it is called by.
#[tactic(auto, using(crate::proofs::LiteralLemmas::worlds_with_options))]
pub fn worlds_with_options()
    ensures { (program file map_file : List ℕ) →
        request_of (program ∷ codes "worlds" ∷ codes "--every=64" ∷ codes "--to=4294967295"
        ∷ codes "--from=7" ∷ (codes "--map=" ++ map_file) ∷ (codes "--file=" ++ file) ∷ [])
        ≡ Some (Worlds (record { file = file; map_file = Some map_file; rules = [] })
        (record { from = 7; to = Some 4294967295; every = 64 })) }
{}

/// A law of the definition: `compare --with=FILE --file=FILE` names the second file and the first,
/// whatever they are.
#[tactic(auto, using(crate::proofs::LiteralLemmas::compare_after_equals))]
pub fn compare_after_equals()
    ensures { (program first second : List ℕ) →
        request_of (program ∷ codes "compare" ∷ (codes "--with=" ++ second)
        ∷ (codes "--file=" ++ first) ∷ [])
        ≡ Some (Compare (match_alone first) second) }
{}

/// A law of the definition: `datagrams --script=FILE` names FILE, whatever it is.
#[tactic(auto, using(crate::proofs::LiteralLemmas::datagrams_after_equals))]
pub fn datagrams_after_equals()
    ensures { (program script : List ℕ) →
        request_of (program ∷ codes "datagrams" ∷ (codes "--script=" ++ script) ∷ [])
        ≡ Some (Datagrams script) }
{}

/// A law of the definition: `local --script=FILE` names FILE, whatever it is, and no bots.
#[tactic(auto, using(crate::proofs::LiteralLemmas::local_after_equals))]
pub fn local_after_equals()
    ensures { (program script : List ℕ) →
        request_of (program ∷ codes "local" ∷ (codes "--script=" ++ script) ∷ [])
        ≡ Some (Local (match_alone script) 0) }
{}

/// A law of the definition: `local --script=FILE --bots=N` names FILE, whatever it is, and N, the
/// greatest number here.
#[tactic(auto, using(crate::proofs::LiteralLemmas::local_with_bots))]
pub fn local_with_bots()
    ensures { (program script : List ℕ) →
        request_of (program ∷ codes "local" ∷ (codes "--script=" ++ script)
        ∷ codes "--bots=15" ∷ [])
        ≡ Some (Local (match_alone script) 15) }
{}

/// A law of the definition: `play --at=ADDRESS --script=FILE` names the server's address and the
/// script, whatever they are. `--quiet` leaves out the log, at most once.
#[tactic(auto, using(crate::proofs::LiteralLemmas::play_after_equals, crate::proofs::LiteralLemmas::play_quietly, crate::proofs::LiteralLemmas::play_quietly_twice,))]
pub fn play_after_equals()
    ensures script { (program at script : List ℕ) →
        request_of (program ∷ codes "play" ∷ (codes "--at=" ++ at)
        ∷ (codes "--script=" ++ script) ∷ [])
        ≡ Some (Play (match_alone script) at false) }
    ensures quiet { (program at script : List ℕ) →
        request_of (program ∷ codes "play" ∷ codes "--quiet" ∷ (codes "--at=" ++ at)
        ∷ (codes "--script=" ++ script) ∷ [])
        ≡ Some (Play (match_alone script) at true) }
    ensures twice { (program at script : List ℕ) →
        request_of (program ∷ codes "play" ∷ codes "--quiet" ∷ (codes "--at=" ++ at)
        ∷ codes "--quiet" ∷ (codes "--script=" ++ script) ∷ [])
        ≡ None }
{}

/// A law of the definition: `play --bot --frames=N --at=ADDRESS` names the server's address,
/// whatever it is, and N, the greatest number here. A bot and a script together are refused, and so
/// is a bot without a number of frames.
#[tactic(auto, using(crate::proofs::LiteralLemmas::play_by_a_bot, crate::proofs::LiteralLemmas::play_by_both, crate::proofs::LiteralLemmas::play_without_frames,))]
pub fn play_by_a_bot()
    ensures bot { (program at : List ℕ) →
        request_of (program ∷ codes "play" ∷ codes "--bot" ∷ codes "--frames=262144"
        ∷ (codes "--at=" ++ at) ∷ [])
        ≡ Some (PlayBot (record {
          at = at;
          frames = 262144;
          is_quiet = false;
          map_file = None;
          rules = [];
        })) }
    ensures both { (program at script : List ℕ) →
        request_of (program ∷ codes "play" ∷ codes "--bot" ∷ codes "--frames=1"
        ∷ (codes "--script=" ++ script) ∷ (codes "--at=" ++ at) ∷ [])
        ≡ None }
    ensures without { (program at : List ℕ) →
        request_of (program ∷ codes "play" ∷ codes "--bot" ∷ (codes "--at=" ++ at) ∷ []) ≡ None }
{}

/// A law of the definition: `serve --at=ADDRESS --clients=16` names the address, whatever it is.
/// The lag of the match is 2 and its seed 1, it has no clocks and no ports, is logged and not
/// recorded, and is over no map and no rules.
#[tactic(auto, using(crate::proofs::LiteralLemmas::serve_without_options))]
pub fn serve_without_options()
    ensures { (program at : List ℕ) →
        request_of (program ∷ codes "serve" ∷ (codes "--at=" ++ at) ∷ codes "--clients=16" ∷ [])
        ≡ Some (Serve (record {
          at = at;
          clients = 16;
          lag = 2;
          seed = 1;
          host = no_options;
          record_file = None;
          map_file = None;
          rules = [];
        })) }
{}

/// A law of the definition: each option of `serve` names what it is called by.
#[tactic(auto, using(crate::proofs::LiteralLemmas::serve_with_options))]
pub fn serve_with_options()
    ensures { (program at written map_file : List ℕ) →
        request_of (program ∷ codes "serve" ∷ (codes "--map=" ++ map_file) ∷ codes "--lobby=86400"
        ∷ codes "--seed=4294967295" ∷ codes "--udp-ports=7071-7073" ∷ codes "--lag=64"
        ∷ codes "--quiet" ∷ codes "--clients=3" ∷ (codes "--record=" ++ written)
        ∷ codes "--patience=1" ∷ (codes "--at=" ++ at) ∷ [])
        ≡ Some (Serve (record {
          at = at;
          clients = 3;
          lag = 64;
          seed = 4294967295;
          host = record {
            is_quiet = true;
            patience = Some 1;
            lobby = Some 86400;
            udp_ports = Some (record { first = 7071; last = 7073 });
          };
          record_file = Some written;
          map_file = Some map_file;
          rules = [];
        })) }
{}

/// A law of the definition: `serve` refuses ports with less room than its clients, at every address,
/// a patience of 0 seconds, and a lobby of more than a day.
#[tactic(auto, using(crate::proofs::LiteralLemmas::serve_without_room, crate::proofs::LiteralLemmas::serve_without_patience, crate::proofs::LiteralLemmas::serve_for_ever,))]
pub fn serve_refuses_clocks_and_ports()
    ensures room { (program at : List ℕ) →
        request_of (program ∷ codes "serve" ∷ (codes "--at=" ++ at) ∷ codes "--clients=3"
        ∷ codes "--udp-ports=7071-7072" ∷ [])
        ≡ None }
    ensures patience { (program at : List ℕ) →
        request_of (program ∷ codes "serve" ∷ (codes "--at=" ++ at) ∷ codes "--clients=3"
        ∷ codes "--patience=0" ∷ [])
        ≡ None }
    ensures lobby { (program at : List ℕ) →
        request_of (program ∷ codes "serve" ∷ (codes "--at=" ++ at) ∷ codes "--clients=3"
        ∷ codes "--lobby=86401" ∷ [])
        ≡ None }
{}

/// A law of the definition: each option of `route` names what it is called by.
#[tactic(auto, using(crate::proofs::LiteralLemmas::route_with_options))]
pub fn route_with_options()
    ensures { (program map_file kind : List ℕ) →
        request_of (program ∷ codes "route" ∷ codes "r" ∷ (codes "--kind=" ++ kind)
        ∷ codes "--to=3,4" ∷ codes "--from=1,2" ∷ (codes "--map=" ++ map_file) ∷ [])
        ≡ Some (Route (record {
          map_file = map_file;
          kind = kind;
          from = record { x = 1; y = 2 };
          to = record { x = 3; y = 4 };
          rules = codes "r" ∷ [];
        })) }
{}

/// A law of the definition: `make --number=N` names N, the greatest number here.
#[tactic(auto, using(crate::proofs::LiteralLemmas::make_of_a_number))]
pub fn make_of_a_number()
    ensures { (program : List ℕ) →
        request_of (program ∷ codes "make" ∷ codes "--number=4294967295" ∷ [])
        ≡ Some (Make 4294967295) }
{}

/// A law of the definition: `--map=FILE` of `drill` names the map, whatever it is.
#[tactic(auto, using(crate::proofs::LiteralLemmas::map_after_equals))]
pub fn map_after_equals()
    ensures { (program script map_file : List ℕ) →
        request_of (program ∷ codes "drill" ∷ (codes "--map=" ++ map_file)
        ∷ (codes "--script=" ++ script) ∷ [])
        ≡ Some (Drill (record { file = script; map_file = Some map_file; rules = [] }) None) }
{}

/// A law of the definition: `--script FILE` names FILE, if that does not begin with `-` or is `-`
/// alone.
#[tactic(auto, using(crate::proofs::LiteralLemmas::script_in_a_word))]
pub fn script_in_a_word()
    ensures { (program script : List ℕ) → is_plain script ≡ true →
        request_of (program ∷ codes "drill" ∷ codes "--script" ∷ script ∷ [])
        ≡ Some (Drill (match_alone script) None) }
{}

/// A law of the definition: `yaml FILES` names exactly these arguments in their order, if none of
/// them begins with `-` unless it is `-` alone, and if their number is allowed; else it is refused.
#[tactic(auto, using(crate::proofs::NamesLemmas::yaml_names))]
pub fn yaml_names()
    ensures { (program : List ℕ) (names : List (List ℕ)) →
        All (λ name. is_plain name ≡ true) names →
        request_of (program ∷ codes "yaml" ∷ names) ≡ option_map Yaml (allowed 1 names) }
{}

/// A law of the definition: `check RULES` names exactly these arguments in their order, if none of
/// them begins with `-` unless it is `-` alone, and if their number is allowed; else it is refused.
#[tactic(auto, using(crate::proofs::NamesLemmas::check_names))]
pub fn check_names()
    ensures { (program : List ℕ) (names : List (List ℕ)) →
        All (λ name. is_plain name ≡ true) names →
        request_of (program ∷ codes "check" ∷ names) ≡ option_map (Check None) (allowed 1 names) }
{}

/// A law of the definition: arguments that `clap` accepts name a request, unless a command that
/// takes positional arguments has too many of them, or too few, or a cell of `route` is none, or
/// `play` has no player, or two, or the ports of `serve` are none, or fewer than its clients.
#[tactic(auto, using(crate::proofs::AcceptedLemmas::accepted_request))]
pub fn accepted_words_name_a_request()
    ensures { (words : List (List ℕ)) → is_accepted words ≡ true →
        (is_some (request_of words) ≡ true)
        ⊎ (NamesRefused (subcommand_of lockstep_app words)
        ⊎ (CellRefused (subcommand_of lockstep_app words)
        ⊎ (PlayerRefused (subcommand_of lockstep_app words)
        ⊎ PortsRefused (subcommand_of lockstep_app words)))) }
{}
