ghost use Rattle.std.specs.Prelude.{◌≡◌, ℕ, ◌+◌, List, None};
ghost use Rattle.std.specs.List.{AllZip};
ghost use Rattle.game_orders.specs.declared.order.Order.{Order};
ghost use Rattle.game_orders.specs.declared.entry.Entry.{Entry};
ghost use Rattle.game_model.specs.declared.world.World.{World};
ghost use Rattle.game_model.specs.Setup.{Setup};
ghost use Rattle.game_model.specs.ValidMap.{IsSetup};
ghost use Rattle.game_model.specs.ValidWorld.{IsValidWorld, IsWorldWithin};
ghost use Rattle.game_model.specs.World.{ids_of, living_of};
ghost use Rattle.game_tick.specs.MidTurn.{IsMidTurn};
ghost use Rattle.game_tick.specs.OrderParts.{ChangesPart};
ghost use Rattle.game_tick.specs.Orders.{after_order};
ghost use Rattle.game_tick.specs.Shots.{shots_of};
ghost use Rattle.game_tick.specs.StepKeeps.{ActorsKeep, HasNoMoreOre, StepKeeps};
ghost use Rattle.game_tick.specs.Tick.{tick_of};
ghost use Rattle.game_tick.specs.Turn.{after_step, after_steps, after_turn, blocks_of};
ghost use Rattle.game_tick.specs.TurnEnds.{EndsTurn};
ghost use Rattle.game_tick.specs.Keeps.{ChangesOnlyOwn, OrdersKeep, TickKeeps};

/// A law of orders: they keep the seed, the clients and who has departed, and none lifts a client
/// above [`game_model::MAX_CASH`].
pub fn orders_keep()
    ensures { (setup : Setup) (w : World) (client : ℕ) (order : Order) →
        OrdersKeep w (after_order setup w client order) }
{}

/// A law of orders: in a valid world one changes only actors and cash of the client that gives it,
/// the cash of the client to which it donates, and the pace where client 0 gives it.
pub fn orders_change_only_own()
    ensures { (setup : Setup) (frames : ℕ) (w : World) (client : ℕ) (order : Order) →
        IsValidWorld setup frames w → ChangesOnlyOwn client order w
        (after_order setup w client order) }
{}

/// A law of orders: of an actor a Move, an Attack, a Harvest and a Stop change its activities
/// alone, a Produce and a Cancel its builds alone, and a donation and a pace nothing.
pub fn orders_change_one_part()
    ensures { (setup : Setup) (w : World) (client : ℕ) (order : Order) →
        AllZip (ChangesPart order) w.actors (after_order setup w client order).actors }
{}

/// A law of orders: none makes a valid world invalid.
pub fn orders_valid()
    ensures { (setup : Setup) (frames : ℕ) (w : World) (client : ℕ) (order : Order) →
        IsValidWorld setup frames w → IsValidWorld setup frames (after_order setup w client order) }
{}

/// A law of steps: the step of an actor draws at most one random word, makes no ore, and lifts no
/// client above [`game_model::MAX_CASH`].
pub fn steps_keep()
    ensures { (setup : Setup) (w : World) (id : ℕ) → StepKeeps 1 w (after_step setup w id) }
{}

/// A law of steps: each actor stays at its place in the list with its id, its kind and its owner,
/// and no health rises. Of another actor than the one that makes the step nothing changes but its
/// health, so its activities change only by orders and by its own steps. At most one actor comes
/// last, with the next id, and it moves.
pub fn steps_keep_actors()
    ensures { (setup : Setup) (least most draws : ℕ) (w : World) (id : ℕ) → IsSetup setup →
        IsMidTurn setup least most draws w → ActorsKeep setup.rules id w.next_id w.actors
        (after_step setup w id).actors }
{}

/// A law of steps: each keeps what a world in mid-turn is, and draws at most once.
pub fn steps_keep_mid_turn()
    ensures { (setup : Setup) (least most draws : ℕ) (w : World) (id : ℕ) → IsSetup setup →
        IsMidTurn setup least most draws w → IsMidTurn setup least most (draws + 1)
        (after_step setup w id) }
{}

/// A law of steps: no cell gets or loses a building by those of a turn.
pub fn steps_keep_blocks()
    ensures { (setup : Setup) (least most draws : ℕ) (w : World) (ids : List ℕ) → IsSetup setup →
        IsMidTurn setup least most draws w → blocks_of setup (after_steps setup w ids).actors ≡
        blocks_of setup w.actors }
{}

/// A law of turns: a valid world is one in mid-turn before its first step.
pub fn valid_worlds_are_in_mid_turn()
    ensures { (setup : Setup) (least most draws : ℕ) (w : World) →
        IsWorldWithin setup least most draws w → IsMidTurn setup least most draws w }
{}

/// A law of steps: each draws one random word for its shot, and none without a shot.
pub fn draws_are_shots()
    ensures { (setup : Setup) (w : World) (id : ℕ) → (after_step setup w id).drawn ≡
        w.drawn + shots_of setup w id }
{}

/// A law of steps: an id of which no actor lives makes none.
pub fn dead_make_no_step()
    ensures { (setup : Setup) (w : World) (id : ℕ) → living_of w.actors id ≡ None →
        after_step setup w id ≡ w }
{}

/// A law of turns: after each of them all actors live. Whoever lived after the last step is there,
/// as it was then, and nothing else changes but the count of ticks.
pub fn turns_bury_the_dead()
    ensures { (setup : Setup) (w : World) →
        EndsTurn (after_steps setup w (ids_of w.actors)) (after_turn setup w) }
{}

/// A law of turns: no cell has more ore after one.
pub fn turns_make_no_ore()
    ensures { (setup : Setup) (w : World) → HasNoMoreOre w.ore (after_turn setup w).ore }
{}

/// A law of ticks: the seed and the clients stay, no client gets above [`game_model::MAX_CASH`] by
/// one, and a client has departed after it exactly where it had before or its entry is a departure.
pub fn ticks_keep()
    ensures { (setup : Setup) (w : World) (frame : List Entry) →
        TickKeeps w frame (tick_of setup w frame) }
{}

/// A law of ticks: one counts as many turns as the pace said before the frame, whatever the frame
/// makes of the pace.
pub fn ticks_count_turns()
    ensures { (setup : Setup) (w : World) (frame : List Entry) → (tick_of setup w frame).tick ≡
        w.tick + w.pace }
{}

/// A law of ticks: a world that is valid after some frames is valid after one more.
pub fn ticks_valid()
    ensures { (setup : Setup) (frames : ℕ) (w : World) (frame : List Entry) → IsSetup setup →
        IsValidWorld setup frames w → IsValidWorld setup (frames + 1) (tick_of setup w frame) }
{}
